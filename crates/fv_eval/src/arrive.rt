// A value is given to what waits for it.

ghost use Rattle.std.specs.Prelude.{ℕ, ◌≡◌, ◌<◌, ◌∷◌, IfOk};
ghost use Rattle.fv_parse.specs.Trees.{Parsed, size_of, tree_in};
ghost use Rattle.fv_parse_grammar.specs.headline.Tree.{Tree, Binary};
ghost use Rattle.fv_parse_grammar.specs.declared.form.Operator.{Operator as Op};
ghost use Rattle.fv_diagram.specs.headline.Diagram.{Diagram};
ghost use Rattle.fv_diagram.specs.Arena.{count_of};
ghost use Rattle.fv_rules.specs.headline.Values.{Env, Flat, Value as Meant};
ghost use Rattle.fv_rules.specs.headline.Matching.{settled};
ghost use Rattle.fv_rules.specs.headline.Rules.{ports};
ghost use Rattle.fv_eval_scopes.specs.Shows.{Draws, ShowsEnv, ShowsTree, ShowsValue};
ghost use Rattle.fv_rules.specs.Machine.{Drawn, ForDiagram as Drawing, ForValue as Valuing, Give, Right, Running, Visit, arrives, diagram_arrives};
ghost use Rattle.fv_rules.specs.Machine.{value_arrives};
ghost use Rattle.fv_eval_drawing.specs.Makes.{IsThere as IsDrawn};
ghost use Rattle.fv_eval.specs.declared.continuation.Focus.TheVariants.{Give as Gives};
ghost use Rattle.fv_eval.specs.inner.Continuations.{DrawnThere, gave, Grew, IsBinary, IsShown, Knows, Runs, ShowsForDiagram, ShowsForValue, Steps};
ghost use Rattle.fv_eval.specs.inner.Continuations.{ValuedShown, world};

use crate::continuation::{Continuation, Focus, ForDiagram, ForValue};
use crate::machine::Machine;
use fv_diagram::DiagramId;
use fv_eval_lookup::Definitions;
use fv_eval_scopes::{EnvId, Value};
use fv_parse::{TreeId, TreeNode};
use fv_parse_grammar::Side;
use fv_rules::EvalRefusal;
use std::alloc::AllocError;

impl Machine {
    /// Gives a value to the innermost continuation.
    pub fn arrive(&mut self, text: &Definitions, value: Value) -> Result<Focus, EvalRefusal>
        requires { Runs text.now self.old (Gives value) }
        ensures { (v : Meant) → ShowsValue (world text.now self.old) value v
            → Steps text.now self.old self.new result (λ Fs s. arrives text.now.tokens v Fs s) }
    {
        match self.continuations.pop() {
            None => Ok(Focus::Done(value)),
            Some(Continuation::Valued(continuation)) => self.value_arrives(
                text,
                continuation,
                value,
            ),
            Some(Continuation::Drawn(continuation)) => self.turn(text, continuation, value),
        }
    }

    // Turns a value that has a number into that integer.
    fn settle(&mut self, value: Value) -> Result<Value, AllocError>
        requires { IsDrawn self.old.drawing.diagrams value }
        ensures grew { (p : Parsed) → Grew p self.old self.new }
        ensures shows { IfOk result (λ u. (p : Parsed) (v : Meant) → ShowsValue (world p self.old) value v → ShowsValue (world p self.new) u (settled v)) }
    {
        let Value::Diagram(id) = value else {
            return Ok(value);
        };
        let settled = self.drawing.settle(self.alloc, id)?;
        Ok(Value::Diagram(settled))
    }

    // Gives a value to what waits for one.
    fn value_arrives(
        &mut self,
        text: &Definitions,
        continuation: ForValue,
        value: Value,
    ) -> Result<Focus, EvalRefusal>
        requires continuation { ValuedShown (world text.now self.old) continuation }
        requires value { IsShown (world text.now self.old) value }
        requires knows { Knows text.now self.old }
        ensures { (F : Valuing) (v : Meant) → ShowsForValue (world text.now self.old) continuation F → ShowsValue (world text.now self.old) value v
            → Steps text.now self.old self.new result (λ Fs s. value_arrives text.now.tokens F v Fs s) }
    {
        match continuation {
            ForValue::Function { apply, env } => {
                let done = Vec::new(self.alloc);
                self.next_argument(text, apply, value, env, done)
            }
            ForValue::Argument {
                apply,
                function,
                env,
                mut done,
            } => {
                let settled = self.settle(value)?;
                done.push(settled)?;
                self.next_argument(text, apply, function, env, done)
            }
            ForValue::Leftover {
                apply,
                arguments,
                next,
            } => self.apply(text, apply, value, arguments, next),
            ForValue::Parameter { slider, env, done } => {
                self.parameter_arrives(text, slider, env, done, value)
            }
        }
    }

    /// Gives a diagram to what waits for one.
    pub fn diagram_arrives(
        &mut self,
        text: &Definitions,
        continuation: ForDiagram,
        diagram: DiagramId,
    ) -> Result<Focus, EvalRefusal>
        requires continuation { DrawnThere (world text.now self.old) continuation }
        requires diagram { diagram < count_of self.old.drawing.diagrams }
        ensures { (F : Drawing) (d : Diagram) → ShowsForDiagram (world text.now self.old) continuation F → Draws (world text.now self.old) diagram d
            → Steps text.now self.old self.new result (λ Fs s. diagram_arrives text.now.tokens F d Fs s) }
    {
        match continuation {
            ForDiagram::Left { binary, env } => self.right(text, binary, env, diagram),
            ForDiagram::Right { operator, left } => {
                give(self.drawing.join(operator, left, diagram))
            }
            ForDiagram::Later => give(self.drawing.delay(diagram)),
            ForDiagram::Negated => give(self.drawing.negate(diagram)),
            ForDiagram::Ports(side) => self.ports(side, diagram),
            ForDiagram::Binding { slot, slots } => {
                give(self.drawing.bind_all(slot, slots, diagram))
            }
            ForDiagram::Turning {
                function,
                arguments,
                next,
                mut done,
            } => {
                done.push(diagram)?;
                self.next_turned(function, arguments, next, done)
            }
            ForDiagram::Counting { iteration, env } => self.count(text, iteration, env, diagram),
            ForDiagram::Body {
                iteration,
                env,
                left,
                mut done,
            } => {
                done.push(diagram)?;
                self.next_body(text, iteration, env, left, done)
            }
            ForDiagram::Finish => Ok(Focus::Give(Value::Diagram(diagram))),
        }
    }

    // Visits the right part of a node of two parts, whose left one is done.
    fn right(
        &mut self,
        text: &Definitions,
        binary: TreeId,
        env: EnvId,
        left: DiagramId,
    ) -> Result<Focus, EvalRefusal>
        requires inside { binary < size_of text.now }
        requires form { IsBinary (tree_in text.now binary) }
        ensures { (s : ℕ) (o : Op) (x y : Tree) (E : Env) (a : Diagram) → ShowsTree (world text.now self.old) binary (Binary s o x y)
            → ShowsEnv (world text.now self.old) env E
            → Draws (world text.now self.old) left a → Steps text.now self.old self.new result (λ Fs t. Running (Visit y E) (Drawn (Right o a) ∷ Fs) t) }
    {
        let TreeNode::Binary(operator, _, y) = text.tree().node(binary) else {
            unreachable!();
        };
        let continuation = ForDiagram::Right {
            operator: *operator,
            left,
        };
        self.wait(Continuation::Drawn(continuation), *y, env)
    }

    // Gives the number of a diagram's inputs or outputs.
    fn ports(&mut self, side: Side, diagram: DiagramId) -> Result<Focus, EvalRefusal>
        requires { diagram < count_of self.old.drawing.diagrams }
        ensures { (p : Parsed) (d : Diagram) → Draws (world p self.old) diagram d
            → Steps p self.old self.new result (λ Fs s. Running (Give (Flat (ports side d))) Fs s) }
    {
        let arity = self.drawing.arity(diagram);
        match side {
            Side::Inputs => self.constant(arity.inputs as i32),
            Side::Outputs => self.constant(arity.outputs as i32),
        }
    }
}

/// A diagram that was put is given; a refusal stays.
pub fn give(whole: Result<DiagramId, EvalRefusal>) -> Result<Focus, EvalRefusal>
    ensures { result ≡ gave whole }
{
    match whole {
        Ok(id) => Ok(Focus::Give(Value::Diagram(id))),
        Err(refusal) => Err(refusal),
    }
}
