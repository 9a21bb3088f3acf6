// Values that are turned into diagrams.

ghost use Rattle.std.specs.Prelude.{ℕ, ◌≡◌, ◌<◌, ◌-◌, ◌+◌, List, IfOk, drop, length};
ghost use Rattle.fv_parse_grammar.specs.headline.Tree.{start_of};
ghost use Rattle.fv_parse.specs.Trees.{Parsed, size_of, tree_in};
ghost use Rattle.fv_diagram.specs.headline.Diagram.{Diagram};
ghost use Rattle.fv_diagram.specs.Arena.{count_of};
ghost use Rattle.fv_rules.specs.headline.Values.{Env, Value as Meant};
ghost use Rattle.fv_rules.specs.headline.Steps.{no_diagram};
ghost use Rattle.fv_rules.specs.headline.Rules.{on_slots};
ghost use Rattle.fv_eval_scopes.specs.Shows.{Draws, IsInside, ShowsEnv, ShowsValue, ShowsValues, begins_in, parameters_in};
ghost use Rattle.fv_rules.specs.Machine.{ForDiagram as Drawing, next_turned, to_diagram};
ghost use Rattle.fv_eval_drawing.specs.Makes.{AreThere};
ghost use Rattle.fv_eval.specs.inner.Continuations.{AllDraw, DrawnThere, IsShown, ShowsForDiagram, Slots, Steps, world};

use crate::arrive::give;
use crate::continuation::{Continuation, Focus, ForDiagram};
use crate::machine::Machine;
use crate::names::body_of;
use fv_diagram::DiagramId;
use fv_eval_lookup::Definitions;
use fv_eval_scopes::{EnvId, Ruled, Value, parameters};
use fv_parse::{Tree, TreeId};
use fv_rules::{EvalRefusal, too_many_to_count};
use std::alloc::AllocError;

impl Machine {
    /// Turns a value into a diagram where one is waited for. An abstraction is turned into one first.
    pub fn turn(
        &mut self,
        text: &Definitions,
        continuation: ForDiagram,
        value: Value,
    ) -> Result<Focus, EvalRefusal>
        requires continuation { DrawnThere (world text.now self.old) continuation }
        requires value { IsShown (world text.now self.old) value }
        ensures { (F : Drawing) (v : Meant) → ShowsForDiagram (world text.now self.old) continuation F → ShowsValue (world text.now self.old) value v
            → Steps text.now self.old self.new result (λ Fs s. to_diagram text.now.tokens F v Fs s) }
    {
        match value {
            Value::Diagram(id) => self.diagram_arrives(text, continuation, id),
            Value::Abstraction { node, bound, env } => {
                let tree = text.tree();
                let slot = self.slot;
                let count = parameters(tree, node);
                let inner = self.on_slots(node, bound, count, env)?;
                let slots = self.slot - slot;
                self.continuations.push(Continuation::Drawn(continuation))?;
                self.continuations
                    .push(Continuation::Drawn(ForDiagram::Binding { slot, slots }))?;
                Ok(Focus::Visit {
                    id: body_of(tree, node),
                    env: inner,
                })
            }
            Value::Rules { ruled, .. } => Err(not_a_diagram(text.tree(), first_of(ruled))),
        }
    }

    // Binds the parameters of a node that are left to new slots, in an environment.
    fn on_slots(
        &mut self,
        node: TreeId,
        bound: u64,
        count: u64,
        env: EnvId,
    ) -> Result<EnvId, AllocError>
        ensures slots { IfOk result (λ e. (p : Parsed) → Slots p self.old self.new (count - bound)) }
        ensures env { IfOk result (λ e. (p : Parsed) (E : Env) → node < size_of p → count ≡ length (parameters_in p.tokens (tree_in p node))
            → ShowsEnv (world p self.old) env E
            → ShowsEnv (world p self.new) e (on_slots (drop bound (parameters_in p.tokens (tree_in p node))) self.old.slot E)) }
    {
        let left = count.saturating_sub(bound);
        if left == 0 {
            return Ok(env);
        }
        let Some(next) = self.slot.checked_add(left) else {
            return Err(too_many_to_count());
        };
        let inner = self.scopes.bind_slots(node, bound, left, self.slot, env)?;
        self.slot = next;
        Ok(inner)
    }

    /// Turns the next argument of a diagram into a diagram, or feeds the diagram with all of them.
    pub fn next_turned(
        &mut self,
        function: DiagramId,
        arguments: Vec<Value>,
        at: u64,
        done: Vec<DiagramId>,
    ) -> Result<Focus, EvalRefusal>
        requires function { function < count_of self.old.drawing.diagrams }
        requires done { AreThere self.old.drawing.diagrams done.items }
        ensures { (p : Parsed) (f : Diagram) (vs : List Meant) (ds : List Diagram) → Draws (world p self.old) function f
            → ShowsValues (world p self.old) (drop at arguments.items) vs
            → AllDraw (world p self.old) done.items ds → Steps p self.old self.new result (λ Fs s. next_turned f vs ds Fs s) }
    {
        match arguments.get(at as usize) {
            Some(value) => {
                let value = *value;
                let next = at + 1;
                self.continuations.push(Continuation::Drawn(ForDiagram::Turning {
                    function,
                    arguments,
                    next,
                    done,
                }))?;
                Ok(Focus::Give(value))
            }
            None => give(self.drawing.feed(function, done)),
        }
    }
}

// The node at which rules begin.
fn first_of(ruled: Ruled) -> TreeId
    ensures inside { (p : Parsed) → IsInside p ruled → result < size_of p }
    ensures first { (p : Parsed) → start_of (tree_in p result) ≡ begins_in p ruled }
{
    match ruled {
        Ruled::Case(id) => id,
        Ruled::Definitions { first, .. } => first,
    }
}

/// What begins there is no diagram.
pub fn not_a_diagram(tree: &Tree, id: TreeId) -> EvalRefusal
    requires { id < size_of tree.now }
    ensures { result ≡ no_diagram tree.now.tokens (start_of (tree_in tree.now id)) }
{
    let place = tree.place(id);
    EvalRefusal::NotADiagram {
        line: place.line,
        column: place.column,
    }
}
