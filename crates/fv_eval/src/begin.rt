// The visit of a tree.

ghost use Rattle.std.specs.Prelude.{ℕ, ◌≡◌, ◌<◌, ◌≤◌, List, [], ◌∷◌, length, map};
ghost use Rattle.fv_parse_grammar.specs.headline.Tree.{Tree};
ghost use Rattle.fv_parse_grammar.specs.Slider.{Slider as SliderKind};
ghost use Rattle.fv_parse.specs.Trees.{Parsed, size_of, tree_in};
ghost use Rattle.fv_diagram.specs.headline.Diagram.{Constant, Primitive as Leaf};
ghost use Rattle.fv_rules.specs.headline.Values.{Env, Flat, Name};
ghost use Rattle.fv_rules.specs.headline.Rules.{flat, literal_value, slider_kind};
ghost use Rattle.fv_rules.specs.headline.Steps.{waved};
ghost use Rattle.fv_eval_scopes.specs.Shows.{IsNamed, ShowsEnv, ShowsTree};
ghost use Rattle.fv_rules.specs.Machine.{Call, Continuation as Waiting, Give, Running, Visit, given, next_parameter};
ghost use Rattle.fv_eval.specs.inner.Continuations.{Begins, IsSlider, ShowsContinuation, ShowsSlider, Steps, world};

use crate::arrive::give;
use crate::continuation::{Continuation, Focus, ForDiagram, ForValue};
use crate::machine::Machine;
use crate::turn::not_a_diagram;
use fv_diagram::{Node, Prim};
use fv_eval_lookup::Definitions;
use fv_eval_scopes::{EnvId, Ruled, Value, canonical};
use fv_parse::{TreeId, TreeNode};
use fv_parse_grammar::Literal;
use fv_rules::{EvalRefusal, literal, literal_value, negative_literal};

impl Machine {
    /// Gives a number.
    pub fn constant(&mut self, n: i32) -> Result<Focus, EvalRefusal>
        ensures { (p : Parsed) → Steps p self.old self.new result (λ Fs s. Running (Give (Flat (Constant n))) Fs s) }
    {
        let id = self.drawing.leaf(&Node::Number(n))?;
        Ok(Focus::Give(Value::Diagram(id)))
    }

    // Gives a primitive.
    fn primitive(&mut self, primitive: Prim) -> Result<Focus, EvalRefusal>
        ensures { (p : Parsed) → Steps p self.old self.new result (λ Fs s. Running (Give (Flat (Leaf primitive))) Fs s) }
    {
        let id = self.drawing.leaf(&Node::Prim(primitive))?;
        Ok(Focus::Give(Value::Diagram(id)))
    }

    // Gives a waveform.
    fn waveform(&mut self, literals: &[Literal]) -> Result<Focus, EvalRefusal>
        requires { 1 ≤ length literals.now }
        ensures { (p : Parsed) → Steps p self.old self.new result (λ Fs s. given (flat (waved (map literal_value literals.now)) s) Fs) }
    {
        let mut values = Vec::with_capacity(self.alloc, literals.len())?;
        'reading: for literal in literals {
            values.push(literal_value(*literal))?;
        }
        give(self.drawing.waveform(values.as_slice()))
    }

    // Visits a part, and has this wait for its diagram.
    fn draw(
        &mut self,
        continuation: ForDiagram,
        id: TreeId,
        env: EnvId,
    ) -> Result<Focus, EvalRefusal>
        ensures { (p : Parsed) (F : Waiting) (x : Tree) (E : Env) → ShowsContinuation (world p self.old) (Continuation.Drawn continuation) F
            → ShowsTree (world p self.old) id x → ShowsEnv (world p self.old) env E
            → Steps p self.old self.new result (λ Fs s. Running (Visit x E) (F ∷ Fs) s) }
    {
        self.wait(Continuation::Drawn(continuation), id, env)
    }

    // Calls a name, to be negated.
    fn negated(&mut self, name: u64, env: EnvId) -> Result<Focus, EvalRefusal>
        ensures { (p : Parsed) (F : Waiting) (x : Name) (E : Env) → ShowsContinuation (world p self.old) (Continuation.Drawn ForDiagram.Negated) F
            → IsNamed (world p self.old) name x → ShowsEnv (world p self.old) env E
            → Steps p self.old self.new result (λ Fs s. Running (Call x E) (F ∷ Fs) s) }
    {
        self.wait_for_name(Continuation::Drawn(ForDiagram::Negated), name, env)
    }

    // Visits the first parameter of a slider.
    fn slider(&mut self, text: &Definitions, id: TreeId, env: EnvId) -> Result<Focus, EvalRefusal>
        requires inside { id < size_of text.now }
        requires form { IsSlider (tree_in text.now id) }
        ensures { (k : SliderKind) (label : List ℕ) (E : Env) (xs : List Tree) → ShowsSlider (world text.now self.old) id env 0 k label E xs
            → Steps text.now self.old self.new result (λ Fs s. next_parameter (slider_kind k) label xs E [] Fs s) }
    {
        let done = Vec::new(self.alloc);
        self.next_parameter(text, id, env, done)
    }

    /// Visits a tree: does its rule, up to the next visit or value.
    pub fn visit(
        &mut self,
        text: &Definitions,
        id: TreeId,
        env: EnvId,
    ) -> Result<Focus, EvalRefusal>
        requires { id < size_of text.now }
        ensures { Begins text.now self.old self.new result env (tree_in text.now id) }
    {
        let tree = text.tree();
        match tree.node(id) {
            TreeNode::Number(n) => self.constant(literal(*n)),
            TreeNode::Negative(n) => self.constant(negative_literal(*n)),
            TreeNode::Primitive(p) => self.primitive(*p),
            TreeNode::Named(n) => self.name(text, canonical(tree, *n), env),
            TreeNode::MinusNamed(n) => self.negated(canonical(tree, *n), env),
            TreeNode::Group(x) => Ok(Focus::Visit { id: *x, env }),
            TreeNode::Panel(_, _, x) => Ok(Focus::Visit { id: *x, env }),
            TreeNode::Where(x, definitions) => self.visit_among(*definitions, *x, env),
            TreeNode::Abstraction(names, x) => Ok(abstraction(id, names.as_slice(), *x, env)),
            TreeNode::Case(_) => Ok(case_rules(id, env)),
            TreeNode::Binary(_, x, _) => {
                self.draw(ForDiagram::Left { binary: id, env }, *x, env)
            }
            TreeNode::Delayed(x) => self.draw(ForDiagram::Later, *x, env),
            TreeNode::Iteration(_, _, x, _) => {
                self.draw(ForDiagram::Counting { iteration: id, env }, *x, env)
            }
            TreeNode::Ports(side, x) => self.draw(ForDiagram::Ports(*side), *x, env),
            TreeNode::Apply(x, _) => {
                let continuation = ForValue::Function { apply: id, env };
                self.wait(Continuation::Valued(continuation), *x, env)
            }
            TreeNode::Waveform(literals) => {
                if literals.is_empty() {
                    return Err(not_a_diagram(tree, id));
                }
                self.waveform(literals.as_slice())
            }
            TreeNode::Switch(kind, n) => self.switch(tree, *kind, *n),
            TreeNode::Slider(_, _, _, _, _, _) => self.slider(text, id, env),
            TreeNode::Rule(_, _) | TreeNode::Constant(_, _) | TreeNode::Function(_, _, _) => {
                Err(not_a_diagram(tree, id))
            }
            TreeNode::List(_) => Err(not_a_diagram(tree, id)),
        }
    }
}

// An abstraction without names is its body.
fn abstraction(id: TreeId, names: &[u64], body: TreeId, env: EnvId) -> Focus
    ensures bare { names.now ≡ [] → result ≡ Focus.Visit body env }
    ensures named { (names.now ≡ [] → ⊥) → result ≡ Focus.Give (Value.Abstraction id 0 env) }
{
    if names.is_empty() {
        return Focus::Visit { id: body, env };
    }
    Focus::Give(Value::Abstraction {
        node: id,
        bound: 0,
        env,
    })
}

// The rules of a `case`, which have taken no argument.
fn case_rules(id: TreeId, env: EnvId) -> Focus
    ensures { result ≡ Focus.Give (Value.Rules (Ruled.Case id) env 0 0) }
{
    Focus::Give(Value::Rules {
        ruled: Ruled::Case(id),
        env,
        count: 0,
        last: 0,
    })
}
