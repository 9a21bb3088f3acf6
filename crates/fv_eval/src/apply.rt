// Application.

ghost use Rattle.std.specs.Prelude.{ℕ, ◌≡◌, ◌<◌, ◌∷◌, List, None, IfOk, drop, length};
ghost use Rattle.fv_parse_grammar.specs.headline.Tree.{Tree as Spelled, Apply, items, start_of};
ghost use Rattle.fv_parse.specs.Trees.{Parsed, size_of, tree_in};
ghost use Rattle.fv_rules.specs.headline.Values.{Env, Taken, Value as Meant};
ghost use Rattle.fv_rules.specs.headline.Steps.{no_rule};
ghost use Rattle.fv_eval_scopes.specs.Shows.{IsInside, ShowsEnv, ShowsTaken, ShowsTree, ShowsValue, ShowsValues};
ghost use Rattle.fv_rules.specs.Machine.{Leftover as Left, Running, Valued, Visit, apply, next_argument};
ghost use Rattle.fv_eval.specs.inner.Continuations.{AreShown, Chooses, Completes, Grew, IsApplication, IsShown, Knows, Selects, ShowsTaking, Steps};
ghost use Rattle.fv_eval.specs.inner.Continuations.{completed, took, world};

use crate::continuation::{Continuation, Focus, ForValue};
use crate::machine::Machine;
use crate::names::body_of;
use fv_eval_lookup::Definitions;
use fv_eval_patterns::Bindings;
use fv_eval_scopes::{EnvId, Ruled, Value, parameter, parameters};
use fv_parse::{Tree, TreeId, TreeNode};
use fv_rules::EvalRefusal;
use std::alloc::AllocError;

impl Machine {
    /// Visits the next argument of an application, or applies its function to all of them.
    pub fn next_argument(
        &mut self,
        text: &Definitions,
        application: TreeId,
        function: Value,
        env: EnvId,
        done: Vec<Value>,
    ) -> Result<Focus, EvalRefusal>
        requires application { application < size_of text.now }
        requires form { IsApplication (tree_in text.now application) }
        requires function { IsShown (world text.now self.old) function }
        requires done { AreShown (world text.now self.old) done.items }
        requires knows { Knows text.now self.old }
        ensures { (s : ℕ) (f ys : Spelled) (v : Meant) (E : Env) (vs : List Meant) → ShowsTree (world text.now self.old) application (Apply s f ys)
            → ShowsValue (world text.now self.old) function v → ShowsEnv (world text.now self.old) env E → ShowsValues (world text.now self.old) done.items vs
            → Steps text.now self.old self.new result (λ Fs t. next_argument text.now.tokens s v (drop (length done.items) (items ys)) E vs Fs t) }
    {
        let tree = text.tree();
        let TreeNode::Apply(_, list) = tree.node(application) else {
            unreachable!();
        };
        match tree.items(*list).get(done.len()) {
            Some(id) => {
                let id = *id;
                let continuation = ForValue::Argument {
                    apply: application,
                    function,
                    env,
                    done,
                };
                self.wait(Continuation::Valued(continuation), id, env)
            }
            None => self.apply(text, application, function, done, 0),
        }
    }

    /// Applies a value to arguments, from an index on.
    pub fn apply(
        &mut self,
        text: &Definitions,
        application: TreeId,
        function: Value,
        arguments: Vec<Value>,
        next: u64,
    ) -> Result<Focus, EvalRefusal>
        requires application { application < size_of text.now }
        requires function { IsShown (world text.now self.old) function }
        requires arguments { AreShown (world text.now self.old) (drop next arguments.items) }
        requires knows { Knows text.now self.old }
        ensures { (s : ℕ) (f ys : Spelled) (v : Meant) (vs : List Meant) → ShowsTree (world text.now self.old) application (Apply s f ys)
            → ShowsValue (world text.now self.old) function v → ShowsValues (world text.now self.old) (drop next arguments.items) vs
            → Steps text.now self.old self.new result (λ Fs t. apply text.now.tokens s v vs Fs t) }
    {
        let mut function = function;
        let mut at = next as usize;
        'applying: while at < arguments.len() {
            match self.take(text, &function, arguments[at])? {
                Some(value) => {
                    function = value;
                    at += 1;
                }
                None => return self.complete(text, application, function, arguments, at),
            }
        }
        Ok(Focus::Give(function))
    }

    // Gives a function one argument more, where it wants others after it.
    fn take(
        &mut self,
        text: &Definitions,
        function: &Value,
        argument: Value,
    ) -> Result<Option<Value>, AllocError>
        requires { IsShown (world text.now self.old) function.now }
        ensures grew { Grew text.now self.old self.new }
        ensures took { IfOk result (λ o. (v a : Meant) → ShowsValue (world text.now self.old) function.now v → ShowsValue (world text.now self.old) argument a
            → ShowsTaking (world text.now self.new) o (took v a)) }
    {
        match function {
            Value::Diagram(_) => Ok(None),
            Value::Abstraction { node, bound, env } => {
                self.take_parameter(text.tree(), *node, *bound, *env, argument)
            }
            Value::Rules {
                ruled,
                env,
                count,
                last,
            } => {
                if text.width(*ruled).saturating_sub(*count) <= 1 {
                    return Ok(None);
                }
                let place = self.scopes.take(argument, *last)?;
                Ok(Some(Value::Rules {
                    ruled: *ruled,
                    env: *env,
                    count: *count + 1,
                    last: place,
                }))
            }
        }
    }

    // Binds one parameter more of an abstraction, where it has others after it.
    fn take_parameter(
        &mut self,
        tree: &Tree,
        node: TreeId,
        bound: u64,
        env: EnvId,
        argument: Value,
    ) -> Result<Option<Value>, AllocError>
        requires { IsShown (world tree.now self.old) (Value.Abstraction node bound env) }
        ensures grew { Grew tree.now self.old self.new }
        ensures took { IfOk result (λ o. (v a : Meant) → ShowsValue (world tree.now self.old) (Value.Abstraction node bound env) v
            → ShowsValue (world tree.now self.old) argument a → ShowsTaking (world tree.now self.new) o (took v a)) }
    {
        let count = parameters(tree, node);
        let more = bound + 1;
        if count <= more {
            return Ok(None);
        }
        let Some(name) = parameter(tree, node, bound) else {
            unreachable!();
        };
        let inner = self.scopes.bind(name, argument, env)?;
        Ok(Some(Value::Abstraction {
            node,
            bound: more,
            env: inner,
        }))
    }

    // Gives a function the last argument that it wants.
    fn complete(
        &mut self,
        text: &Definitions,
        application: TreeId,
        function: Value,
        arguments: Vec<Value>,
        at: usize,
    ) -> Result<Focus, EvalRefusal>
        requires application { application < size_of text.now }
        requires function { IsShown (world text.now self.old) function }
        requires at { at < length arguments.items }
        requires arguments { AreShown (world text.now self.old) (drop at arguments.items) }
        requires knows { Knows text.now self.old }
        ensures { Completes text.now self.old self.new result application function arguments.items at }
    {
        match function {
            Value::Diagram(id) => {
                let done = Vec::new(self.alloc);
                self.next_turned(id, arguments, at as u64, done)
            }
            Value::Abstraction { node, bound, env } => {
                let tree = text.tree();
                let Some(name) = parameter(tree, node, bound) else {
                    unreachable!();
                };
                let inner = self.scopes.bind(name, arguments[at], env)?;
                self.leave(application, arguments, at, body_of(tree, node), inner)
            }
            Value::Rules {
                ruled,
                env,
                count,
                last,
            } => {
                let choice = self.choose(text, ruled, count, last, arguments[at])?;
                self.select(text, application, choice, env, arguments, at)
            }
        }
    }

    // Finds the rule that rules choose with the last argument that they want.
    fn choose(
        &mut self,
        text: &Definitions,
        ruled: Ruled,
        count: u64,
        last: u64,
        argument: Value,
    ) -> Result<Option<(TreeId, Bindings)>, AllocError>
        requires inside { IsInside text.now ruled }
        requires taken { (T : Taken) × ShowsTaken (world text.now self.old) count last T }
        requires argument { IsShown (world text.now self.old) argument }
        requires knows { Knows text.now self.old }
        ensures grew { IfOk result (λ o. Grew text.now self.old self.new) }
        ensures chosen { IfOk result (Chooses text.now self.old self.new ruled count last argument) }
    {
        let mut all = self.scopes.arguments(self.alloc, count, last)?;
        all.push(argument)?;
        let choice = self
            .drawing
            .choose(self.alloc, text, ruled, &mut self.trials, all.as_slice())?;
        Ok(choice)
    }

    // Visits the right side of the rule that was chosen; where none was, refuses the application.
    fn select(
        &mut self,
        text: &Definitions,
        application: TreeId,
        choice: Option<(TreeId, Bindings)>,
        env: EnvId,
        arguments: Vec<Value>,
        at: usize,
    ) -> Result<Focus, EvalRefusal>
        requires application { application < size_of text.now }
        requires at { at < length arguments.items }
        ensures { Selects text.now self.old self.new result application choice env arguments.items at }
    {
        match choice {
            Some(chosen) => {
                let inner = self.scopes.bind_all(chosen.1.as_slice(), env)?;
                self.leave(application, arguments, at, chosen.0, inner)
            }
            None => Err(no_rule(text.tree(), application)),
        }
    }

    // Visits a body; the arguments after this index wait for its value.
    fn leave(
        &mut self,
        application: TreeId,
        arguments: Vec<Value>,
        at: usize,
        body: TreeId,
        env: EnvId,
    ) -> Result<Focus, EvalRefusal>
        requires { at < length arguments.items }
        ensures { (p : Parsed) (s : ℕ) (f ys x : Spelled) (E : Env) (a : Meant) (more : List Meant) → ShowsTree (world p self.old) application (Apply s f ys)
            → ShowsTree (world p self.old) body x → ShowsEnv (world p self.old) env E → ShowsValues (world p self.old) (drop at arguments.items) (a ∷ more)
            → Steps p self.old self.new result (λ Fs t. Running (Visit x E) (Valued (Left s more) ∷ Fs) t) }
    {
        let continuation = ForValue::Leftover {
            apply: application,
            arguments,
            next: at as u64 + 1,
        };
        self.wait(Continuation::Valued(continuation), body, env)
    }
}

// None of the rules fits the arguments of an application.
fn no_rule(tree: &Tree, application: TreeId) -> EvalRefusal
    requires { application < size_of tree.now }
    ensures { result ≡ no_rule tree.now.tokens (start_of (tree_in tree.now application)) }
{
    let place = tree.place(application);
    EvalRefusal::NoRule {
        line: place.line,
        column: place.column,
    }
}
