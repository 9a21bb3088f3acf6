// The machine: its lists, and one step.

ghost use Rattle.std.specs.Prelude.{◌≡◌, ◌<◌, ◌-◌, [], ◌∷◌, MatchBool};
ghost use Rattle.fv_parse_grammar.specs.headline.Tree.{Tree};
ghost use Rattle.fv_parse.specs.Trees.{Parsed};
ghost use Rattle.fv_rules.specs.headline.Values.{Env, Name, Scope, Value as Meant};
ghost use Rattle.fv_rules.specs.headline.Steps.{Outcome};
ghost use Rattle.fv_eval_scopes.specs.Shows.{IsNamed, ShowsEnv, ShowsTree};
ghost use Rattle.fv_rules.specs.Machine.{Call, Config, Continuation as Waiting, Running, Visit, step};
ghost use Rattle.fv_eval.specs.inner.Continuations.{Continues, Ends, Goes, IsNew, Runs, ShowsContinuation, Steps, world};

use crate::continuation::{Continuation, Continuations, Focus};
use fv_eval_drawing::{Controls, Drawing, Labels};
use fv_eval_lookup::{Definitions, Shortcuts};
use fv_eval_patterns::Trials;
use fv_eval_scopes::{EnvId, Scopes, Value};
use fv_parse::TreeId;
use fv_rules::{EvalRefusal, steps_mean, too_many_to_count};
use std::alloc::Global;

/// The lists of an evaluation.
#[derive(Drop)]
pub struct Machine {
    pub alloc: Global, // Where the lists take their memory.
    pub drawing: Drawing, // The diagrams that were put, and the table sum.
    pub scopes: Scopes, // The environments, and the arguments that rules have taken.
    pub controls: Controls, // The controls that were met, in the order of their first evaluation.
    pub labels: Labels, // The controls of the labels that were met.
    pub continuations: Continuations, // What waits for a value, the innermost last.
    pub trials: Trials, // What is remembered of long patterns: which diagrams they do not match, which they may, and what they bind there.
    pub shortcuts: Shortcuts, // The ways outward that names have gone.
    pub visits: u32, // The visits that are left.
    pub slot: u64, // The next slot.
}

impl Machine {
    /// A machine with `visits` visits, in which nothing waits.
    pub fn new(alloc: Global, visits: u32) -> Machine
        ensures { IsNew result (record { visits = visits; controls = []; slot = 0; tables = 0 }) }
    {
        Machine {
            alloc,
            drawing: Drawing::new(alloc),
            scopes: Scopes::new(alloc),
            controls: Controls::new(alloc),
            labels: Labels::new(alloc),
            continuations: Continuations::new(alloc),
            trials: Trials::new(alloc),
            shortcuts: Shortcuts::new(alloc),
            visits,
            slot: 0,
        }
    }

    /// Visits a tree, and has this wait for it.
    pub fn wait(
        &mut self,
        continuation: Continuation,
        id: TreeId,
        env: EnvId,
    ) -> Result<Focus, EvalRefusal>
        ensures { (p : Parsed) (F : Waiting) (x : Tree) (E : Env) → ShowsContinuation (world p self.old) continuation F → ShowsTree (world p self.old) id x
            → ShowsEnv (world p self.old) env E
            → Steps p self.old self.new result (λ Fs s. Running (Visit x E) (F ∷ Fs) s) }
    {
        self.continuations.push(continuation)?;
        Ok(Focus::Visit { id, env })
    }

    /// Calls a name, and has this wait for it.
    pub fn wait_for_name(
        &mut self,
        continuation: Continuation,
        name: u64,
        env: EnvId,
    ) -> Result<Focus, EvalRefusal>
        ensures { (p : Parsed) (F : Waiting) (x : Name) (E : Env) → ShowsContinuation (world p self.old) continuation F → IsNamed (world p self.old) name x
            → ShowsEnv (world p self.old) env E
            → Steps p self.old self.new result (λ Fs s. Running (Call x E) (F ∷ Fs) s) }
    {
        self.continuations.push(continuation)?;
        Ok(Focus::Call { name, env })
    }

    /// Visits a tree among definitions.
    pub fn visit_among(
        &mut self,
        list: TreeId,
        id: TreeId,
        env: EnvId,
    ) -> Result<Focus, EvalRefusal>
        ensures { (p : Parsed) (ds x : Tree) (E : Env) → ShowsTree (world p self.old) list ds → ShowsTree (world p self.old) id x
            → ShowsEnv (world p self.old) env E
            → Steps p self.old self.new result (λ Fs s. Running (Visit x (Scope ds E)) Fs s) }
    {
        let inner = self.scopes.open(list, env)?;
        Ok(Focus::Visit { id, env: inner })
    }

    // Spends a visit. Returns false where none is left.
    fn spend(&mut self) -> bool
        ensures left { MatchBool result (0 < self.old.visits) (self.old.visits ≡ 0) }
        ensures spent { self.new ≡ record self.old { visits = self.old.visits - 1 } }
    {
        if self.visits == 0 {
            return false;
        }
        self.visits -= 1;
        true
    }

    /// Does one step.
    pub fn step(&mut self, text: &Definitions, focus: Focus) -> Result<Focus, EvalRefusal>
        requires { Runs text.now self.old focus }
        ensures { (c : Config) → Goes text.now self.old (Ok focus) c → Goes text.now self.new result (step text.now.tokens c) }
    {
        match focus {
            Focus::Visit { id, env } => {
                if self.spend() {
                    self.visit(text, id, env)
                } else {
                    Err(EvalRefusal::EvalBudget)
                }
            }
            Focus::Call { name, env } => {
                if self.spend() {
                    self.name(text, name, env)
                } else {
                    Err(EvalRefusal::EvalBudget)
                }
            }
            Focus::Give(value) => self.arrive(text, value),
            Focus::Done(value) => Ok(Focus::Done(value)),
        }
    }
    /// Steps from here until the machine is done or refused.
    pub fn run(&mut self, text: &Definitions, first: Focus) -> Result<Value, EvalRefusal>
        requires { Runs text.now self.old first }
        ensures { (o : Outcome Meant) → Continues text.now.tokens text.now self.old (Ok first) o → Ends text.now self.new result o }
    {
        steps_mean(); // For the prover: no step changes what the machine stands for, so it ends with what it stood for at first.
        let mut focus = first;
        'stepping: for _ in 0..u64::MAX {
            match self.step(text, focus) {
                Ok(Focus::Done(value)) => return Ok(value),
                Ok(next) => focus = next,
                Err(refusal) => return Err(refusal),
            }
        }
        Err(EvalRefusal::from(too_many_to_count()))
    }
}
