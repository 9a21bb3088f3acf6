// Pending work, and what is done next.

ghost use Rattle.std.specs.Prelude.{◌≡◌, ◌++◌, ◌∷◌, [], MatchOption, OnOk, OnErr};

use fv_diagram::DiagramId;
use fv_eval_scopes::{EnvId, Value};
use fv_parse::TreeId;
use fv_parse_grammar::{Operator, Side};
use std::alloc::{AllocError, Global};
use std::marker::Model;

/// What waits for a value.
#[derive(Drop)]
pub enum ForValue {
    /// An application, whose function comes next, and the environment of its arguments.
    Function {
        apply: TreeId,
        env: EnvId,
    },
    /// An application, whose next argument comes: its function, its environment, and the arguments that are done.
    Argument {
        apply: TreeId,
        function: Value,
        env: EnvId,
        done: Vec<Value>,
    },
    /// Arguments that an application has left, from this index on.
    Leftover {
        apply: TreeId,
        arguments: Vec<Value>,
        next: u64,
    },
    /// A slider, whose next parameter comes: the environment, and the numbers that are done.
    Parameter {
        slider: TreeId,
        env: EnvId,
        done: Vec<i32>,
    },
}

/// What waits for a diagram.
#[derive(Drop)]
pub enum ForDiagram {
    /// A node of two parts, whose left one comes.
    Left {
        binary: TreeId,
        env: EnvId,
    },
    /// The right part comes, after the left one.
    Right {
        operator: Operator,
        left: DiagramId,
    },
    /// `'`
    Later,
    /// `-` before a name.
    Negated,
    Ports(Side),
    /// A body, around which `slots` slots from `slot` on are bound.
    Binding {
        slot: u64,
        slots: u64,
    },
    /// A diagram, whose next argument comes: all its arguments, the index of the one after the next, and those that are done.
    Turning {
        function: DiagramId,
        arguments: Vec<Value>,
        next: u64,
        done: Vec<DiagramId>,
    },
    /// An iteration, whose count comes.
    Counting {
        iteration: TreeId,
        env: EnvId,
    },
    /// An iteration, whose next body comes: how many are left after it, and those that are done.
    Body {
        iteration: TreeId,
        env: EnvId,
        left: u64,
        done: Vec<DiagramId>,
    },
    /// The whole program's diagram.
    Finish,
}

/// What waits.
#[derive(Drop)]
pub enum Continuation {
    Valued(ForValue),
    Drawn(ForDiagram),
}

/// What is done next. An environment is a number of `Scopes`, a name a canonical number.
#[derive(Clone, Copy)]
pub enum Focus {
    Visit { id: TreeId, env: EnvId },
    Call { name: u64, env: EnvId },
    Give(Value),
    Done(Value),
}

/// What waits, the innermost last.
#[derive(Drop)]
pub struct Continuations {
    list: Vec<Continuation>,
}

impl Model for Continuations {
    ghost use Rattle.std.specs.Prelude.{List};
    ghost use Rattle.fv_eval.specs.declared.continuation.Continuation.{Continuation};

    ghost Value = { List Continuation };

    ghost view = { λ f. f.list.items };
}

impl Continuations {
    /// Nothing waits.
    pub fn new(alloc: Global) -> Continuations
        ensures { result ≡ [] }
    {
        Continuations {
            list: Vec::new(alloc),
        }
    }

    /// Adds one as the innermost.
    pub fn push(&mut self, continuation: Continuation) -> Result<(), AllocError>
        ensures ok { OnOk result (self.new ≡ self.old ++ continuation ∷ []) }
        ensures err { OnErr result (self.new ≡ self.old) }
    {
        let _within: Option<(Value, ForValue, ForDiagram)> = None;
        self.list.push(continuation)?;
        Ok(())
    }

    /// Takes the innermost one; `None` where nothing waits.
    pub fn pop(&mut self) -> Option<Continuation>
        ensures { MatchOption result (self.old ≡ []) (λ f. self.old ≡ self.new ++ f ∷ []) }
    {
        let _within: Option<(Value, ForValue, ForDiagram)> = None;
        self.list.pop()
    }
}
