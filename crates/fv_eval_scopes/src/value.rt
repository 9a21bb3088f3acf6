// Values, environments and bindings, as numbers of an evaluation's lists. Nothing of a tree is copied.

use fv_diagram::DiagramId;
use fv_parse::TreeId;
use std::marker::Model;

/// The number that `Scopes` gave an environment.
#[derive(Clone, Copy, Debug)]
pub struct EnvId(u64);

impl Model for EnvId {
    ghost use Rattle.std.specs.Prelude.{ℕ};

    ghost Value = { ℕ };

    ghost view = { λ e. e.0 };

    ghost inverse = { λ n. record { 0 = n } };
}

impl EnvId {
    ghost use Rattle.std.specs.Prelude.{◌≡◌};

    /// The id with this number.
    pub fn new(number: u64) -> EnvId
        ensures { result ≡ number }
    {
        EnvId(number)
    }

    /// Its number.
    pub fn number(self) -> u64
        ensures { result ≡ self }
    {
        self.0
    }
}

/// Where rules stand.
#[derive(Clone, Copy, Debug)]
pub enum Ruled {
    /// The node of a `case`.
    Case(TreeId),
    /// A list of definitions, and the first definition of the name in it.
    Definitions { list: TreeId, first: TreeId },
}

/// A value. An argument that rules have taken has the number that `Scopes` gave it.
#[derive(Clone, Copy, Debug)]
pub enum Value {
    Diagram(DiagramId),
    /// The node of an abstraction or of a definition, how many of its parameters are bound, and the environment.
    Abstraction {
        node: TreeId,
        bound: u64,
        env: EnvId,
    },
    /// The rules, the environment, how many arguments they have taken, and the number of the last one.
    Rules {
        ruled: Ruled,
        env: EnvId,
        count: u64,
        last: u64,
    },
}

/// The innermost scope of an environment, and the environment around it.
#[derive(Clone, Copy, Debug)]
pub enum Scope {
    /// A name, by its canonical number, and what it is bound to.
    Bound {
        name: u64,
        value: Value,
        outer: EnvId,
    },
    /// A list of definitions.
    Definitions {
        list: TreeId,
        outer: EnvId,
    },
    /// A parameter of an abstraction or of a definition, by its node and its index there, and the slot that it is bound to. A kept
    /// scope stands for the parameters after it too, which are bound to the next slots.
    Slots {
        node: TreeId,
        parameter: u64,
        slot: u64,
        outer: EnvId,
    },
}

/// An argument that rules have taken, and the number of the one before it.
#[derive(Clone, Copy, Debug)]
pub struct Argument {
    pub value: Value,
    pub before: u64,
}

/// A name, by its canonical number, and what it is bound to.
#[derive(Clone, Copy, Debug)]
pub struct Binding {
    pub name: u64,
    pub value: Value,
}

/// What a name stands for.
#[derive(Clone, Copy, Debug)]
pub enum Meaning {
    /// A value that is known: what the name is bound to, an abstraction, or rules.
    Known(Value),
    /// The right side of a definition, and the environment that it stands in.
    Body { body: TreeId, env: EnvId },
    /// A slot.
    Slot(u64),
    /// Nothing defines or binds it.
    Unknown,
}
