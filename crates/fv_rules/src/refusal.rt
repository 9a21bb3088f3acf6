// Why a program has no diagram.

ghost use Rattle.std.specs.Prelude.{◌≡◌, alloc_error};
ghost use Rattle.fv_rules.specs.declared.refusal.EvalRefusal.TheVariants.{NoMemory};

use fv_arity::ArityKind;
use fv_base::Word;
use fv_diagram::Label;
use std::alloc::{AllocError, AllocFailed};

/// Why `rdtable` or `rwtable` makes no table.
#[derive(Clone, Copy, PartialEq, Eq, Debug)]
pub enum TableCause {
    /// What stands first does not give a size and numbers and nothing else, or depends on an input, a control or a slot.
    Head,
    /// The size is less than 1.
    Size,
    /// A program's diagram still has one of the two primitives.
    Primitive,
}

/// Why a program has no diagram.
#[derive(Debug, Drop)]
pub enum EvalRefusal {
    /// A diagram would have `size` nodes, counted as a tree.
    SizeBudget {
        size: u32,
    },
    /// A composition's condition does not hold for these numbers of streams.
    Arity {
        kind: ArityKind,
        left: u32,
        right: u32,
    },
    /// Nothing defines or binds this name.
    UnknownName {
        name: Word,
    },
    /// What begins there has no number, and a count or a control's parameter needs one.
    NotANumber {
        line: u32,
        column: u32,
    },
    /// An iteration of less than one turn.
    IterationCount {
        count: i32,
    },
    /// The arguments of the application that begins there fit none of the rules.
    NoRule {
        line: u32,
        column: u32,
    },
    /// A diagram is needed, and the rules that begin there want more arguments.
    NotADiagram {
        line: u32,
        column: u32,
    },
    /// The arguments of a diagram have more outputs than it has inputs.
    TooManyArguments {
        given: u64,
        inputs: u64,
    },
    /// Evaluation takes too many visits.
    EvalBudget,
    /// One label stands for two different controls.
    ControlClash {
        label: Label,
    },
    /// A control's init, min and max do not rise in the order min, init, max.
    ControlBounds {
        label: Label,
    },
    /// What stands before `rdtable` or `rwtable` is no table, or the program still has one of the two.
    TableForm {
        cause: TableCause,
    },
    /// The waveforms and tables of the program would cost `sum` together, which is over the limit.
    TableBudget {
        sum: u64,
    },
    /// Memory ran out.
    NoMemory,
}

/// There is more than an evaluation may keep: a want of memory that is no allocation's.
pub fn too_many_to_keep() -> AllocError
    ensures { result ≡ alloc_error }
{
    AllocError
}

/// There is more of something than its type counts, which no memory holds: a want of memory that is no allocation's.
pub fn too_many_to_count() -> AllocError
    ensures { result ≡ alloc_error }
{
    AllocError
}

impl From<AllocError> for EvalRefusal {
    ghost from_gives = { λ _ e. e ≡ NoMemory };

    fn from(_error: AllocError) -> EvalRefusal {
        EvalRefusal::NoMemory
    }
}

impl<T: Drop> From<AllocFailed<T>> for EvalRefusal {
    ghost from_gives = { λ _ e. e ≡ NoMemory };

    fn from(_error: AllocFailed<T>) -> EvalRefusal {
        EvalRefusal::NoMemory
    }
}
