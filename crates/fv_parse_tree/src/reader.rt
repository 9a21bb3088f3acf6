// What is left to read, and what was read.

ghost use Rattle.std.specs.Prelude.{◌≡◌};
ghost use Rattle.fv_parse_tree.specs.declared.reader.Stop.TheVariants.{NoMemory};

use crate::arena::Arena;
use fv_lex::Symbol;
use std::alloc::{AllocError, AllocFailed, Global};

/// Why reading stopped.
#[derive(Debug, Drop)]
pub(crate) enum Stop {
    /// Memory ran out.
    NoMemory,
    /// The first of the symbols that are left fits into no production there.
    Syntax,
}

impl From<AllocError> for Stop {
    ghost from_gives = { λ _ e. e ≡ NoMemory };

    fn from(_e: AllocError) -> Stop {
        Stop::NoMemory
    }
}

impl<T: Drop> From<AllocFailed<T>> for Stop {
    ghost from_gives = { λ _ e. e ≡ NoMemory };

    fn from(_e: AllocFailed<T>) -> Stop {
        Stop::NoMemory
    }
}

/// The symbols that are left.
#[derive(Drop)]
pub(crate) struct Symbols<'a> {
    pub(crate) rest: &'a [Symbol],
}

/// What reads: the nodes that were read, and the symbols that are left.
#[derive(Drop)]
pub(crate) struct Reader<'a> {
    pub(crate) arena: Arena,
    pub(crate) alloc: Global,
    pub(crate) symbols: Symbols<'a>,
}
