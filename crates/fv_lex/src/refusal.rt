// Why a text has no tokens.

ghost use Rattle.std.specs.Prelude.{◌≡◌};
ghost use Rattle.fv_lex.specs.declared.refusal.LexRefusal.TheVariants.{NoMemory};
ghost use Rattle.fv_lex.specs.headline.Cuts.{refusal_at};

use crate::token::Place;
use fv_base::Role;
use std::alloc::{AllocError, AllocFailed};

/// Why a text has no tokens. Lines and columns count from 1, and a column is one byte.
#[derive(Clone, Copy, PartialEq, Eq, Debug)]
pub enum LexRefusal {
    /// The text has more than 1,048,576 bytes.
    TextTooLong { role: Role },
    /// A byte begins no token.
    BadByte { line: u32, column: u32 },
    /// A comment or a string that begins there does not end.
    Unclosed { line: u32, column: u32 },
    /// A real literal begins there.
    RealLiteral { line: u32, column: u32 },
    /// An integer over 2147483647 begins there.
    LiteralTooLarge { line: u32, column: u32 },
    /// The 129th bracket that is open at once stands there.
    Nesting { line: u32, column: u32 },
    /// Memory ran out.
    NoMemory,
}

/// Why a text can't be cut further, apart from the place.
#[derive(Clone, Copy, PartialEq, Eq, Debug)]
pub(crate) enum Fault {
    BadByte,
    Unclosed,
    RealLiteral,
    LiteralTooLarge,
    Nesting,
}

impl From<AllocError> for LexRefusal {
    ghost from_gives = { λ _ e. e ≡ NoMemory };

    fn from(_e: AllocError) -> LexRefusal {
        LexRefusal::NoMemory
    }
}

impl<T: Drop> From<AllocFailed<T>> for LexRefusal {
    ghost from_gives = { λ _ e. e ≡ NoMemory };

    fn from(_e: AllocFailed<T>) -> LexRefusal {
        LexRefusal::NoMemory
    }
}

pub(crate) fn refusal_at(place: Place, fault: Fault) -> LexRefusal
    ensures { result ≡ refusal_at place fault }
{
    let Place { line, column } = place;
    match fault {
        Fault::BadByte => LexRefusal::BadByte { line, column },
        Fault::Unclosed => LexRefusal::Unclosed { line, column },
        Fault::RealLiteral => LexRefusal::RealLiteral { line, column },
        Fault::LiteralTooLarge => LexRefusal::LiteralTooLarge { line, column },
        Fault::Nesting => LexRefusal::Nesting { line, column },
    }
}
