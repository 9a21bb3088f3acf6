// Why tokens are no program.

ghost use Rattle.std.specs.Prelude.{◌≡◌};
ghost use Rattle.fv_parse.specs.declared.refusal.ParseRefusal.TheVariants.{NoMemory};

use fv_base::Word;
use std::alloc::AllocError;

/// Why tokens are no program. Lines and columns count from 1, and a column is one byte.
#[derive(Debug, Drop)]
pub enum ParseRefusal {
    /// The tokens before this place begin some program, and with the token there none.
    Syntax { line: u32, column: u32 },
    /// The first token that is not supported.
    Unsupported { word: Word },
    /// One list has two definitions of a name that are not both by patterns.
    Redefined { name: Word },
    /// The parameters of a definition, or all patterns of a rule together, have a name more than once.
    RepeatedName { name: Word },
    /// The first rule of a case has more or fewer patterns than the one there.
    RuleWidths { line: u32, column: u32 },
    /// No outermost definition is of `process`.
    NoProcess,
    /// Memory ran out.
    NoMemory,
}

impl From<AllocError> for ParseRefusal {
    ghost from_gives = { λ _ e. e ≡ NoMemory };

    fn from(_e: AllocError) -> ParseRefusal {
        ParseRefusal::NoMemory
    }
}
