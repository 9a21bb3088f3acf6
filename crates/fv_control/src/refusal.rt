// Why a script is refused.

ghost use Rattle.std.specs.Prelude.{◌≡◌};
ghost use Rattle.fv_control.specs.declared.refusal.ScriptRefusal.TheVariants.{NoMemory};

use fv_base::Role;
use std::alloc::{AllocError, AllocFailed};

/// Why a script is refused. Lines count from 1.
#[derive(Clone, Copy, PartialEq, Eq, Debug)]
pub enum ScriptRefusal {
    /// It has too many bytes.
    TextTooLong { role: Role },
    /// The line is not of the form.
    ControlLine { line: u32 },
    /// No control has the line's label.
    ControlUnknown { line: u32 },
    /// The value is outside the control's range.
    ControlRange { line: u32 },
    /// A line before it has a greater frame.
    ControlOrder { line: u32 },
    /// Memory ran out.
    NoMemory,
}

impl From<AllocError> for ScriptRefusal {
    ghost from_gives = { λ _ e. e ≡ NoMemory };

    fn from(_error: AllocError) -> ScriptRefusal {
        ScriptRefusal::NoMemory
    }
}

impl<T: Drop> From<AllocFailed<T>> for ScriptRefusal {
    ghost from_gives = { λ _ e. e ≡ NoMemory };

    fn from(_failed: AllocFailed<T>) -> ScriptRefusal {
        ScriptRefusal::NoMemory
    }
}
