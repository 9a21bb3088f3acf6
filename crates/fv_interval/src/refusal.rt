// Why the delays of a diagram are refused.

ghost use Rattle.std.specs.Prelude.{◌≡◌};
ghost use Rattle.fv_interval.specs.declared.refusal.DelayRefusal.TheVariants.{NoMemory};

use std::alloc::{AllocError, AllocFailed};

/// Why the delays of a diagram are refused.
#[derive(Clone, Copy, PartialEq, Eq, Debug)]
pub enum DelayRefusal {
    /// An `@` may be asked for a negative delay: this is the least number in its span.
    DelayNegative { least: i32 },
    /// An `@` may be asked for a delay above the limit: this is the greatest number in its span.
    DelayTooLong { greatest: i32 },
    /// The sum of all delays is over the limit.
    DelayBudget { sum: u64 },
    /// There is no memory for the walk.
    NoMemory,
}

impl From<AllocError> for DelayRefusal {
    ghost from_gives = { λ _ e. e ≡ NoMemory };

    fn from(_error: AllocError) -> DelayRefusal {
        DelayRefusal::NoMemory
    }
}

impl<T: Drop> From<AllocFailed<T>> for DelayRefusal {
    ghost from_gives = { λ _ e. e ≡ NoMemory };

    fn from(_error: AllocFailed<T>) -> DelayRefusal {
        DelayRefusal::NoMemory
    }
}
