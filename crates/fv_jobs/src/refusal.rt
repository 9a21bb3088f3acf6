// Why a file of jobs is refused.

ghost use Rattle.std.specs.Prelude.{◌≡◌};
ghost use Rattle.fv_jobs.specs.declared.refusal.JobsRefusal.TheVariants.{NoMemory};

use fv_base::Role;
use std::alloc::{AllocError, AllocFailed};

/// Why a file of jobs is refused.
#[derive(Clone, Copy, PartialEq, Eq, Debug)]
pub enum JobsRefusal {
    /// It has too many bytes.
    TextTooLong { role: Role },
    /// It has too many jobs: `jobs` of them.
    RackSize { jobs: u64 },
    /// Memory ran out.
    NoMemory,
}

impl From<AllocError> for JobsRefusal {
    ghost from_gives = { λ _ e. e ≡ NoMemory };

    fn from(_error: AllocError) -> JobsRefusal {
        JobsRefusal::NoMemory
    }
}

impl<T: Drop> From<AllocFailed<T>> for JobsRefusal {
    ghost from_gives = { λ _ e. e ≡ NoMemory };

    fn from(_failed: AllocFailed<T>) -> JobsRefusal {
        JobsRefusal::NoMemory
    }
}
