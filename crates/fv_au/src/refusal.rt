// Why an AU file could not be read.

ghost use Rattle.std.specs.Prelude.{◌≡◌};
ghost use Rattle.fv_base.specs.declared.role.Role.TheVariants.{Input};
ghost use Rattle.fv_au.specs.declared.refusal.AuRefusal.TheVariants.{ReadFault, NoMemory};
ghost use Rattle.fv_au.specs.Stopping.{refusal_of_read};

use fv_outside::{Failed, ReadError, Role};
use std::alloc::AllocError;

/// Why an AU file could not be read. A place is a number of bytes from the file's first.
#[derive(Clone, Copy, PartialEq, Eq, Debug)]
pub enum AuRefusal {
    /// The desk counted a fault of the role.
    ReadFault { role: Role },
    /// A rule fails.
    AuFormat { place: u64 },
    /// The file ends before a byte that is needed.
    AuTruncated { place: u64 },
    /// There is no memory for the samples.
    NoMemory,
}

impl From<Failed> for AuRefusal {
    ghost from_gives = { λ _ e. e ≡ ReadFault Input };

    fn from(_failed: Failed) -> AuRefusal {
        AuRefusal::ReadFault { role: Role::Input }
    }
}

impl From<ReadError> for AuRefusal {
    ghost from_gives = { λ error e. e ≡ refusal_of_read error };

    fn from(error: ReadError) -> AuRefusal {
        match error {
            ReadError::Failed => AuRefusal::ReadFault { role: Role::Input },
            ReadError::NoMemory => AuRefusal::NoMemory,
        }
    }
}

impl From<AllocError> for AuRefusal {
    ghost from_gives = { λ _ e. e ≡ NoMemory };

    fn from(_error: AllocError) -> AuRefusal {
        AuRefusal::NoMemory
    }
}
