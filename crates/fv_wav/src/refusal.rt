// Why a WAV file could not be read or written.

ghost use Rattle.std.specs.Prelude.{◌≡◌};
ghost use Rattle.fv_base.specs.declared.role.Role.TheVariants.{Input, Output};
ghost use Rattle.fv_wav.specs.declared.refusal.WaveRefusal.TheVariants.{ReadFault};
ghost use Rattle.fv_wav.specs.declared.refusal.WriteRefusal.TheVariants.{WriteFault};

use fv_outside::{Failed, Role};

/// Why a WAV file could not be read. A place is a number of bytes from the file's first.
#[derive(Clone, Copy, PartialEq, Eq, Debug)]
pub enum WaveRefusal {
    /// The desk counted a fault of the role.
    ReadFault { role: Role },
    /// The file is no RIFF WAVE.
    NotWave { place: u64 },
    /// The file ends before a byte that is needed.
    WaveTruncated { place: u64 },
    /// A rule fails.
    WaveFormat { place: u64 },
    /// Too many chunks stand before the samples.
    WaveChunks { place: u64 },
}

/// Why a WAV file could not be written.
#[derive(Clone, Copy, PartialEq, Eq, Debug)]
pub enum WriteRefusal {
    /// The desk counted a fault of the role.
    WriteFault { role: Role },
}

impl From<Failed> for WaveRefusal {
    ghost from_gives = { λ _ e. e ≡ ReadFault Input };

    fn from(_failed: Failed) -> WaveRefusal {
        WaveRefusal::ReadFault { role: Role::Input }
    }
}

impl From<Failed> for WriteRefusal {
    ghost from_gives = { λ _ e. e ≡ WriteFault Output };

    fn from(_failed: Failed) -> WriteRefusal {
        WriteRefusal::WriteFault { role: Role::Output }
    }
}
