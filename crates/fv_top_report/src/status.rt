// How a run ends.

ghost use Rattle.std.specs.Prelude.{◌≡◌};
ghost use Rattle.fv_top_report.specs.Lines.{exit_status};

use crate::refusal::Refusal;

/// How a run ended.
#[derive(Drop)]
pub enum Status {
    Done(Tally),
    Refused(Refusal),
}

/// What a run did.
#[derive(Clone, Copy, PartialEq, Eq, Debug)]
pub struct Tally {
    /// The number of frames that were written, or played of a program that was made.
    pub frames: u32,
    /// The number of blocks.
    pub blocks: u64,
    /// The number of loops of the program, 0 where there is no block.
    pub loops: u64,
    /// How many times a loop ran over a vector.
    pub loop_runs: u128,
}

impl Status {
    /// The exit status.
    pub fn code(&self) -> u8
        ensures { result ≡ exit_status self.now }
    {
        match self {
            Status::Done(_) => 0,
            Status::Refused(refusal) => refusal.status(),
        }
    }
}
