// The sizes of a run, and what is counted of it.

ghost use Rattle.std.specs.Prelude.{◌≡◌, ◌+◌, ◌<◌, ◌^◌};

/// The frames of a run, how many of them a block and a vector have at most, and how many workers may run it.
#[derive(Clone, Copy)]
pub struct RunSizes {
    pub frames: u32,
    pub block: u32,
    pub vector: u32,
    pub workers: u32,
}

/// The loops of a plan, and how many numbers a frame of its input and of its output has.
#[derive(Clone, Copy)]
pub(crate) struct PlanSizes {
    pub(crate) loops: u64,
    pub(crate) channels: usize,
    pub(crate) outputs: usize,
}

/// What ran: how many blocks, how many loops the plan has (0 where there was no block), and how often a loop ran over a vector.
#[derive(Clone, Copy, PartialEq, Eq, Debug)]
pub struct Ran {
    pub blocks: u64,
    pub loops: u64,
    pub loop_runs: u128,
}

impl Ran {
    /// What ran, with one block more, in which `tasks` tasks of this plan ran.
    pub(crate) fn and_block(self, plan: &PlanSizes, tasks: u64) -> Ran
        requires blocks { self.blocks + 1 < 2 ^ 64 }
        requires runs { self.loop_runs + tasks < 2 ^ 128 }
        ensures { result ≡ record { blocks = self.blocks + 1; loops = plan.now.loops; loop_runs = self.loop_runs + tasks } }
    {
        Ran {
            blocks: self.blocks + 1,
            loops: plan.loops,
            loop_runs: self.loop_runs + u128::from(tasks),
        }
    }
}
