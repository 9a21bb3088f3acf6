// The trait of what is told of each block.

ghost use Rattle.std.specs.Prelude.{◌≡◌, ◌++◌, ◌∷◌, [], Option, None, Some, IsSome, IfSome};
ghost use Rattle.fv_outside.specs.headline.Journal.{BlockEntry, Told};
ghost use Rattle.fv_outside.specs.Journal.{HasRoom, room_after};

use crate::tasks::{Reads, Task};

/// A line of a block's journal: who ran a task, and the stamps of its start and its finish.
#[derive(Clone, Copy, PartialEq, Eq, Debug)]
pub struct Line {
    pub task: Task,
    pub worker: u32,
    pub start: u64,
    pub finish: u64,
}

/// Sees each task before it runs, and is told of each block after it.
pub trait Gate {
    /// The blocks that it was told of and its room, where it tells them.
    ghost told: { Self → Option Told };

    /// The worker is about to run the task. Called once for each task.
    fn at(&self, worker: u32, task: Task);

    /// Tells that a block is done: how many loops ran over how many vectors, and which loop reads from which. `lines` has one line
    /// for each task that ran, the earliest first.
    fn block_done(&mut self, loops: u64, vectors: u32, reads: &[Reads], lines: &[Line])
        // Where the entry is within the room, it is still told afterwards.
        ensures within { IfSome (told self.old) (λ t.
            HasRoom t.room (record { tasks = record { loops = loops; vectors = vectors; reads = reads.now }; lines = lines.now }) →
            IsSome (told self.new)) }
        // Where it is told afterwards, the call is its one new entry.
        ensures entry { IfSome (told self.new) (λ t. (before : Told) × (told self.old ≡ Some before)
            × (t.entries ≡ before.entries ++ record { tasks = record { loops = loops; vectors = vectors; reads = reads.now }; lines = lines.now } ∷ [])
            × (t.room ≡ room_after before.room (record { tasks = record { loops = loops; vectors = vectors; reads = reads.now }; lines = lines.now }))) };
}

/// A gate that does nothing and tells nothing.
#[derive(Clone, Copy, PartialEq, Eq, Debug)]
pub struct FreeGate;

impl Gate for FreeGate {
    ghost told = { λ _. None };

    fn at(&self, _worker: u32, _task: Task) {}

    fn block_done(&mut self, _loops: u64, _vectors: u32, _reads: &[Reads], _lines: &[Line]) {}
}
