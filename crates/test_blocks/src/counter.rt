// A gate that counts.

use fv_outside::{Gate, Line, Reads, Task};
use std::sync::atomic::{AtomicU64, Ordering};

/// Counts the tasks that are about to run, and tells nothing.
#[derive(Drop)]
pub struct Counter {
    tasks: AtomicU64,
}

impl Counter {
    /// Before the first task.
    pub fn new() -> Counter {
        Counter {
            tasks: AtomicU64::new(0),
        }
    }

    /// How many tasks it saw.
    pub fn tasks(&self) -> u64 {
        self.tasks.load(Ordering::SeqCst)
    }
}

impl Gate for Counter {
    ghost use Rattle.std.specs.Prelude.{None};

    ghost told = { λ _. None };

    fn at(&self, _worker: u32, _task: Task) {
        self.tasks.fetch_add(1, Ordering::SeqCst);
    }

    fn block_done(&mut self, _loops: u64, _vectors: u32, _reads: &[Reads], _lines: &[Line]) {}
}
