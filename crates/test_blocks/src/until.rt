// Gates that hold tasks until others come.

use fv_outside::{Gate, Line, Reads, Task};
use std::sync::atomic::{AtomicU64, Ordering};
use std::thread;

// After this many looks a gate notes a miss and lets the task run.
const LOOKS: u64 = 100_000_000;

// Looks until something is seen. Whether it was.
fn waits(seen: &AtomicU64) -> bool {
    for _look in 0..LOOKS {
        if seen.load(Ordering::SeqCst) != 0 {
            return true;
        }
        thread::yield_now();
    }
    false
}

/// Holds the tasks of a loop until one of another loop is about to run.
#[derive(Drop)]
pub struct Until {
    held: u64,
    awaited: u64,
    seen: AtomicU64,
    misses: AtomicU64,
}

impl Until {
    /// Holds the tasks of the loop `held` until one of the loop `awaited` comes.
    pub fn new(held: u64, awaited: u64) -> Until {
        Until {
            held,
            awaited,
            seen: AtomicU64::new(0),
            misses: AtomicU64::new(0),
        }
    }

    /// Whether a task ran before its time, since the other one did not come.
    pub fn missed(&self) -> bool {
        self.misses.load(Ordering::SeqCst) != 0
    }
}

impl Gate for Until {
    ghost use Rattle.std.specs.Prelude.{None};

    ghost told = { λ _. None };

    fn at(&self, _worker: u32, task: Task) {
        if task.loop_no == self.awaited {
            self.seen.store(1, Ordering::SeqCst);
        }
        if task.loop_no == self.held && !waits(&self.seen) {
            self.misses.store(1, Ordering::SeqCst);
        }
    }

    fn block_done(&mut self, _loops: u64, _vectors: u32, _reads: &[Reads], _lines: &[Line]) {}
}

/// Holds the tasks of each of two loops until one of the other is about to run: without a miss two of them ran at once.
#[derive(Drop)]
pub struct Meeting {
    // The number of one of the two loops.
    one: u64,
    // The number of the other loop.
    other: u64,
    // 1 once a task of the one loop is about to run, else 0.
    seen_one: AtomicU64,
    // 1 once a task of the other loop is about to run, else 0.
    seen_other: AtomicU64,
    // 1 once a task ran without having met one of the other loop, else 0.
    misses: AtomicU64,
}

impl Meeting {
    /// Holds the tasks of these loops for one another.
    pub fn new(one: u64, other: u64) -> Meeting {
        Meeting {
            one,
            other,
            seen_one: AtomicU64::new(0),
            seen_other: AtomicU64::new(0),
            misses: AtomicU64::new(0),
        }
    }

    /// Whether a task ran before its time, since the other one did not come.
    pub fn missed(&self) -> bool {
        self.misses.load(Ordering::SeqCst) != 0
    }
}

impl Gate for Meeting {
    ghost use Rattle.std.specs.Prelude.{None};

    ghost told = { λ _. None };

    fn at(&self, _worker: u32, task: Task) {
        if task.loop_no == self.one {
            self.seen_one.store(1, Ordering::SeqCst);
            if !waits(&self.seen_other) {
                self.misses.store(1, Ordering::SeqCst);
            }
        }
        if task.loop_no == self.other {
            self.seen_other.store(1, Ordering::SeqCst);
            if !waits(&self.seen_one) {
                self.misses.store(1, Ordering::SeqCst);
            }
        }
    }

    fn block_done(&mut self, _loops: u64, _vectors: u32, _reads: &[Reads], _lines: &[Line]) {}
}
