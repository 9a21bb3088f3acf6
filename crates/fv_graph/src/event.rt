// What workers do.

/// What one worker does.
#[derive(Clone, Copy, PartialEq, Eq, Debug)]
pub enum Event {
    /// The worker takes the task at the back of its deque, and runs it.
    Take { worker: u32, task: u64 },
    /// The thief takes the task at the front of the victim's deque, and runs it.
    Steal { thief: u32, victim: u32, task: u64 },
    /// The worker has run the task, and owes the inner edges out of it.
    Finish { worker: u32, task: u64 },
    /// The worker gives an edge that it owes, and the edge's reader waits for one task fewer.
    Arrive { worker: u32, edge: u64 },
    /// The worker has nothing left to do.
    Leave { worker: u32 },
}

/// The core has no such event in its state.
#[derive(Clone, Copy, PartialEq, Eq, Debug)]
pub struct Illegal;
