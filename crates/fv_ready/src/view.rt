// The rule of a scheduler's board: what its words, its edge slots and its seats' lists keep, at every step of any schedule.

ghost use Rattle.std.specs.Prelude.{◌≡◌, ℕ};

use fv_graph::Tasks;
use std::collections::LinkedList;
use std::snapshot::Snapshot;

/// What goes through an edge slot. To contracts it is its edge's number and a key, which no code sees.
pub trait Parcel {
    type Key;

    ghost edge_of: { Self → ℕ };

    ghost key_of: { Self → Self.Key };

    /// The edge that the parcel is of.
    fn edge(&self) -> u64
        ensures { result ≡ edge_of self.now };
}

/// One step of a seat on a word. No value of it is made.
pub enum Deed {
    Stamped {
        number: u64,
        task: u64,
        is_start: bool,
    },
    Arrived {
        edge: u64,
        count: u64,
    },
    Saw {
        task: u64,
        count: u64,
    },
    Claimed {
        task: u64,
        won: bool,
    },
}

/// What a board is told once: its tasks, how many workers there are, and an entry, whose key is the board's.
#[derive(Drop)]
pub struct About<C> {
    pub tasks: Snapshot<Tasks>,
    pub workers: u32,
    pub sample: Snapshot<C>,
}

/// What a seat knows: its board, its numbers, and what it did. No value of it is made. A spent seat has no board.
pub struct View<C> {
    pub board: Option<About<C>>,
    pub numbers: LinkedList<u64>,
    pub deeds: LinkedList<Deed>,
}
