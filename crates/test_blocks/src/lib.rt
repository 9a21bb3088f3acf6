//! Blocks by several workers, for tests: notes go over the edges, plans are made at random, and journals are looked through. And gates:
//! one that counts, those that hold tasks until others come, and what a recorder was told.
#![tactic(auto)]

mod block;
mod counter;
mod journal;
mod notes;
mod plans;
mod told;
mod until;

pub use block::{Finished, ran};
pub use counter::Counter;
pub use journal::is_ordered;
pub use notes::Note;
pub use plans::{random_tasks, tasks_with};
pub use told::block_of;
pub use until::{Meeting, Until};
