//! What a run is handed from outside: a desk with its files, a gate that is told of each block, and tapes, from which a run hears its
//! frames and to which it says them. Promises that `MemoryDesk` and `FileDesk` keep the contract of `Desk`, that `Recorder` keeps that
//! of `Gate`, and that each loop over reads and writes ends.
#![tactic(auto)]

mod counts;
mod desk;
mod drawer;
mod file_desk;
mod gate;
mod memory_desk;
mod recorder;
mod requests;
mod tape;
mod tasks;
mod transfer;

pub use desk::{Desk, Failed};
pub use file_desk::FileDesk;
pub use fv_base::{Role, Word};
pub use gate::{FreeGate, Gate, Line};
pub use memory_desk::MemoryDesk;
pub use recorder::Recorder;
pub use tape::Tape;
pub use tasks::{Reads, Task};
pub use transfer::{ReadError, fill, read_up_to, skip, write_all, write_pieces};
