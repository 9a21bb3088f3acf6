//! The tasks of a block and their edges, and the core of a scheduler: which task each worker may run next. Promises each edge once at
//! both ends (`edges_meet`), and that by any legal list of events each task runs once, after all that it reads (`tasks_run_once`).
#![tactic(auto)]

mod begin;
mod by_worker;
mod core_laws;
mod event;
mod groups;
mod laws;
mod lists;
mod replays;
mod sorted;
mod task_core;
mod tasks;

pub use core_laws::{lean_core_follows, tasks_run_once};
pub use event::{Event, Illegal};
pub use laws::{edges_follow_reads, edges_meet};
pub use replays::replay;
pub use task_core::Core;
pub use tasks::Tasks;
