//! The code of loops, and the plain loop that runs it sample by sample. Promises what a run leaves in registers and lanes (`run`), that
//! a task of a code that obeys streams leaves these streams (`tasks_are_done`), and that any order of tasks does, in which each comes
//! after what it reads (`order_is_free`).
#![tactic(auto)]

mod act;
mod counts;
mod laws;
mod machine;
mod operate;
mod sample;
mod step;
mod store;
mod valid;

pub use counts::Counts;
pub use laws::{
    named_alone_count, order_is_free, still_code_is_free, streams_obey, task_is_free,
    tasks_are_done, windows_follow,
};
pub use machine::run;
pub use step::Step;
pub use store::Store;
pub use valid::are_valid;
