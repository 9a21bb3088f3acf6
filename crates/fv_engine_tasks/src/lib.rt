//! The tasks of a block, run one after another by one worker, over any plan, lanes and gate. Promises that each runs once, after all
//! that it reads, and an ordered journal (`run_tasks`).
#![tactic(auto)]

mod codes;
mod outputs;
mod turns;

pub use codes::Codes;
pub use outputs::copy_outputs;
pub use turns::{Job, run_tasks};
