//! Files of jobs: the texts of programs that run side by side, and the labels of their controls. Promises the texts between the
//! separators, or why there are none (`Jobs::read`), and that each job hears exactly its own changes (`jobs_hear_their_changes`).
#![tactic(auto)]

mod control_laws;
mod cut_lines;
mod jobs;
mod labels;
mod laws;
mod refusal;

pub use control_laws::{changes_are_lawful, jobs_hear_their_changes, labels_are_of_jobs};
pub use jobs::Jobs;
pub use labels::append_controls;
pub use laws::{front_is_enough, jobs_are_between};
pub use refusal::JobsRefusal;
