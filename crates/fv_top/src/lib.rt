//! Runs a program: the stages of a run, and the one call that does all that the command does. Promises the headline, clause by clause
//! in `docs/PROMISES.md` (`run_faustvec`).
#![tactic(auto)]

mod check;
mod make;
mod play;
mod prepare;
mod program;
mod run;
mod script;
mod tape;

pub use fv_top_program::{jobs_answer, one_file, one_program};
pub use fv_top_report::{Cause, Refusal, Status, Tally};
pub use run::run_faustvec;
