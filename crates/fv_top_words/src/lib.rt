//! The words of the command line. Promises what they ask for, or the first cause to refuse them (`job_in`).
#![tactic(auto)]

mod cause;
mod command;
mod laws;
mod manner;
mod numbers;
mod run;
mod settings;
mod texts;
mod word;

pub use cause::Cause;
pub use command::{Job, job_in};
pub use laws::{settings_keep_ranges, words_are_cut};
pub use manner::{InputKind, Manner, OutputKind, ProgramKind};
pub use run::Run;
pub use settings::Settings;
