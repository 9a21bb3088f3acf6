//! The rules of evaluation: what a program's text means as a block diagram, and the machine that means the same, as definitions.
//! Promises that more visits change no result (`evaluation_follows`), that no step of the machine changes what it stands for
//! (`steps_mean`), and that every program that evaluates can run (`evaluates_to_runnables`).
#![tactic(auto)]

mod laws;
mod literals;
mod machine_laws;
mod put_diagram;
mod refusal;

pub use laws::{evaluates_to_runnables, evaluation_follows, literals_stay};
pub use literals::{literal, literal_value, negative_literal};
pub use machine_laws::steps_mean;
pub use put_diagram::put;
pub use refusal::{EvalRefusal, TableCause, too_many_to_count, too_many_to_keep};
