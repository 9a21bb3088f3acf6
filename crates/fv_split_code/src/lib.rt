//! The code of the loops of a graph and of its held values, signal by signal. Promises that each code obeys the streams of its signals
//! (`codes`, `held_code`).
#![tactic(auto)]

mod emit;
mod held;
mod kind;
mod operand;
mod survey;

pub use emit::codes;
pub use held::{HeldValues, held_code};
pub use kind::Kind;
pub use survey::Survey;
