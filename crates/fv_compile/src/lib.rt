//! Several graphs side by side in one. Promises that each output has the values of its own graph (`join`), and that joined graphs are
//! those of diagrams side by side (`joined_propagates`, `parts_answer`).
#![tactic(auto)]

mod graph_copy;
mod job;
mod joined;
mod laws;

pub use job::{Job, can_be_joined};
pub use joined::join;
pub use laws::{
    joined_are_wide, joined_names, joined_propagates, parts_answer, parts_answer_alike,
    parts_are_whole, shifted_answers,
};
