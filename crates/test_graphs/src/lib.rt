//! Graphs of signals that tests put by hand, and what such graphs give, frame after frame, by a plain runner that tests compare with.
#![tactic(auto)]

mod graphs;
mod runner;
mod table;

pub use graphs::{by_a_control, delayed, difference, echo_left};
pub use runner::{Sound, given, number_at};
pub use table::{Line, graph_of, graph_over};
