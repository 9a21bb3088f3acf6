//! Graphs of signals: their values, and how often these change. Promises that the values of a graph are the only streams that satisfy
//! its nodes (`solutions_are_values`), and that they stay as the graph grows (`growth_keeps_values`).
#![tactic(auto)]

mod graph;
mod laws;
mod rate;
mod signal;

pub use graph::Graph;
pub use laws::{
    constants_stay, controls_decide, delays_are_clamped, growth_keeps_values, solutions_are_values,
    solutions_are_values_on, values_are_given, values_look_back,
};
pub use rate::Rate;
pub use signal::{Signal, SignalId};
