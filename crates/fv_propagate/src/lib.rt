//! From diagrams to graphs of signals. Promises a graph whose outputs are the diagram's at every sample, in which no signal occurs
//! twice and no delay is longer than the spans say (`propagate`).
#![tactic(auto)]

mod progress;
mod propagated;

pub use propagated::propagate;
