//! Which signals of a graph have lanes, which loops these form, and in which loop each signal is computed. Promises what `split` needs
//! of them (`assign_lanes`).
#![tactic(auto)]

mod home;
mod lanes;
mod mark;
mod rank;
mod reader;
mod rows;

pub use lanes::{Lanes, assign_lanes};
