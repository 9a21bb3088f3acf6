//! Puts together the diagrams that an evaluation makes, and keeps its controls in the order of their first evaluation. Promises that
//! what is put is what the rules say (`makes`), and that each label is one control (`enter`).
#![tactic(auto)]

mod application;
mod controls;
mod diagrams;
mod labels;
mod lists;
mod pairs;
mod recent;
mod tables;
mod wires;

pub use controls::{Controls, Range};
pub use diagrams::Drawing;
pub use labels::Labels;
pub use lists::Link;
