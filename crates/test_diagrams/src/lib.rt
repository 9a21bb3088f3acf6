//! Diagrams in tests: put by hand, one item after another; made of a program's text; and what one answers on the samples of a sound,
//! frame after frame, by a second way that tests compare with.
#![tactic(auto)]

mod build;
mod item;
mod player;
mod programs;

pub use build::{Build, Unput};
pub use item::{Item, WIRE};
pub use player::{play, play_script};
pub use programs::{program_of, program_with_controls};
