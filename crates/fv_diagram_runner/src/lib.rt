//! The plain runner of diagrams, frame after frame and wire by wire, which tables ask and tests compare with. Promises that each step
//! gives the next frame of what the stream function answers (`Stepper::step`).
#![tactic(auto)]

mod draft;
mod history;
mod step;
mod stepper;

pub use stepper::Stepper;
