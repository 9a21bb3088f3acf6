//! An input and an output, a WAV or an AU file each, as a tape over a desk: a run hears of one and says to the other, some frames at a
//! time. Promises which frames are heard and written, and where that stops and why.
#![tactic(auto)]

mod file_tape;
mod incoming;
mod samples;

pub use file_tape::{FileTape, OutputHead, Stop};
pub use incoming::Incoming;
