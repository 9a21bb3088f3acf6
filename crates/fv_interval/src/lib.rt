//! The spans of a diagram's wires, and its delays. Promises the greatest number of each delay, or the first delay that is refused
//! (`spans`), and that no wire leaves its span and no delay its greatest number (`answers_hold`, `delays_hold`).
#![tactic(auto)]

mod controls;
mod delays;
mod laws;
mod refusal;
mod walked;

pub use controls::spans_of;
pub use delays::{Delays, spans};
pub use laws::{answers_hold, delays_hold};
pub use refusal::DelayRefusal;
