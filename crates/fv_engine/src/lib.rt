//! The engine: blocks of a plan over one region, by one worker or by several. Promises that the output of each block is that of the
//! next frames, and one entry for the gate (`Engine::run_block`).
#![tactic(auto)]

mod alone;
mod crew;
mod crew_codes;
mod crew_size;
mod engine;
mod error;
mod hold;
mod kept;
mod lane_store;
mod lanes;
mod laws;
mod make;
mod over;
mod plan_codes;
mod runner;
mod sizes;

pub use engine::{BlockReport, Engine};
pub use error::NoMemory;
pub use laws::stands_alike;
