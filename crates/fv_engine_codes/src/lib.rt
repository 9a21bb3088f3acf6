//! The codes of a plan's loops, each over the lanes and cells that its loop sees. Promises that a renumbered code does what the plan's
//! code does (`local_codes`, `renumbered_code_obeys`).
#![tactic(auto)]

mod cells;
mod codes;
mod counts;
mod laws;
mod local;
mod loop_cells;
mod loop_lanes;
mod numbers;
mod owners;

pub use cells::place_cells;
pub use codes::local_codes;
pub use counts::{LaneCount, lane_counts};
pub use laws::renumbered_code_obeys;
pub use local::local_code;
pub use loop_cells::{CellPlaces, LoopCells};
pub use loop_lanes::LoopLanes;
