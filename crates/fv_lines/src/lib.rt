//! Lanes over the parts of a region, which only grow, and the items of tables that are written. Promises that a lane holds the samples
//! that were appended, as far back as its history goes, and that what was seen of a lane stays.
#![tactic(auto)]

mod begin;
mod begun_lane;
mod flat;
mod items;
mod lane_ends;
mod row;
mod seen;
mod shape;
mod solo;
mod writer;

pub use begin::begin_lanes;
pub use begun_lane::BegunLane;
pub use items::{exchange, item};
pub use lane_ends::{end_lanes, stop_lanes};
pub use seen::Seen;
pub use shape::{LaneShape, LaneState};
pub use solo::Solo;
pub use writer::LaneWriter;
