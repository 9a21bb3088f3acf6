// What determines a block.

use fv_engine_codes::CellPlaces;
use fv_graph::Tasks;
use fv_lines::LaneWriter;
use fv_split_plan::Plan;
use std::snapshot::Snapshot;

/// What determines a block.
#[derive(Drop)]
pub struct Start<'a, 'b> {
    /// The plan that the block is of.
    pub plan: &'b Plan,
    /// The plan's tasks for the block's vectors.
    pub tasks: &'b Tasks,
    /// By cells: the place among those of its loop.
    pub places: &'b CellPlaces,
    /// The held values, by their numbers.
    pub held: &'b [i32],
    /// The input: frames of `channels` numbers, one after another.
    pub input: &'b [i32],
    /// How many numbers a frame of the input has.
    pub channels: u64,
    /// How many frames a vector has.
    pub vector: u32,
    /// How many frames the block has.
    pub frames: u32,
    /// The lanes as they were begun, for contracts alone.
    pub lanes: Snapshot<Vec<LaneWriter<'a>>>,
    /// The items of the cells as the block began, for contracts alone.
    pub cells: Snapshot<Vec<Vec<i32>>>,
}
