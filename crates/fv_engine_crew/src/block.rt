// What a block that is spread over workers is of.

use fv_engine_codes::{CellPlaces, LaneCount};
use fv_graph::Tasks;
use fv_lines::LaneShape;
use fv_loopcode_machine::Code;
use fv_split_plan::Plan;

/// What a block that is spread over workers is of.
#[derive(Drop)]
pub struct SpreadBlock<'b> {
    /// The plan that the block is of.
    pub plan: &'b Plan,
    /// The plan's tasks for the block's vectors.
    pub tasks: &'b Tasks,
    /// By loop: its code over the lanes that it sees.
    pub codes: &'b [Code],
    /// By loop: how many lanes it has, and how many it sees.
    pub counts: &'b [LaneCount],
    /// By cells: the place among those of its loop.
    pub places: &'b CellPlaces,
    /// By lane: its shape.
    pub shapes: &'b [LaneShape],
    /// The held values, by their numbers.
    pub held: &'b [i32],
    /// The input: `frames` frames of `channels` numbers, one after another.
    pub input: &'b [i32],
    /// How many numbers a frame of the input has.
    pub channels: u64,
    /// How many frames a vector has.
    pub vector: u32,
    /// How many frames the block has.
    pub frames: u32,
    /// How many workers run the tasks.
    pub workers: u32,
}
