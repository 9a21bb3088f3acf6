// What a lane is for one worker while a block runs.

use crate::shape::LaneShape;

/// A lane that a block has begun.
#[derive(Clone, Copy, Drop)]
pub struct BegunLane {
    pub shape: LaneShape,
    /// The cell where its part begins.
    pub place: u64,
    /// The number of cells of its part before the block's first sample.
    pub origin: u64,
    /// The number of the block's samples that it has.
    pub written: u32,
}

impl BegunLane {
    /// What stands for a lane before its first block.
    pub fn blank() -> BegunLane {
        BegunLane {
            shape: LaneShape::new(0, 1),
            place: 0,
            origin: 0,
            written: 0,
        }
    }
}
