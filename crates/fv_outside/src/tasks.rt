// The plain data of the tasks of a block.

/// A task: one loop over one vector.
#[derive(Clone, Copy, PartialEq, Eq, Debug)]
pub struct Task {
    /// The loop's number.
    pub loop_no: u64,
    /// The vector's number in its block.
    pub vector: u32,
}

/// Loop `reader` reads lanes of loop `source`.
#[derive(Clone, Copy, PartialEq, Eq, Debug)]
pub struct Reads {
    pub reader: u64,
    pub source: u64,
}
