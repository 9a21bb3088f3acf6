// Lanes and cells of a plan.

/// A lane: the loop that appends it, and how many samples of history it keeps.
#[derive(Clone, Copy, PartialEq, Eq, Debug)]
pub struct LaneInfo {
    pub owner: u64,
    pub history: u64,
}

/// Cells: the loop that writes them, and the table that they begin with.
#[derive(Clone, Copy, PartialEq, Eq, Debug)]
pub struct CellsInfo {
    pub owner: u64,
    pub table: u64,
}
