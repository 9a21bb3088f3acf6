// How much code may name.

/// How many lanes, tables and cells there are.
#[derive(Clone, Copy, PartialEq, Eq, Debug)]
pub struct Counts {
    pub lanes: u64,
    pub tables: u64,
    pub cells: u64,
}
