// The sizes of an engine.

/// The sizes of an engine: how many numbers a frame of the input has, and how many workers are asked for. Then how many frames a
/// block and a vector have at most.
#[derive(Clone, Copy)]
pub(crate) struct Sizes {
    pub(crate) channels: u32,
    pub(crate) workers: u32,
    pub(crate) block: u32,
    pub(crate) vector: u32,
}
