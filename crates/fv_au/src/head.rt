// What the head of an AU file says.

/// What the head of an AU file says.
#[derive(Clone, Copy, PartialEq, Eq, Debug)]
pub struct AuHead {
    /// How many samples a frame has.
    pub channels: u32,
    /// Frames a second.
    pub rate: u32,
    /// Bits of a sample.
    pub bits: u32,
    /// Bytes of samples, if the head states them.
    pub data_bytes: Option<u32>,
    /// Bytes of the file before the samples.
    pub offset: u32,
}
