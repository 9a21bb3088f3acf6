// An input whose head was read.

use fv_pcm::Coding;

/// What the head of an input says, of either kind.
#[derive(Clone, Copy)]
pub struct Incoming {
    /// How its samples are stored.
    pub coding: Coding,
    /// How many samples a frame has.
    pub channels: u32,
    /// Frames a second.
    pub rate: u32,
    /// Bits of a sample.
    pub bits: u32,
    /// Bytes of samples, as the head states them; or as they are, where it does not.
    pub data_bytes: u32,
    /// Whether the samples go up to the file's end, since their size is not stated.
    pub is_open: bool,
    /// Bytes of the file before the samples.
    pub place: u64,
}
