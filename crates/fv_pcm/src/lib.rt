//! Samples as bytes, in the codings of WAV and AU files. Promises the samples of bytes and the bytes of samples, clamped to the width
//! (`decode`, `encode`), and that what was written is read again (`samples_are_read_again`).
#![tactic(auto)]

mod coding;
mod decoder;
mod encoder;
mod laws;
mod reader;

pub use coding::{Coding, frame_size};
pub use decoder::{decode, decoded};
pub use encoder::{data_length, encode};
pub use laws::{sample_is_read_again, samples_are_read_again, samples_follow};
pub use reader::read_samples;
