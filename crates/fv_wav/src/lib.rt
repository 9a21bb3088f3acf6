//! WAV files: the head and the samples, read and written through a desk. Promises the head, or the first rule that fails and its place
//! (`read_head`), exactly the bytes that are written, and that they are read again (`written_is_read`).
#![tactic(auto)]

mod chunks;
mod format;
mod frames;
mod head;
mod input;
mod laws;
mod refusal;
mod writer;

pub use chunks::{read_head, read_head_behind};
pub use frames::{decode, read_frames};
pub use fv_pcm::data_length;
pub use head::Head;
pub use laws::{ends_at_its_length, one_outcome, samples_follow, written_is_read};
pub use refusal::{WaveRefusal, WriteRefusal};
pub use writer::{write_frames, write_head, write_pad};
