//! AU files: the head and the samples, read and written through a desk. Promises the head, or the first rule that fails and its place
//! (`read_au_head`), exactly the bytes that are written, and that they are read again (`au_written_is_read`).
#![tactic(auto)]

mod ahead;
mod frames;
mod head;
mod input;
mod kept;
mod laws;
mod partial_head;
mod refusal;
mod rest;
mod writer;

pub use ahead::Ahead;
pub use frames::read_au_frames;
pub use fv_wav::WriteRefusal;
pub use head::AuHead;
pub use input::{read_au_head, read_au_head_behind};
pub use laws::{au_ends_at_its_length, au_written_is_read, one_au_outcome};
pub use refusal::AuRefusal;
pub use rest::{read_au_bytes, read_au_rest};
pub use writer::{write_au_frames, write_au_head};
