//! The files of a run: the first bytes of a file, the head of an input, and the format of the output. Promises the head or its refusal
//! (`load_head`), and the output's format or why there is none (`fit`).
#![tactic(auto)]

mod files;
mod format;
mod incoming;
mod input;

pub use files::{read_front, read_refusal};
pub use format::{OutputFormat, fit};
pub use fv_file_tape::Incoming;
pub use incoming::{au_incoming, wave_incoming};
pub use input::{Loaded, load_head};
