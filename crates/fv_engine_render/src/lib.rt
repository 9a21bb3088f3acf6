//! A diagram's graph that is rendered block by block, over a tape or from an input file to an output file; a block ends where the next
//! change of a control comes. Promises the samples that the stream function answers, for any sizes (`render_tape`), and what is written
//! where a run stops (`play_files`).
#![tactic(auto)]

mod blocks;
mod controls;
mod cut;
mod engines;
mod files;
mod laws;
mod source;
mod stream;
mod tape;

pub use blocks::{Ran, RunSizes};
pub use controls::initial_of;
pub use cut::next_block;
pub use files::play_files;
pub use laws::{joined_is_graph, runs_have_loops};
pub use source::{Source, compile};
pub use tape::{Played, Ready, make_ready, make_ready_graph, render_tape};
