//! Whole runs over a desk in memory, for tests: each answers a failure where the run does not end as it is to.
#![tactic(auto)]

mod desks;
mod samples;

pub use desks::{
    BLOCKS_OF_FOUR, End, GAIN, Row, THREE, TO_AU, WORDS, assert_ends, desk_of, status_of, tally_of,
};
pub use samples::{Played, assert_plays, file_of};
