//! Tests of the loop machine by codes that are made at random: by samples and by strips, over lanes, tables and cells in vectors. A test at run
//! time tells that a code may run (`may_go`).
#![tactic(auto)]

mod blocks;
mod checks;
#[cfg(test)]
mod maker;
#[cfg(test)]
mod random_codes;
mod shelves;
#[cfg(test)]
mod widths;

pub use blocks::{Given, Pair, Trial, Went, both_ways, whole};
pub use checks::{Block, are_within, may_go};
pub use shelves::{Items, Shelves, Track};
