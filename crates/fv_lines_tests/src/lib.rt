//! Callers that lend lanes to threads, and tests of the region, of its parts and of lanes over them.
#![tactic(auto)]

#[cfg(test)]
mod blocks;
mod caller;
#[cfg(test)]
mod parts;
#[cfg(test)]
mod writers;

pub use caller::{append_side_by_side, read_while_written, seen_before_the_next_cut};
