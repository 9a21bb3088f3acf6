//! Tests of whole runs by what is seen from within: desks that give little or fail, blocks and workers under gates, and what is made for
//! `make`; and a caller of the top call. What is seen from outside (words, files, lines) is in the tables of `tests/rows`.
#![tactic(auto)]

mod sure;

pub use sure::run_sure;

#[cfg(test)]
mod blocks;
#[cfg(test)]
mod hostile;
#[cfg(test)]
mod made;
#[cfg(test)]
mod workers;
