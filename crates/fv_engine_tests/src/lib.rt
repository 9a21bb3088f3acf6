//! Tests of engines over graphs that are split: samples by hand, block by block, and what a gate sees and is told.
// Each owner of an engine ends with `drop` of it: all of them then share the functions that drop its parts.
#![tactic(auto)]

#[cfg(test)]
mod blocks;
#[cfg(test)]
mod echoes;
#[cfg(test)]
mod engines;
#[cfg(test)]
mod graphs;
#[cfg(test)]
mod may;
#[cfg(test)]
mod tables;
