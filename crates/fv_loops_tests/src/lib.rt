//! Tests of the strongly connected components; of code and of the loop machine, by samples and by strips, over a lane, a table and cells
//! in vectors; and of how graphs are split into loops.
// A test ends with `drop` of what it owns: all tests then share the functions that drop its parts.
#![tactic(auto)]

#[cfg(test)]
mod code_rows;
#[cfg(test)]
mod component_rows;
#[cfg(test)]
mod graphs;
#[cfg(test)]
mod long;
mod shelf;
#[cfg(test)]
mod strips;
#[cfg(test)]
mod tables;

pub use shelf::Shelf;
