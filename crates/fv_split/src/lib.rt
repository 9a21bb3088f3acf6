//! Splits a graph into loops. Promises a plan that stands for the graph, and whose reads are exactly the loads between loops (`split`).
#![tactic(auto)]

mod cells;
mod graph_parts;
mod kinds;
mod lists;
mod loop_code;
mod surveyed;
mod told_reads;

pub use graph_parts::split;
