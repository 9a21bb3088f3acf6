//! A builder of graphs that shares equal signals (hash-consing) and equal tables. Promises one number for equal signals and different
//! numbers for different ones (`Builder::node`).
#![tactic(auto)]

mod builder;
mod laws;

pub use builder::Builder;
pub use laws::{backs_stay_within, groups_stay, puts_stand, tables_stand};
