//! The strongly connected components of nodes with links. Promises one number for two nodes exactly where each reaches the other
//! (`components`).
#![tactic(auto)]

mod packed;
mod search;

pub use packed::Rows;
pub use search::{are_links, components};
