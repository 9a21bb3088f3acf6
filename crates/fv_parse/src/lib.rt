//! The parser: the tree of a text's tokens, and what refuses it. Promises the one tree of a program, or its first refusal with its
//! exact place (`parse`, `one_outcome`).
#![tactic(auto)]

mod clash;
mod definitions;
mod laws;
mod names;
mod parsed;
mod parser;
mod refusal;
mod static_errors;
mod unsupported;

pub use fv_parse_tree::{TreeId, TreeNode};
pub use laws::{one_outcome, same_names};
pub use parsed::Tree;
pub use parser::parse;
pub use refusal::ParseRefusal;
