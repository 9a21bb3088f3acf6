//! The tree of a text's tokens, in an arena. Promises the tree that the tokens spell, or the first token that does not fit (`read`).
#![tactic(auto)]

mod arena;
mod leaves;
mod node;
mod operands;
mod pending;
mod phrases;
mod reader;
mod statements;
mod tables;
mod terminals;
mod text;

pub use arena::{Arena, Entry};
pub use node::{TreeId, TreeNode};
pub use text::{Fault, read};
