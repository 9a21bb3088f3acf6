//! What every layer speaks of: the limits of all that a user can make large, the roles of files, the words that refusals name, decimal
//! digits, and lemmas on lists and on arenas of trees. Promises that each limit has the value that the documents give (`limits_are`).
#![tactic(auto)]

mod digits;
pub mod limits;
mod role;
mod word;

pub use digits::{decimal_of, is_digit};
pub use role::Role;
pub use word::Word;
