//! The number of a diagram that has no inputs and does not depend on time, and the head of a table: its size and its numbers. Promises
//! that these are what the stream function answers (`number_of`, `numbers`), and what is the head and what is left (`head_and_rest`).
#![tactic(auto)]

mod fixed;
mod head;
mod laws;
mod number;
mod table_numbers;
mod timeless;

pub use head::{Pieces, head_and_rest, is_head};
pub use laws::{cuts_are_fewest, fixed_depends_on_nothing};
pub use number::number_of;
pub use table_numbers::{first_of, numbers};
