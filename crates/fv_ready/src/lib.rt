//! The board of a scheduler: counts, claims, stamps and edge slots that any number of workers share, in atomic steps. Promises that
//! each step of any schedule keeps the board's rule and shows at most one legal event (`step_law`), and what a closed board tells of
//! all workers (`Board::close`).
#![tactic(auto)]

mod begin;
mod board;
mod close;
mod laws;
mod rule;
mod seat;
mod slots;
mod steps;
mod view;

pub use board::Board;
pub use laws::{opening_law, step_law};
pub use seat::{InHand, WorkerSeat};
pub use view::{About, Deed, Parcel, View};
