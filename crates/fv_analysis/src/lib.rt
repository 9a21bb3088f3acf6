//! How often signals change, and how far back they are read. Promises that what passes through a delay, a group or a table has the rate
//! of samples (`delays_are_sample`), and that no signal is read further back than its history (`histories_cover`).
#![tactic(auto)]

mod graph_rates;
mod history;
mod history_list;
mod laws;
mod rate_list;
mod resolve;

pub use graph_rates::rates;
pub use history::largest_delays;
pub use history_list::Histories;
pub use laws::{delays_are_sample, histories_cover, stands_alike};
pub use rate_list::Rates;
pub use resolve::stands;
