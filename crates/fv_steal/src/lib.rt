//! Deques, workers that run the tasks of a block side by side and steal from one another, and a block by a crew of them (Letz, Orlarey,
//! Fober 2010). Promises that each number of a deque is taken at most once (`push`, `pop`, `steal`), and that each task that was taken
//! is finished and told, with nothing left over (`work`, `run_crew`).
#![tactic(auto)]

mod all_holds;
mod block;
mod body;
mod calls;
mod crew;
mod crew_deques;
mod crew_work;
mod handles;
mod journal;
mod lines;
mod moves;
mod part;
mod rule;
mod seats;
mod side_by_side;
mod turns;
mod worker;

pub use block::{CrewBlock, run_crew};
pub use body::Body;
pub use crew_work::work;
pub use handles::{TaskDeque, Victim};
pub use journal::journal_law;
pub use rule::{Account, DequeRule};
pub use worker::Worker;
