//! Tests of the core, of the board, of a worker's deque, and of workers that steal.
#![tactic(auto)]

#[cfg(test)]
mod board_rows;
#[cfg(test)]
mod core_rows;
#[cfg(test)]
mod deque_rows;
#[cfg(test)]
mod ends;
#[cfg(test)]
mod tasks;
#[cfg(test)]
mod whole;
