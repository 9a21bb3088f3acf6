//! Tests of simpler graphs, and of graphs side by side.
#![tactic(auto)]

#[cfg(test)]
mod choices;
#[cfg(test)]
mod delays;
#[cfg(test)]
mod folds;
#[cfg(test)]
mod graphs;
#[cfg(test)]
mod jobs;
#[cfg(test)]
mod joined_graphs;
#[cfg(test)]
mod kept;
#[cfg(test)]
mod long;
#[cfg(test)]
mod outputs;
#[cfg(test)]
mod random;
#[cfg(test)]
mod reducible;
#[cfg(test)]
mod rounds;
#[cfg(test)]
mod side_by_side;
#[cfg(test)]
mod texts;
