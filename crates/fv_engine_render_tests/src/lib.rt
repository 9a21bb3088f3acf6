//! Tests of fv_engine_render's public calls: programs that are played in blocks, beside the runner of diagrams.
#![tactic(auto)]

#[cfg(test)]
mod cases;
#[cfg(test)]
mod memory;
#[cfg(test)]
mod plays;
#[cfg(test)]
mod rows;
#[cfg(test)]
mod tables;
