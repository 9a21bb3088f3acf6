//! Tests of the calls of fv_diagram, fv_arity and fv_interval, over diagrams that are put by hand.
#![tactic(auto)]

#[cfg(test)]
mod arities;
#[cfg(test)]
mod runs;
#[cfg(test)]
mod spans;
#[cfg(test)]
mod tables;
