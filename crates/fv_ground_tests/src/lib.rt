//! Tests of the public calls of fv_num and fv_outside.
#![tactic(auto)]

#[cfg(test)]
mod file_desk;
#[cfg(test)]
mod memory_desk;
#[cfg(test)]
mod recorder;
#[cfg(test)]
mod spans;
#[cfg(test)]
mod transfer;
#[cfg(test)]
mod values;
