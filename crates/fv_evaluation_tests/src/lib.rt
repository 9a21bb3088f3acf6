//! Tests of the rules' public calls, and of fv_eval's: what whole programs stand for, and why some stand for nothing.
#![tactic(auto)]

#[cfg(test)]
mod answers;
#[cfg(test)]
mod built;
#[cfg(test)]
mod names;
#[cfg(test)]
mod numbers;
#[cfg(test)]
mod programs;
#[cfg(test)]
mod refusals;
#[cfg(test)]
mod rows;
#[cfg(test)]
mod rule_numbers;
#[cfg(test)]
mod rules;
#[cfg(test)]
mod tables;
