//! Definitions by name, and the choice of a rule. Promises what a name stands for, or that nothing binds it (`look_up`), and the first
//! rule that matches (`choose`).
#![tactic(auto)]

mod around;
mod by_name;
mod first_rule;
mod index;
mod lookup;
mod paths;
mod positions;
mod shortcuts;
mod wants;

pub use lookup::Definitions;
pub use shortcuts::Shortcuts;
