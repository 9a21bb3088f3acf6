//! The numbers of inputs and outputs of diagrams. Promises the arity of a composition, or which numbers do not fit (`arity_of`).
#![tactic(auto)]

mod compose;
mod refusal;

pub use compose::arity_of;
pub use refusal::{ArityKind, ArityRefusal};
