//! Evaluation of a program's tree. Promises the diagram and the controls that the rules give, or the first refusal that they meet
//! (`evaluate`).
#![tactic(auto)]

mod apply;
mod arrive;
mod begin;
mod continuation;
mod iterate;
mod machine;
mod names;
mod sliders;
mod turn;
mod whole;

pub use fv_eval_drawing::Controls;
pub use fv_rules::EvalRefusal;
pub use whole::{Program, evaluate};
