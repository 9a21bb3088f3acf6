//! Values and environments of an evaluation, as indices into lists; the tries that skip scopes without a name, and memos of look-ups
//! and numbers. Promises what each environment binds, and that what is remembered is true.
#![tactic(auto)]

mod memo;
mod parameter_names;
mod parameter_tries;
mod scopes;
mod slots;
mod tries;
mod value;
mod ways;

pub use memo::{Known, Numbers};
pub use parameter_names::{canonical, parameter, parameters};
pub use parameter_tries::ParameterTries;
pub use scopes::{STRIDE, Scopes};
pub use slots::{Shortcut, Slots};
pub use tries::Tries;
pub use value::{Argument, Binding, EnvId, Meaning, Ruled, Scope, Value};
pub use ways::outer_of;
