//! Control scripts, and the streams of controls. Promises the changes of a script or its first bad line (`Script::read`), and that each
//! control stays within its range (`controls_hold`).
#![tactic(auto)]

mod changes;
mod laws;
mod line;
mod refusal;
mod script;

pub use changes::listen;
pub use laws::{controls_hold, lines_are_spelled, scripts_are_lawful, values_held};
pub use refusal::ScriptRefusal;
pub use script::{Change, Script};
