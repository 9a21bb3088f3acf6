//! Plans: the loops of a graph, and when a plan stands for a graph. Promises by the type `Plan` that it stands for some graph, and that
//! the tasks of such a plan leave the graph's values (`codes_obey`, `plans_do_tasks`).
#![tactic(auto)]

mod lane;
mod laws;
mod plan;

pub use lane::{CellsInfo, LaneInfo};
pub use laws::{codes_obey, histories_within, outputs_need_loops, plans_are_apart, plans_do_tasks};
pub use plan::{Plan, PlanParts};
