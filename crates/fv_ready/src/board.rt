// A board.

ghost use Rattle.std.specs.Prelude.{◌≡◌, ℕ, ◌+◌, ◌^◌, ◌<◌, ◌≤◌};
ghost use Rattle.fv_graph.specs.TasksBeside.{task_count};
ghost use Rattle.fv_graph.specs.Graph.{IsGraph, edges_of};

use crate::rule::Whole;
use crate::{About, Parcel, View};
use atomic_table::Table;
use fv_graph::Tasks;
use std::alloc::Global;

/// The board of a block: for each task a count and a claim, for each edge a slot, and the stamps. Workers share it through a
/// `&`, each with its own seat.
pub struct Board<'t, C: Parcel> {
    pub(crate) tasks: &'t Tasks,
    pub(crate) table: Table<Option<C>, View<C>, About<C>, Whole<C>, Global>,
    ghost told: { table.shared.key.tasks.value ≡ tasks.now },
    ghost sized: { (table.shared.table_id.words ≡ 1 + task_count tasks.now.tasks + task_count tasks.now.tasks)
        × (table.shared.table_id.slots ≡ edges_of tasks.now.tasks) },
    ghost graph: { IsGraph tasks.now.tasks },
    ghost few: { (task_count tasks.now.tasks ≤ edges_of tasks.now.tasks) × (edges_of tasks.now.tasks < 2 ^ 62) },
}
