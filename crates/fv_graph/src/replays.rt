// Events from the beginning.

ghost use Rattle.std.specs.Prelude.{◌≡◌, ℕ, ◌<◌, IfOk, IfSome, MatchOption, None, Some};
ghost use Rattle.fv_graph.specs.Graph.{net_of};
ghost use Rattle.fv_graph.specs.Core.{replayed, opening};
ghost use Rattle.fv_graph.specs.Law.{CoreLaw};

use crate::Tasks;
use crate::event::Event;
use crate::task_core::Core;
use std::alloc::{AllocError, Global};

/// The core after these events, each in the state that those before it leave, from the opening state on; None where one of them is
/// illegal.
pub fn replay(
    alloc: Global,
    tasks: &Tasks,
    workers: u32,
    events: &[Event],
) -> Result<Option<Core>, AllocError>
    requires some_worker { 0 < workers }
    ensures state { IfOk result (λ r. MatchOption r
        (replayed (net_of tasks.now.tasks) (opening (net_of tasks.now.tasks) workers) events.now ≡ None)
        (λ c. replayed (net_of tasks.now.tasks) (opening (net_of tasks.now.tasks) workers) events.now ≡ Some c.now)) }
    ensures core { IfOk result (λ r. IfSome r (λ c. (c.tasks ≡ tasks.now.tasks) × (c.workers ≡ workers))) }

    // each task is taken at most once, after all that it reads; when all workers have left, all tasks are done
    ensures law { IfOk result (λ r. IfSome r (λ c. CoreLaw (net_of tasks.now.tasks) workers events.now c.now)) }
{
    let mut core = Core::new(alloc, tasks, workers)?;
    for event in events {
        if core.step(tasks, *event).is_err() {
            return Ok(None);
        }
    }
    Ok(Some(core))
}
