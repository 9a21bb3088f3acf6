// What several workers need of a plan.

ghost use Rattle.std.specs.Prelude.{◌<◌, ◌≤◌, IfOk, IfSome};
ghost use Rattle.fv_base.specs.declared.limits.TheConstants.{MOST_WORKERS};
ghost use Rattle.fv_engine_codes.specs.Codes.{AreOfPlan};
ghost use Rattle.fv_engine.specs.Crews.{IsCrewOf};

use crate::crew_codes::CrewCodes;
use crate::crew_size::{all_steps, most_workers};
use fv_engine_codes::{lane_counts, local_codes, place_cells};
use fv_graph::Tasks;
use fv_split_plan::Plan;
use std::alloc::{AllocError, Global};

// How many bytes a list has that the C library takes from the system by itself, and gives back at once.
const OWN_PAGES: usize = 16 * 1024 * 1024;

// Has the C library keep its pages. A block of several workers takes its lists from the heap and frees them when it ends. glibc
// hands the free end of its heap to the system where that is longer than 128 KiB. So each block would ask for its pages again, and
// that took a quarter of the calling thread's time. Once a list that had pages of its own was dropped, glibc keeps up to twice as
// much. Where this list is refused, or another C library is at work, all goes on as before.
fn keep_pages(alloc: Global) {
    let _ = Vec::<u8>::with_capacity(alloc, OWN_PAGES);
}

/// What a crew needs of a plan. It has at most `workers` workers, and as many as loops at most, since no more can be at work at once.
/// One worker needs nothing. Neither does a plan of one loop, since no two of its tasks can run at once.
pub(crate) fn crew_for(
    alloc: Global,
    plan: &Plan,
    tasks: &Tasks,
    workers: u32,
) -> Result<Option<CrewCodes>, AllocError>
    requires of_plan { AreOfPlan plan.now tasks.now.tasks }
    requires some_loop { 0 < plan.now.loops }
    requires workers { (1 ≤ workers) × (workers ≤ MOST_WORKERS) }
    ensures of_plan { IfOk result (λ crew. IfSome crew (λ c. IsCrewOf plan.now tasks.now.tasks c)) }
    ensures asked { IfOk result (λ crew. IfSome crew (λ c. c.workers ≤ workers)) }
{
    if workers == 1 || plan.loops() == 1 {
        return Ok(None);
    }
    keep_pages(alloc);
    let codes = local_codes(alloc, plan, tasks)?;
    let counts = lane_counts(alloc, plan, tasks)?;
    let places = place_cells(alloc, plan)?;
    Ok(Some(CrewCodes {
        codes,
        counts,
        places,
        workers: most_workers(workers, plan.loops()),
        steps: all_steps(plan),
    }))
}
