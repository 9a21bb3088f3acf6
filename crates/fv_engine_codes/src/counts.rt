// How many lanes each loop has and sees.

ghost use Rattle.std.specs.Prelude.{◌≡◌, ◌<◌, length, IfOk};
ghost use Rattle.fv_engine_codes.specs.Codes.{AreOfPlan, IsLaneCount, AreLaneCounts};
ghost use Rattle.fv_engine_codes.specs.inner.Numbered.{AreLanesByLoop};

use crate::numbers::{lanes_of, number_lanes};
use crate::owners::lanes_by_loop;
use fv_graph::Tasks;
use fv_split_plan::Plan;
use std::alloc::{AllocError, Global};

/// How many lanes a loop has, and how many it sees of the loops that it reads.
#[derive(Clone, Copy, PartialEq, Eq, Debug)]
pub struct LaneCount {
    pub own: u64,
    pub seen: u64,
}

// The lanes of one loop, counted. What the places were before does not matter.
fn count_lanes(
    plan: &Plan,
    tasks: &Tasks,
    lists: &[Vec<u64>],
    loop_no: u64,
    places: &mut [u64],
) -> LaneCount
    requires there { loop_no < plan.now.loops }
    requires of_plan { AreOfPlan plan.now tasks.now.tasks }
    requires lists { AreLanesByLoop plan.now lists.now }
    requires long { length places.old ≡ length plan.now.lanes }
    ensures { IsLaneCount plan.now tasks.now.tasks loop_no result }
{
    let own = lanes_of(lists, loop_no).len() as u64;
    let all = number_lanes(plan, tasks, lists, loop_no, places);
    LaneCount {
        own,
        seen: all - own,
    }
}

/// The numbers of lanes of each loop of a plan, which are those of the lanes that `local_codes` numbers.
pub fn lane_counts(alloc: Global, plan: &Plan, tasks: &Tasks) -> Result<Vec<LaneCount>, AllocError>
    requires { AreOfPlan plan.now tasks.now.tasks }
    ensures { IfOk result (λ v. AreLaneCounts plan.now tasks.now.tasks v.items) }
{
    let lists = lanes_by_loop(alloc, plan)?;
    let mut places = Vec::from_elem(alloc, 0, plan.lanes().len())?;
    let mut counts = Vec::with_capacity(alloc, plan.loops() as usize)?;
    for j in 0..plan.loops() {
        let count = count_lanes(plan, tasks, lists.as_slice(), j, places.as_mut_slice());
        counts.push_reserved(count);
    }
    Ok(counts)
}
