// The codes of all loops.

ghost use Rattle.std.specs.Prelude.{◌≡◌, ◌<◌, ℕ, length, IfOk};
ghost use Rattle.fv_engine_codes.specs.Plans.{IsLocalCode};
ghost use Rattle.fv_engine_codes.specs.Codes.{AreLocalCodes, AreOfPlan};
ghost use Rattle.fv_engine_codes.specs.inner.Numbered.{AreLanesByLoop};

use crate::local_code;
use crate::numbers::number_lanes;
use crate::owners::lanes_by_loop;
use fv_graph::Tasks;
use fv_loopcode::Counts;
use fv_loopcode_machine::Code;
use fv_split_plan::Plan;
use std::alloc::{AllocError, Global};

// The code of a loop over the lanes that it sees. What the places were before does not matter.
fn loop_code(
    alloc: Global,
    plan: &Plan,
    tasks: &Tasks,
    lists: &[Vec<u64>],
    loop_no: u64,
    places: &mut [u64],
) -> Result<Code, AllocError>
    requires there { loop_no < plan.now.loops }
    requires of_plan { AreOfPlan plan.now tasks.now.tasks }
    requires lists { AreLanesByLoop plan.now lists.now }
    requires long { length places.old ≡ length plan.now.lanes }
    ensures { IfOk result (λ code. IsLocalCode plan.now tasks.now.tasks loop_no code) }
{
    // Called for their clauses.
    let _loops = plan.loops();
    let _tasks = tasks.loops();
    let count = number_lanes(plan, tasks, lists, loop_no, places);
    let counts = Counts {
        lanes: count,
        tables: plan.tables(),
        cells: plan.cells().len() as u64,
    };
    local_code(alloc, plan.code(loop_no), places, counts)
}

/// The code of each loop of a plan over the lanes that the loop sees: its own, in their order, and then those of the loops that it
/// reads, in the order of the edges into its tasks. The tasks are the plan's, of any number of vectors.
pub fn local_codes(alloc: Global, plan: &Plan, tasks: &Tasks) -> Result<Vec<Code>, AllocError>
    requires { AreOfPlan plan.now tasks.now.tasks }
    ensures { IfOk result (λ v. AreLocalCodes plan.now tasks.now.tasks v.items) }
{
    let lists = lanes_by_loop(alloc, plan)?;
    let mut places = Vec::from_elem(alloc, 0, plan.lanes().len())?;
    let mut codes = Vec::with_capacity(alloc, plan.loops() as usize)?;
    for j in 0..plan.loops() {
        let code = loop_code(
            alloc,
            plan,
            tasks,
            lists.as_slice(),
            j,
            places.as_mut_slice(),
        )?;
        codes.push_reserved(code);
    }
    Ok(codes)
}
