// How many workers run a block, and how large their board may be.

ghost use Rattle.std.specs.Prelude.{◌<◌, ◌≤◌};

use fv_graph::Tasks;
use fv_split_plan::Plan;

// How many steps, each of one frame, a block has to have for each worker beyond two. The start of a thread took 32 microseconds (blocks of
// two tasks that do nothing, by `steal_rounds plan`), and a step of a frame half a nanosecond (64 voices). By these, four workers are done
// sooner than two where one would take eight starts or more, which is 131 microseconds for each of the further two.
const STEPS_OF_A_WORKER: u64 = 262_144;

// How many edges the board of a block may have. What a crew of sixteen takes of memory for an edge, and for the task that it leads to, was
// at most 410 bytes, so the board and all that goes with it are below half a gigabyte.
const MOST_EDGES: u64 = 1_048_576;

/// Whether the board of these tasks is no larger than one may be. It has a place for each edge, of which there are more than tasks.
pub(crate) fn has_board(tasks: &Tasks) -> bool {
    tasks.edges() <= MOST_EDGES
}

/// The steps of all loops' codes, which a block does for each frame.
pub(crate) fn all_steps(plan: &Plan) -> u64 {
    let mut steps: u64 = 0;
    for j in 0..plan.loops() {
        steps = steps.saturating_add(plan.code(j).len());
    }
    steps
}

/// The most workers that may be at work at once: no more than were asked for, and no more than there are loops, since the tasks of a loop
/// run one after another.
pub(crate) fn most_workers(asked: u32, loops: u64) -> u32
    requires { (1 ≤ asked) × (0 < loops) }
    ensures some { 1 ≤ result }
    ensures asked { result ≤ asked }
    ensures loops { result ≤ loops }
{
    if loops < u64::from(asked) {
        return loops as u32;
    }
    asked
}

/// How many of these workers a block of `frames` frames has: two, since any two tasks may have to run at once, and as many more as the
/// starts of their threads are worth.
pub(crate) fn workers_for(most: u32, steps: u64, frames: u32) -> u32
    requires { 1 ≤ most }
    ensures some { 1 ≤ result }
    ensures most { result ≤ most }
{
    let work = steps.saturating_mul(u64::from(frames));
    let worth = work / STEPS_OF_A_WORKER + 2;
    if worth < u64::from(most) {
        return worth as u32;
    }
    most
}
