// The new numbers of the lanes that a loop sees.

ghost use Rattle.std.specs.Prelude.{◌≡◌, ℕ, ◌+◌, ◌<◌, ◌≤◌, ◌++◌, List, length, All, slice_index_or};
ghost use Rattle.std.specs.Global.{Vec};
ghost use Rattle.fv_graph.specs.Graph.{no_reads};
ghost use Rattle.fv_engine_codes.specs.Plans.{locals_of};
ghost use Rattle.fv_engine_codes.specs.inner.Numbered.{AreNumbered, AreOnce, AreLanesByLoop};
ghost use Rattle.fv_engine_codes.specs.Codes.{AreOfPlan};

use fv_graph::Tasks;
use fv_outside::Reads;
use fv_split_plan::Plan;

/// The lanes of a loop.
pub(crate) fn lanes_of(lists: &[Vec<u64>], loop_no: u64) -> &[u64]
    requires { loop_no < length lists.now }
    ensures { (d : Vec ℕ) → result.now ≡ (slice_index_or lists.now loop_no d).items }
{
    lists[loop_no as usize].as_slice()
}

// The source of a pair.
fn source_at(reads: &[Reads], pair: u64) -> u64
    requires { pair < length reads.now }
    ensures { result ≡ (slice_index_or reads.now pair no_reads).source }
{
    reads[pair as usize].source
}

// Numbers these lanes in order, from `from` on. Returns the number that the next lane gets.
fn number(lanes: &[u64], from: u64, places: &mut [u64]) -> u64
    requires there { All (λ l. l < length places.old) lanes.now }
    requires fits { from + length lanes.now ≤ length places.old }
    ensures count { result ≡ from + length lanes.now }
    ensures numbered { (before : List ℕ) → length before ≡ from → AreNumbered places.old before → AreOnce (before ++ lanes.now)
        → AreNumbered places.new (before ++ lanes.now) }
{
    // Called so that the sums below fit.
    let _most = places.len();
    for k in 0..lanes.len() {
        places[lanes[k] as usize] = from + k as u64;
    }
    from + lanes.len() as u64
}

/// Numbers the lanes that a loop sees. Returns how many they are.
pub(crate) fn number_lanes(
    plan: &Plan,
    tasks: &Tasks,
    lists: &[Vec<u64>],
    loop_no: u64,
    places: &mut [u64],
) -> u64
    requires there { loop_no < plan.now.loops }
    requires of_plan { AreOfPlan plan.now tasks.now.tasks }
    requires lists { AreLanesByLoop plan.now lists.now }
    requires long { length places.old ≡ length plan.now.lanes }
    ensures numbered { AreNumbered places.new (locals_of plan.now tasks.now.tasks loop_no) }
    ensures count { result ≡ length (locals_of plan.now tasks.now.tasks loop_no) }
{
    let loops = tasks.loops();
    let into = tasks.inward(loop_no);
    let mut count = number(lanes_of(lists, loop_no), 0, places);
    for i in 1..into.len() {
        let source = source_at(tasks.reads(), into[i] - loops);
        count = number(lanes_of(lists, source), count, places);
    }
    count
}
