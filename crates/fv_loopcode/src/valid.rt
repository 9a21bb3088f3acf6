// Steps that are code.

ghost use Rattle.std.specs.Prelude.{◌↔◌, ◌<◌, IsTrue, All};
ghost use Rattle.fv_loopcode.specs.Code.{IsValid, AreValid};

use crate::counts::Counts;
use crate::step::Step;

// Whether the operands of a step are earlier, and what it names is there.
fn is_valid(step: Step, place: u64, counts: Counts) -> bool
    ensures { IsTrue result ↔ IsValid place counts step }
{
    match step {
        Step::Number(_) => true,
        Step::Held(_) => true,
        Step::Input(_) => true,
        Step::Point { op: _, args } => are_below(&args, place),
        Step::Load { lane, back, max: _ } => lane < counts.lanes && back < place,
        Step::Append { lane, value } => lane < counts.lanes && value < place,
        Step::Read { table, arg } => table < counts.tables && arg < place,
        Step::Write { cells, args } => cells < counts.cells && are_below(&args, place),
    }
}

fn are_below(args: &[u64], place: u64) -> bool
    ensures { IsTrue result ↔ All (λ a. a < place) args.now }
{
    args.iter().all(|arg| *arg < place)
}

/// Whether each operand is the number of an earlier step, and each lane, table and cells that a step names is there.
pub fn are_valid(steps: &[Step], counts: Counts) -> bool
    ensures { IsTrue result ↔ AreValid counts steps.now }
{
    for i in 0..steps.len() {
        if !is_valid(steps[i], i as u64, counts) {
            return false;
        }
    }
    true
}
