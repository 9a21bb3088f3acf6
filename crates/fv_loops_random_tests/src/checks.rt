// Whether code may run, as far as its steps and what it runs over tell.

ghost use Rattle.std.specs.Prelude.{◌≡◌, ◌↔◌, ◌<◌, ◌≤◌, ◌+◌, ◌*◌, ◌^◌, ℕ, length, IsTrue, All, slice_index_or, ℤ, pos, ◌≤ℤ◌};
ghost use Rattle.fv_loopcode.specs.declared.step.Step.TheVariants.{Number, Append};
ghost use Rattle.fv_loopcode.specs.declared.step.Step.{Step};
ghost use Rattle.fv_loopcode.specs.headline.Lanes.{lane_of};
ghost use Rattle.fv_loopcode.specs.Code.{IsWithin};
ghost use Rattle.fv_loops_random_tests.specs.Shelves.{lane_on, state_on};
ghost use Rattle.fv_loops_random_tests.specs.MayGo.{IsAppended, GoesBack, IsInTime, MayDo, MayGo};

use crate::shelves::{Shelves, Track};
use fv_loopcode::Step;

/// Which samples of a block are run.
#[derive(Clone, Copy)]
pub struct Block {
    pub from: u64,
    pub count: u64,
}

// Whether the step appends this lane.
fn is_append(step: Step, own: u64) -> bool
    ensures { IsTrue result → (value : ℕ) × (step ≡ Append own value) }
{
    match step {
        Step::Append { lane, value: _ } => lane == own,
        _ => false,
    }
}

// Whether one of the first `upto` steps appends this lane.
fn is_appended(steps: &[Step], upto: usize, lane: u64) -> bool
    requires { upto ≤ length steps.now }
    ensures { IsTrue result → IsAppended steps.now upto lane }
{
    for i in 0..upto {
        if is_append(steps[i], lane) {
            return true;
        }
    }
    false
}

// Whether the step is a number that is positive.
fn is_positive(step: Step) -> bool
    ensures { IsTrue result → (by : ℤ) × (step ≡ Number by) × (pos 1 ≤ℤ by) }
{
    match step {
        Step::Number(n) => n >= 1,
        _ => false,
    }
}

// Whether a load goes back one sample at least, whatever the registers are.
fn goes_back(steps: &[Step], back: u64, max: u64) -> bool
    ensures { IsTrue result → GoesBack steps.now back max }
{
    back < steps.len() as u64 && max >= 1 && is_positive(steps[back as usize])
}

// Whether a load finds a sample of the lane before it is appended, or after.
fn is_in_time(steps: &[Step], place: usize, lane: u64, back: u64, max: u64) -> bool
    requires { place < length steps.now }
    ensures { IsTrue result → IsInTime steps.now place lane back max }
{
    is_appended(steps, place, lane)
        || (goes_back(steps, back, max) && is_appended(steps, steps.len(), lane))
}

// Whether a lane has the samples before this one of the block.
fn has_up_to(track: &Track, upto: u64) -> bool
    requires { upto < 2 ^ 32 }
    ensures { IsTrue result ↔ ((lane_on track.now).history + upto ≤ length (lane_on track.now).items) }
{
    u64::from(track.history) + upto <= track.len()
}

// Whether the step at this place may be done for each of the samples.
fn may_do(steps: &[Step], place: usize, shelves: &Shelves, block: Block) -> bool
    requires place { place < length steps.now }
    requires small { block.from + block.count < 2 ^ 32 }
    ensures { IsTrue result → (d : Step) → MayDo steps.now (state_on shelves.now) block.from block.count place (slice_index_or steps.now place d) }
{
    match steps[place] {
        Step::Load { lane, back, max } => match shelves.lanes.get(lane as usize) {
            Some(track) => {
                max <= u64::from(track.history)
                    && (has_up_to(track, block.from + block.count)
                        || (has_up_to(track, block.from)
                            && is_in_time(steps, place, lane, back, max)))
            }
            None => false,
        },
        Step::Append { lane, value: _ } => lane < shelves.lanes.len() as u64,
        Step::Read { table, arg: _ } => match shelves.tables.get(table as usize) {
            Some(items) => !items.numbers.is_empty(),
            None => false,
        },
        Step::Write { cells, args: _ } => match shelves.cells.get(cells as usize) {
            Some(items) => !items.numbers.is_empty(),
            None => false,
        },
        _ => true,
    }
}

// Whether the lane has room for this many samples more.
fn has_room(track: &Track, room: u64) -> bool
    ensures { IsTrue result → room ≤ (lane_on track.now).room }
{
    room <= (track.samples.len() as u64).saturating_sub(track.written)
}

// Whether each lane has.
fn have_room(shelves: &Shelves, room: u64) -> bool
    ensures { IsTrue result → All (λ t. room ≤ (lane_on t).room) shelves.now.lanes.items }
{
    shelves.lanes.iter().all(|track| has_room(track, room))
}

// Whether each step may be done for each of the samples.
fn may_each(steps: &[Step], shelves: &Shelves, block: Block) -> bool
    requires small { block.from + block.count < 2 ^ 32 }
    ensures { IsTrue result → (i : ℕ) (d : Step) → i < length steps.now
        → MayDo steps.now (state_on shelves.now) block.from block.count i (slice_index_or steps.now i d) }
{
    for place in 0..steps.len() {
        if !may_do(steps, place, shelves, block) {
            return false;
        }
    }
    true
}

/// Whether the code may run for each of the samples, as far as a test can see.
#[tactic(auto, using(crate::proofs::Stored::rooms))]
pub fn may_go(steps: &[Step], shelves: &Shelves, block: Block) -> bool
    requires small { block.from + block.count < 2 ^ 32 }
    requires few { length steps.now ≤ 65536 }
    ensures { IsTrue result → MayGo steps.now (state_on shelves.now) block.from block.count }
{
    have_room(shelves, block.count * steps.len() as u64) && may_each(steps, shelves, block)
}

// Whether the step reads a held value and a channel that are there.
fn is_within(step: Step, held: u64, channels: u64) -> bool
    ensures { IsTrue result ↔ IsWithin held channels step }
{
    match step {
        Step::Held(k) => k < held,
        Step::Input(k) => k < channels,
        _ => true,
    }
}

/// Whether each step reads held values and channels that are there.
pub fn are_within(steps: &[Step], held: u64, channels: u64) -> bool
    ensures { IsTrue result ↔ All (λ s. IsWithin held channels s) steps.now }
{
    steps.iter().all(|step| is_within(*step, held, channels))
}
