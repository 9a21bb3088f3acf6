// The code of a loop over the lanes that it sees.

ghost use Rattle.std.specs.Prelude.{◌≡◌, ◌<◌, length, map, IfOk, All, slice_index};
ghost use Rattle.fv_loopcode.specs.Code.{NamesThere};
ghost use Rattle.fv_engine_codes.specs.Renumbered.{renumbered, HasPlace};

use fv_loopcode::{Counts, Step};
use fv_loopcode_machine::Code;
use std::alloc::{AllocError, Global};

// A step with the new number of its lane.
fn renumber(step: Step, places: &[u64]) -> Step
    requires { HasPlace (length places.now) step }
    ensures { result ≡ renumbered (slice_index places.now) step }
{
    match step {
        Step::Load { lane, back, max } => Step::Load {
            lane: places[lane as usize],
            back,
            max,
        },
        Step::Append { lane, value } => Step::Append {
            lane: places[lane as usize],
            value,
        },
        Step::Number(_) => step,
        Step::Held(_) => step,
        Step::Input(_) => step,
        Step::Point { op: _, args: _ } => step,
        Step::Read { table: _, arg: _ } => step,
        Step::Write { cells: _, args: _ } => step,
    }
}

// The steps with the new numbers of their lanes.
fn renumber_all(alloc: Global, steps: &[Step], places: &[u64]) -> Result<Vec<Step>, AllocError>
    requires { All (HasPlace (length places.now)) steps.now }
    ensures { IfOk result (λ v. v.items ≡ map (renumbered (slice_index places.now)) steps.now) }
{
    steps
        .iter()
        .map(|step| renumber(*step, places))
        .collect(alloc)
}

/// A loop's code where each lane that it loads or appends has its new number from `places`. Other lanes may have any number there.
pub fn local_code(
    alloc: Global,
    code: &Code,
    places: &[u64],
    counts: Counts,
) -> Result<Code, AllocError>
    requires there { All (HasPlace (length places.now)) code.now }
    requires named { All (λ s. NamesThere counts (renumbered (slice_index places.now) s)) code.now }
    ensures { IfOk result (λ local. local ≡ map (renumbered (slice_index places.now)) code.now) }
{
    let steps = renumber_all(alloc, code.steps(), places)?;
    Ok(Code::new(alloc, &steps, counts)?.unwrap())
}
