// Playing a diagram.

ghost use Rattle.std.specs.Prelude.{◌≡◌, ◌+◌, ◌*◌, ◌<◌, ◌≤◌, [], length, IfOk};
ghost use Rattle.std.specs.List.{AllByRecursion};
ghost use Rattle.fv_num.specs.headline.Frames.{table};
ghost use Rattle.fv_num.specs.headline.Words.{argument};
ghost use Rattle.fv_diagram.specs.Arena.{count_of, tree_of};
ghost use Rattle.fv_diagram.specs.headline.Diagram.{inputs, outputs};
ghost use Rattle.fv_diagram.specs.Diagram.{control_bound, HasNoFreeSlot, IsWellFormed};
ghost use Rattle.fv_control.specs.Laws.{NeverFall};
ghost use Rattle.fv_control.specs.headline.Streams.{control_streams};
ghost use Rattle.fv_diagram.specs.headline.Samples.{answer_on};

use fv_control::{Change, listen, values_held};
use fv_diagram::{DiagramId, Diagrams, answers_alike, answers_each, answers_one_more};
use fv_diagram_runner::Stepper;
use std::alloc::{AllocError, Global};

/// The samples that the diagram answers on these, one frame after another, where each control keeps its number.
pub fn play(
    alloc: Global,
    diagrams: &Diagrams,
    root: DiagramId,
    controls: &[i32],
    samples: &[i32],
    frames: usize,
) -> Result<Vec<i32>, AllocError>
    requires root { root < count_of diagrams.now }
    requires well { IsWellFormed (tree_of diagrams.now root) }
    requires closed { HasNoFreeSlot (tree_of diagrams.now root) }
    requires controls { control_bound (tree_of diagrams.now root) ≤ length controls.now }
    requires samples { length samples.now ≡ frames * inputs (tree_of diagrams.now root) }
    ensures { IfOk result (λ v. v.items ≡ answer_on (tree_of diagrams.now root) (control_streams [] controls.now) frames samples.now) }
{
    play_script(alloc, diagrams, root, controls, &[], samples, frames)
}

/// The samples that the diagram answers on these, one frame after another, where the controls begin with these numbers, and
/// change as a script says.
pub fn play_script(
    alloc: Global,
    diagrams: &Diagrams,
    root: DiagramId,
    initial: &[i32],
    changes: &[Change],
    samples: &[i32],
    frames: usize,
) -> Result<Vec<i32>, AllocError>
    requires root { root < count_of diagrams.now }
    requires well { IsWellFormed (tree_of diagrams.now root) }
    requires closed { HasNoFreeSlot (tree_of diagrams.now root) }
    requires controls { control_bound (tree_of diagrams.now root) ≤ length initial.now }
    requires order { NeverFall 0 changes.now }
    requires named { AllByRecursion (λ c. c.control < length initial.now) changes.now }
    requires samples { length samples.now ≡ frames * inputs (tree_of diagrams.now root) }
    ensures { IfOk result (λ v. v.items ≡ answer_on (tree_of diagrams.now root) (control_streams changes.now initial.now) frames samples.now) }
{
    let arity = diagrams.arity(root);
    let mut out = vec![in alloc; 0i32; arity.outputs as usize]?;
    let mut values = Vec::from_slice(alloc, initial)?;
    let width = arity.inputs as usize;
    play_with(
        alloc,
        diagrams,
        root,
        changes,
        samples,
        width,
        frames,
        &mut values,
        &mut out,
    )
}

// What the diagram answers, by a runner. `values` has the controls' values as they change, and `out` is room for a frame of the
// outputs.
fn play_with(
    alloc: Global,
    diagrams: &Diagrams,
    root: DiagramId,
    changes: &[Change],
    samples: &[i32],
    width: usize,
    frames: usize,
    values: &mut [i32],
    out: &mut [i32],
) -> Result<Vec<i32>, AllocError>
    requires root { root < count_of diagrams.now }
    requires well { IsWellFormed (tree_of diagrams.now root) }
    requires closed { HasNoFreeSlot (tree_of diagrams.now root) }
    requires controls { control_bound (tree_of diagrams.now root) ≤ length values.old }
    requires order { NeverFall 0 changes.now }
    requires named { AllByRecursion (λ c. c.control < length values.old) changes.now }
    requires width { width ≡ inputs (tree_of diagrams.now root) }
    requires samples { length samples.now ≡ frames * width }
    requires out { length out.old ≡ outputs (tree_of diagrams.now root) }
    ensures { IfOk result (λ v. v.items ≡ answer_on (tree_of diagrams.now root) (control_streams changes.now values.old) frames samples.now) }
{
    // For the prover: one frame more adds a frame to the answer, which depends on the controls' values at its frames alone.
    answers_each();
    answers_one_more();
    answers_alike();
    values_held();
    let mut stepper = Stepper::new(alloc, diagrams, root)?;
    let mut answer = Vec::new(alloc);
    let mut at = 0;
    for i in 0..frames {
        at = listen(changes, at, i, values);
        let frame = frame_of(samples, width, frames, i);
        stepper.step(values, frame, out)?;
        answer.extend_from_slice(out)?;
    }
    Ok(answer)
}

// Frame i.
fn frame_of(samples: &[i32], width: usize, frames: usize, i: usize) -> &[i32]
    requires there { i < frames }
    requires samples { length samples.now ≡ frames * width }
    ensures { result.now ≡ table width (λ j. argument samples.now (i * width + j)) }
{
    &samples[i * width..(i + 1) * width]
}
