// A run of a diagram, or of a graph of one, over a tape, in memory that does not grow with its length.

ghost use Rattle.std.specs.Prelude.{◌≡◌, ◌*◌, ◌<◌, ◌≤◌, ℕ, ℤ, List, length, All, OnOk, IfOk, IfErr};
ghost use Rattle.std.specs.List.{AllByRecursion};
ghost use Rattle.fv_diagram.specs.Controls.{IsBounded};
ghost use Rattle.fv_diagram.specs.headline.Diagram.{Diagram, inputs};
ghost use Rattle.fv_diagram.specs.headline.Samples.{answer_on};
ghost use Rattle.fv_control.specs.Laws.{NeverFall, IsOfControls};
ghost use Rattle.fv_control.specs.headline.Streams.{control_streams};
ghost use Rattle.fv_outside.specs.Acts.{Act};
ghost use Rattle.fv_engine_render.specs.headline.Render.{initial_of};
ghost use Rattle.fv_engine_render.specs.Render.{CanRender, CanBePlayed, CanHave, RanWhole};
ghost use Rattle.fv_engine_render.specs.Sources.{diagram_in};
ghost use Rattle.fv_engine_render.specs.Stops.{HasEnded, IsSetFor, IsSetToPlay};

use crate::blocks::{PlanSizes, Ran, RunSizes};
use crate::controls::{initial_of, spans_fit};
use crate::engines::{engine, plan_of};
use crate::source::{Source, compile};
use crate::stream::{Course, play_tape};
use fv_control::Change;
use fv_diagram::{ControlInfo, answers_each, answers_wide};
use fv_engine::Engine;
use fv_outside::{Gate, Tape};
use fv_signal::Graph;
use std::alloc::{AllocError, Global};
use std::marker::Sync;
use std::sync::Wait;
use std::thread::Threads;

/// All the memory without which a run of a diagram cannot go on.
#[derive(Drop)]
pub struct Ready {
    /// The engine of the diagram's graph.
    pub engine: Engine,
    /// How many loops its plan has.
    pub loops: u64,
    /// By control: the number that it has now.
    pub values: Vec<i32>,
    /// Room for the samples that a block hears: `inputs` a frame, one frame after another.
    pub heard: Vec<i32>,
    /// Room for the samples that a block says: `outputs` a frame, one frame after another.
    pub said: Vec<i32>,
}

/// What is played, and how.
#[derive(Clone, Copy)]
pub struct Played<'c, 's> {
    /// How many inputs it has, and samples a frame of what is heard.
    pub inputs: u32,
    /// How many outputs it has, and samples a frame of what is said.
    pub outputs: u32,
    /// Its controls, by their numbers.
    pub controls: &'c [ControlInfo],
    /// How the controls change, in the order of their frames.
    pub changes: &'s [Change],
    /// The frames of the run, and the sizes that are asked for.
    pub sizes: RunSizes,
}

/// Takes all the memory without which a run of a diagram cannot go on.
pub fn make_ready(
    alloc: Global,
    source: &Source<'_, '_, '_>,
    sizes: &RunSizes,
) -> Result<Ready, AllocError>
    requires source { CanRender (diagram_in source.now) source.now.controls }
    requires sizes { CanHave sizes.now }
    ensures { IfOk result (λ r. IsSetFor (diagram_in source.now) source.now.controls sizes.now r) }
{
    let inputs = source.diagrams.arity(source.root).inputs;
    let graph = compile(alloc, source)?;
    make_ready_graph(alloc, &graph, inputs, source.controls, sizes)
}

/// Takes all the memory without which a run of a graph cannot go on, where it has `inputs` inputs and these controls.
pub fn make_ready_graph(
    alloc: Global,
    graph: &Graph,
    inputs: u32,
    controls: &[ControlInfo],
    sizes: &RunSizes,
) -> Result<Ready, AllocError>
    // It is a graph of some diagram that can be played, and whatever is ready is set for each of which it is one.
    requires of { (d : Diagram) × CanBePlayed d graph.now inputs controls.now }
    requires sizes { CanHave sizes.now }
    ensures { IfOk result (λ r. (d : Diagram) → CanBePlayed d graph.now inputs controls.now → IsSetFor d controls.now sizes.now r) }
{
    let values = initial_of(alloc, controls)?;
    let heard = blank_samples(alloc, sizes.block, inputs as usize)?;
    let said = blank_samples(alloc, sizes.block, graph.outputs().len())?;
    let plan = plan_of(alloc, graph, inputs, controls.len())?;
    let loops = plan.loops();
    let engine = engine(alloc, plan, inputs, sizes)?;
    Ok(Ready {
        engine,
        loops,
        values,
        heard,
        said,
    })
}

// `frames` frames of `width` zeros each.
fn blank_samples(alloc: Global, frames: u32, width: usize) -> Result<Vec<i32>, AllocError>
    ensures { IfOk result (λ v. length v.items ≡ frames * width) }
{
    let Some(count) = (frames as usize).checked_mul(width) else {
        return Err(AllocError);
    };
    vec![in alloc; 0i32; count]
}

/// Plays a diagram over a tape, block by block, while its controls change as a script says. What several
/// workers take of memory in a block is not needed: where it is refused one worker runs the block.
pub fn render_tape<R: Threads + Wait + Sync, G: Gate + Sync, W, T: Tape<W>>(
    rt: &R,
    alloc: Global,
    played: &Played<'_, '_>,
    mut ready: Ready,
    tape: &mut T,
    world: &mut W,
    gate: &mut G,
) -> Result<Ran, T::Stop>
    requires bounded { All IsBounded played.now.controls.now }
    requires order { NeverFall 0 played.now.changes.now }
    requires lawful { AllByRecursion (IsOfControls played.now.controls.now) played.now.changes.now }
    requires sizes { CanHave played.now.sizes }
    // All is set for some diagram, and what follows is so for each for which it is.
    requires ready { (d : Diagram) × IsSetToPlay d played.now played.now.sizes ready }
    requires valid { T.is_valid tape.old }
    requires fresh { T.is_fresh tape.old }
    requires ears { T.ears tape.old ≡ played.now.inputs }
    requires mouth { T.mouth tape.old ≡ played.now.outputs }
    requires most { played.now.sizes.block ≤ T.most tape.old }
    requires left { T.left tape.old ≡ played.now.sizes.frames }
    // What was said is what the diagram answers on what was heard, whatever the sizes, and whatever the gate.
    ensures samples { (d : Diagram) → IsSetToPlay d played.now played.now.sizes ready → OnOk result ((h : List ℤ)
        × (length h ≡ played.now.sizes.frames * inputs d) × T.Went tape.old tape.new world.old world.new h
        (answer_on d (control_streams played.now.changes.now (initial_of played.now.controls.now)) played.now.sizes.frames h)) }
    // In every block each loop of a plan of the diagram's graph ran once on each vector, after all that it reads.
    ensures ran { (d : Diagram) → IsSetToPlay d played.now played.now.sizes ready → IfOk result (λ r. RanWhole d played.now.controls.now
        played.now.changes.now played.now.sizes r (G.told gate.old) (G.told gate.new)) }
    // Where the tape stops, the blocks that were heard ran so. All that the diagram answers on them was said but for what the tape
    // stopped at.
    ensures stops { (d : Diagram) → IsSetToPlay d played.now played.now.sizes ready → IfErr result (λ e. HasEnded d played.now.controls.now
        played.now.changes.now played.now.sizes (G.told gate.old) (G.told gate.new) (λ h s act. T.Stopped tape.old tape.new world.old world.new h s act e)) }
{
    // For the prover: the answer has a frame for each frame, as wide as the diagram's outputs.
    answers_each();
    answers_wide();
    spans_fit(played.controls);
    let course = Course {
        sizes: played.sizes,
        plan: PlanSizes {
            loops: ready.loops,
            channels: played.inputs as usize,
            outputs: played.outputs as usize,
        },
        changes: played.changes,
    };
    let ran = play_tape(rt, alloc, &course, &mut ready, tape, world, gate);
    // Dropped by a call, so that the program has one drop function for all owners of it.
    drop(ready);
    ran
}
