// A run of an engine over blocks that a tape hears and says one by one.

ghost use Rattle.std.specs.Prelude.{ℕ, ℤ, List, ◌≡◌, ◌*◌, ◌<◌, ◌≤◌, length, OnOk, IfOk, IfErr};
ghost use Rattle.std.specs.List.{AllByRecursion};
ghost use Rattle.fv_outside.specs.headline.Journal.{Told};
ghost use Rattle.fv_outside.specs.Acts.{Act};
ghost use Rattle.fv_split_plan.specs.Code.{NamesHeld};
ghost use Rattle.fv_control.specs.Laws.{NeverFall};
ghost use Rattle.fv_control.specs.headline.Streams.{control_streams};
ghost use Rattle.fv_engine.specs.Stands.{SameParts};
ghost use Rattle.fv_engine_render.specs.headline.Blocks.{StillTells};
ghost use Rattle.fv_engine_render.specs.inner.Plans.{AreNumbers};
ghost use Rattle.fv_engine_render.specs.headline.Runs.{HasRun};
ghost use Rattle.fv_engine_render.specs.inner.Runs.{IsSizeOf, PlaysAll};
ghost use Rattle.fv_engine_render.specs.inner.Stopping.{HasStopped};

use crate::blocks::{PlanSizes, Ran, RunSizes};
use crate::controls::numbers_fit;
use crate::cut::begin_block;
use crate::tape::Ready;
use fv_control::{Change, controls_hold, values_held};
use fv_outside::{Gate, Tape};
use fv_signal::values_look_back;
use std::alloc::Global;
use std::marker::Sync;
use std::sync::Wait;
use std::thread::Threads;

/// What an engine plays.
#[derive(Clone, Copy)]
pub(crate) struct Course<'c> {
    /// The frames of the run, and the sizes that were asked for.
    pub(crate) sizes: RunSizes,
    /// The loops, inputs and outputs of its plan.
    pub(crate) plan: PlanSizes,
    /// How the controls change, in the order of their frames.
    pub(crate) changes: &'c [Change],
}

/// Runs an engine over all frames that a tape hears, and has the tape say what it answers. The controls begin with the values that are
/// ready, and change as a script says.
pub(crate) fn play_tape<R: Threads + Wait + Sync, G: Gate + Sync, W, T: Tape<W>>(
    rt: &R,
    alloc: Global,
    course: &Course<'_>,
    ready: &mut Ready,
    tape: &mut T,
    world: &mut W,
    gate: &mut G,
) -> Result<Ran, T::Stop>
    requires some { 1 ≤ course.now.sizes.block }
    requires sizes { (course.now.sizes.block ≡ ready.old.engine.block) × (course.now.sizes.vector ≡ ready.old.engine.vector)
        × (course.now.sizes.workers ≡ ready.old.engine.workers) }
    requires plan { IsSizeOf ready.old.engine course.now.plan }
    requires order { NeverFall 0 course.now.changes.now }
    requires named { AllByRecursion (λ c. c.control < length ready.old.values.items) course.now.changes.now }
    requires controls { (k : ℕ) → NamesHeld ready.old.engine.plan.held k → k < length ready.old.values.items }
    requires heard { length ready.old.heard.items ≡ course.now.sizes.block * course.now.plan.channels }
    requires said { length ready.old.said.items ≡ course.now.sizes.block * course.now.plan.outputs }
    requires valid { T.is_valid tape.old }
    requires fresh { T.is_fresh tape.old }
    requires ears { T.ears tape.old ≡ course.now.plan.channels }
    requires mouth { T.mouth tape.old ≡ course.now.plan.outputs }
    requires most { course.now.sizes.block ≤ T.most tape.old }
    requires left { T.left tape.old ≡ course.now.sizes.frames }
    ensures same { SameParts ready.old.engine ready.new.engine }
    // What was said of all frames is what the engine answers on what was heard.
    ensures samples { OnOk result ((h s : List ℤ) × (length h ≡ course.now.sizes.frames * course.now.plan.channels) × AreNumbers h
        × (length s ≡ course.now.sizes.frames * course.now.plan.outputs)
        × PlaysAll ready.old.engine (control_streams course.now.changes.now ready.old.values.items) course.now.sizes.frames h s
        × T.Went tape.old tape.new world.old world.new h s) }
    ensures ran { IfOk result (λ r. HasRun ready.old.engine.plan course.now.sizes course.now.changes.now course.now.sizes.frames r
        (G.told gate.old) (G.told gate.new)) }
    ensures room { IfOk result (λ r. StillTells r.blocks r.loop_runs (r.blocks * length ready.old.engine.plan.reads) (G.told gate.old) (G.told gate.new)) }
    // Where the tape stops, all blocks that were heard ran, and all that they answer was said but for what the tape stopped at.
    ensures stops { IfErr result (λ e. HasStopped ready.old.engine course.now.sizes course.now.changes.now ready.old.values.items
        (G.told gate.old) (G.told gate.new) (λ h s act. T.Stopped tape.old tape.new world.old world.new h s act e)) }
{
    // For the prover: values look back only, and in a block the controls hold the values that the changes up to it gave.
    values_look_back();
    values_held();
    controls_hold();
    match tape.begin(world) {
        Ok(()) => {}
        Err(stop) => return Err(stop),
    }
    let engine = &mut ready.engine;
    let values = ready.values.as_mut_slice();
    let heard = ready.heard.as_mut_slice();
    let said = ready.said.as_mut_slice();
    let mut ran = Ran {
        blocks: 0,
        loops: 0,
        loop_runs: 0,
    };
    let mut frame = 0u32;
    let mut next = 0;
    'playing: while frame < course.sizes.frames {
        let (behind, frames) = begin_block(&course.sizes, course.changes, next, frame, values);
        next = behind;
        let input = &mut heard[..frames as usize * course.plan.channels];
        match tape.hear(world, frames, input) {
            Ok(()) => {}
            Err(stop) => return Err(stop),
        }
        numbers_fit(input);
        let output = &mut said[..frames as usize * course.plan.outputs];
        let report = engine.run_block(rt, alloc, frames, input, values, output, gate);
        ran = ran.and_block(&course.plan, report.tasks);
        match tape.say(world, frames, output) {
            Ok(()) => {}
            Err(stop) => return Err(stop),
        }
        frame += frames;
    }
    Ok(ran)
}
