// Programs that are played.

ghost use Rattle.std.specs.Prelude.{◌≡◌, ◌^◌, ◌<◌, IfOk, length};
ghost use Rattle.std.specs.List.{AllByRecursion};
ghost use Rattle.fv_control.specs.Laws.{NeverFall, IsOfControls};
ghost use Rattle.fv_engine_render.specs.Render.{CanHave};
ghost use Rattle.fv_engine_render.specs.Stops.{IsSetFor};
ghost use Rattle.fv_diagram.specs.Arena.{tree_of};

use crate::memory::{Memory, MemoryTape};
use fv_base::limits::{MOST_BLOCK, MOST_CHANNELS, MOST_VECTORS, MOST_WORKERS};
use fv_control::{Change, Script, scripts_are_lawful};
use fv_diagram::ControlInfo;
use fv_engine_render::{Played, Ran, Ready, RunSizes, Source, initial_of, make_ready, render_tape};
use fv_eval::Program;
use fv_interval::{Delays, spans, spans_of};
use fv_num::Span;
use fv_outside::Gate;
use std::alloc::Global;
use std::marker::Sync;
use std::sync::Wait;
use std::test::Fail;
use std::thread::Threads;
use test_diagrams::{play_script, program_of};

/// A program, the changes of its controls, and an input of one channel, or of none.
#[derive(Clone, Copy)]
pub(crate) struct Case {
    pub(crate) program: &'static str,
    pub(crate) script: &'static str,
    pub(crate) input: &'static [i32],
    pub(crate) frames: u32,
}

/// What a run gave: its samples, one frame after another, and what ran.
#[derive(Drop)]
pub(crate) struct Answer {
    pub(crate) samples: Vec<i32>,
    pub(crate) ran: Ran,
}

// The script of a text.
fn script_of(alloc: Global, text: &str, controls: &[ControlInfo]) -> Result<Script, Fail>
    requires { length controls.now < 2 ^ 32 }
    ensures order { IfOk result (NeverFall 0) }
    ensures lawful { IfOk result (AllByRecursion (IsOfControls controls.now)) }
    ensures named { IfOk result (AllByRecursion (λ c. c.control < length controls.now)) }
{
    // For the prover: what a script spells is in order, and of its controls.
    scripts_are_lawful();
    let Ok(script) = Script::read(alloc, text.as_bytes(), controls) else {
        return Err("no script".into());
    };
    Ok(script)
}

// The numbers with which a program's controls begin, and those that they may have.
fn numbers_in(alloc: Global, program: &Program) -> Result<(Vec<i32>, Vec<Span>), Fail> {
    let controls = program.controls.as_slice();
    let initial = initial_of(alloc, controls)?;
    let spans = spans_of(alloc, controls)?;
    Ok((initial, spans))
}

/// The numbers with which the controls of a program's text begin, and those that they may have.
pub(crate) fn numbers_of(alloc: Global, text: &str) -> Result<(Vec<i32>, Vec<Span>), Fail> {
    let program = program_of(alloc, text)?;
    numbers_in(alloc, &program)
}

/// What a run in blocks by one worker gives.
pub(crate) fn rendered<R: Threads + Wait + Sync, G: Gate + Sync>(
    rt: &R,
    alloc: Global,
    case: &Case,
    block: u32,
    vector: u32,
    gate: &mut G,
) -> Result<Answer, Fail> {
    rendered_by(rt, alloc, case, block, vector, 1, gate)
}

// The sizes of a run, if there may be such.
fn sizes_of(frames: u32, block: u32, vector: u32, workers: u32) -> Result<RunSizes, Fail>
    ensures can { IfOk result CanHave }
    ensures frames { IfOk result (λ s. s.frames ≡ frames) }
    ensures block { IfOk result (λ s. s.block ≡ block) }
{
    if block == 0 || block > MOST_BLOCK || vector == 0 {
        return Err("sizes".into());
    }
    let vectors = (u64::from(block) + (u64::from(vector) - 1)) / u64::from(vector);
    if vectors > u64::from(MOST_VECTORS) {
        return Err("vectors".into());
    }
    if workers == 0 || workers > MOST_WORKERS {
        return Err("workers".into());
    }
    Ok(RunSizes {
        frames,
        block,
        vector,
        workers,
    })
}

// All the memory of a run of a program, in which its engine stands.
fn ready_of(alloc: Global, program: &Program, sizes: &RunSizes) -> Result<Ready, Fail>
    requires { CanHave sizes.now }
    ensures { IfOk result (λ r. IsSetFor (tree_of program.now.diagrams program.now.root) program.now.controls sizes.now r) }
{
    let arity = program.diagrams.arity(program.root);
    if arity.outputs == 0 || arity.inputs > MOST_CHANNELS {
        return Err("channels".into());
    }
    let controls = program.controls.as_slice();
    let bounds = spans_of(alloc, controls)?;
    let Ok(delays) = spans(alloc, &program.diagrams, program.root, &bounds) else {
        return Err("delays".into());
    };
    let source = Source {
        diagrams: &program.diagrams,
        root: program.root,
        delays: &delays,
        controls,
    };
    let ready = make_ready(alloc, &source, sizes)?;
    Ok(ready)
}

// A run over a tape in memory, for which all memory was taken. Nothing ends it early, so what is ready is dropped at one place.
fn played_on<R: Threads + Wait + Sync, G: Gate + Sync>(
    rt: &R,
    alloc: Global,
    program: &Program,
    changes: &[Change],
    sizes: &RunSizes,
    ready: Ready,
    memory: &mut Memory<'_>,
    gate: &mut G,
) -> Ran
    requires sizes { CanHave sizes.now }
    requires order { NeverFall 0 changes.now }
    requires lawful { AllByRecursion (IsOfControls program.now.controls) changes.now }
    requires ready { IsSetFor (tree_of program.now.diagrams program.now.root) program.now.controls sizes.now ready }
{
    let arity = program.diagrams.arity(program.root);
    let played = Played {
        inputs: arity.inputs,
        outputs: arity.outputs,
        controls: program.controls.as_slice(),
        changes,
        sizes: *sizes,
    };
    let mut tape = MemoryTape {
        left: sizes.frames,
        most: sizes.block,
        inputs: arity.inputs,
        outputs: arity.outputs,
    };
    match render_tape(rt, alloc, &played, ready, &mut tape, memory, gate) {
        Ok(ran) => ran,
        // A tape in memory never stops.
        Err(stop) => match stop {},
    }
}

// What a run of a program gives. Its memory is made before all that is ready, which is large.
fn answer_of<R: Threads + Wait + Sync, G: Gate + Sync>(
    rt: &R,
    alloc: Global,
    case: &Case,
    program: &Program,
    sizes: &RunSizes,
    gate: &mut G,
) -> Result<Answer, Fail>
    requires { CanHave sizes.now }
{
    let arity = program.diagrams.arity(program.root);
    if case.input.len() != sizes.frames as usize * arity.inputs as usize {
        return Err("input".into());
    }
    let script = script_of(alloc, case.script, program.controls.as_slice())?;
    let mut memory = Memory {
        input: case.input,
        heard: 0,
        output: vec![in alloc; 0i32; sizes.frames as usize * arity.outputs as usize]?,
        said: 0,
    };
    let ready = ready_of(alloc, program, sizes)?;
    let ran = played_on(
        rt,
        alloc,
        program,
        script.changes(),
        sizes,
        ready,
        &mut memory,
        gate,
    );
    Ok(Answer {
        samples: memory.output,
        ran,
    })
}

/// What a run in blocks by `workers` workers gives.
pub(crate) fn rendered_by<R: Threads + Wait + Sync, G: Gate + Sync>(
    rt: &R,
    alloc: Global,
    case: &Case,
    block: u32,
    vector: u32,
    workers: u32,
    gate: &mut G,
) -> Result<Answer, Fail> {
    let sizes = sizes_of(case.frames, block, vector, workers)?;
    let program = program_of(alloc, case.program)?;
    answer_of(rt, alloc, case, &program, &sizes, gate)
}

// What the runner of diagrams gives of a program.
fn steps_of(alloc: Global, case: &Case, program: &Program) -> Result<Vec<i32>, Fail> {
    let arity = program.diagrams.arity(program.root);
    let frames = case.frames as usize;
    if case.input.len() != frames * arity.inputs as usize {
        return Err("input".into());
    }
    let controls = program.controls.as_slice();
    let script = script_of(alloc, case.script, controls)?;
    let initial = initial_of(alloc, controls)?;
    let answer = play_script(
        alloc,
        &program.diagrams,
        program.root,
        &initial,
        script.changes(),
        case.input,
        frames,
    )?;
    Ok(answer)
}

/// What the runner of diagrams gives.
pub(crate) fn stepped(alloc: Global, case: &Case) -> Result<Vec<i32>, Fail> {
    let program = program_of(alloc, case.program)?;
    steps_of(alloc, case, &program)
}
