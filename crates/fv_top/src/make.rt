// A program that is made, and played on its noise.

ghost use Rattle.std.specs.Prelude.{◌≡◌, ◌⊎◌, ◌≤◌, [], Ok, Err, IfOk, IfErr, OnOk, OnErr};
ghost use Rattle.fv_base.specs.declared.role.Role.TheVariants.{Report};
ghost use Rattle.fv_engine_render.specs.Render.{RanWhole};
ghost use Rattle.fv_base.specs.declared.limits.TheConstants.{MOST_VOICES, MOST_WORKERS};
ghost use Rattle.fv_top_report.specs.declared.refusal.Refusal.TheVariants.{WriteFault, NoMemory};
ghost use Rattle.fv_top.specs.headline.Played.{make_sizes};
ghost use Rattle.fv_top.specs.inner.Played.{MakeRan, MakeSoFar};
ghost use Rattle.fv_top.specs.headline.Meant.{made_sum};
ghost use Rattle.fv_top_program.specs.headline.Compiled.{Compiled};
ghost use Rattle.fv_top_program.specs.Playables.{IsPlayable};
ghost use Rattle.fv_top.specs.headline.Promise.{IsMade};
ghost use Rattle.fv_top.specs.inner.Running.{Makes, StopsMake, HasSum};

use fv_engine_render::{Played, Ran, RunSizes, make_ready_graph, render_tape};
use fv_outside::{Desk, Gate, Role};
use fv_top_make::{Noise, NoiseTape, sums_add_up, text_of, voices_are_a_program};
use fv_top_program::{Playable, read_playable};
use fv_top_report::{Refusal, report_made};
use fv_top_words::ProgramKind;
use std::alloc::{AllocError, Global};
use std::sync::Wait;
use std::thread::Threads;

/// The frames of a block.
const BLOCK: u32 = 256;

/// The frames of a vector.
const VECTOR: u32 = 32;

/// The sum of what a program gave, and the blocks that ran.
#[derive(Clone, Copy)]
struct Made {
    sum: i32,
    ran: Ran,
}

/// Makes a program of `voices` voices, has `workers` workers play it on `frames` frames of noise, and reports the sum of what it
/// gives.
pub fn run_make<R: Threads + Wait + Sync, D: Desk, G: Gate + Sync>(
    rt: &R,
    alloc: Global,
    desk: &mut D,
    voices: u32,
    frames: u32,
    workers: u32,
    gate: &mut G,
) -> Result<Ran, Refusal>
    requires some { 1 ≤ voices }
    requires few { voices ≤ MOST_VOICES }
    requires workers { (1 ≤ workers) × (workers ≤ MOST_WORKERS) }
    ensures done { OnOk result (Makes voices frames workers (D.state desk.old) (D.state desk.new)) }
    ensures ran { IfOk result (λ r. MakeRan voices frames workers r.blocks r.loops r.loop_runs (G.told gate.old) (G.told gate.new)) }
    ensures stops { IfErr result (StopsMake voices frames workers (D.state desk.old) (D.state desk.new)) }
    // A report that fails comes after all blocks, and every other refusal before them.
    ensures so_far { IfErr result (λ e. ((G.told gate.new ≡ G.told gate.old) × (e ≡ WriteFault Report → ⊥))
        ⊎ ((e ≡ WriteFault Report) × MakeSoFar voices frames workers (G.told gate.old) (G.told gate.new))) }
{
    let made = made_sum(rt, alloc, voices, frames, workers, gate)?;
    match report_made(desk, voices, frames, made.sum) {
        Ok(()) => Ok(made.ran),
        Err(_) => Err(Refusal::WriteFault { role: Role::Report }),
    }
}

// The sum of what the program gives.
fn made_sum<R: Threads + Wait + Sync, G: Gate + Sync>(
    rt: &R,
    alloc: Global,
    voices: u32,
    frames: u32,
    workers: u32,
    gate: &mut G,
) -> Result<Made, Refusal>
    requires some { 1 ≤ voices }
    requires few { voices ≤ MOST_VOICES }
    requires workers { (1 ≤ workers) × (workers ≤ MOST_WORKERS) }
    ensures sum { IfOk result (λ m. HasSum voices frames m.sum) }
    ensures ran { IfOk result (λ m. MakeRan voices frames workers m.ran.blocks m.ran.loops m.ran.loop_runs (G.told gate.old) (G.told gate.new)) }
    // Its text is a program, so only memory is wanted.
    ensures none { IfErr result (λ e. e ≡ NoMemory) }
    ensures err { OnErr result (gate.new ≡ gate.old) }
{
    let playable = made_program(alloc, voices)?;
    let made = sum_on_noise(rt, alloc, &playable, voices, frames, workers, gate)?;
    Ok(made)
}

// What is played of the program of `voices` voices.
fn made_program(alloc: Global, voices: u32) -> Result<Playable, Refusal>
    requires some { 1 ≤ voices }
    requires few { voices ≤ MOST_VOICES }
    ensures made { IfOk result (λ p. (c : Compiled) × IsMade voices c × IsPlayable c p) }
    ensures one { IfOk result (λ p. p.inputs ≡ 1) }
    ensures none { IfErr result (λ e. e ≡ NoMemory) }
{
    // For the prover: the text of the voices is a program, so nothing but memory can be wanted.
    voices_are_a_program();
    let text = text_of(alloc, voices)?;
    let playable = read_playable(alloc, ProgramKind::Alone, &text)?;
    Ok(playable)
}

// The sum of what a program gives on the noise for `voices` voices, which never stops.
fn sum_on_noise<R: Threads + Wait + Sync, G: Gate + Sync>(
    rt: &R,
    alloc: Global,
    playable: &Playable,
    voices: u32,
    frames: u32,
    workers: u32,
    gate: &mut G,
) -> Result<Made, AllocError>
    requires voices { voices ≤ MOST_VOICES }
    requires workers { (1 ≤ workers) × (workers ≤ MOST_WORKERS) }
    // It is of some program, and what follows is so for each of which it is.
    requires playable { (c : Compiled) × IsPlayable c playable.now }
    requires one { playable.now.inputs ≡ 1 }
    ensures sum { IfOk result (λ m. (c : Compiled) → IsPlayable c playable.now → m.sum ≡ made_sum c voices frames) }
    ensures ran { IfOk result (λ m. (c : Compiled) → IsPlayable c playable.now → RanWhole c.diagram c.controls [] (make_sizes workers frames)
        m.ran (G.told gate.old) (G.told gate.new)) }
    ensures err { OnErr result (gate.new ≡ gate.old) }
{
    // For the prover: samples that are added one by one come to their sum.
    sums_add_up();
    let sizes = make_sizes(workers, frames);
    let ready = make_ready_graph(
        alloc,
        &playable.graph,
        playable.inputs,
        &playable.controls,
        &sizes,
    )?;
    let played = Played {
        inputs: playable.inputs,
        outputs: playable.outputs,
        controls: &playable.controls,
        changes: &[],
        sizes,
    };
    let mut tape = NoiseTape {
        left: frames,
        most: BLOCK,
        outputs: playable.outputs,
    };
    let mut noise = Noise {
        state: voices as i32,
        sum: 0,
    };
    match render_tape(rt, alloc, &played, ready, &mut tape, &mut noise, gate) {
        Ok(ran) => Ok(Made {
            sum: noise.sum,
            ran,
        }),
        Err(stop) => match stop {},
    }
}

// The sizes of a make of `frames` frames, by `workers` workers.
fn make_sizes(workers: u32, frames: u32) -> RunSizes
    ensures { result ≡ make_sizes workers frames }
{
    RunSizes {
        frames,
        block: BLOCK,
        vector: VECTOR,
        workers,
    }
}
