// Engines of graphs, and their runs.

ghost use Rattle.std.specs.Prelude.{◌≡◌, ◌*◌, ◌^◌, ◌<◌, ◌≤◌, IfOk, IsTrue, length};
ghost use Rattle.fv_base.specs.declared.limits.TheConstants.{MOST_BLOCK, MOST_CHANNELS, MOST_VECTORS, MOST_WORKERS};
ghost use Rattle.fv_split_plan.specs.headline.Plans.{PlanNames};
ghost use Rattle.fv_engine.specs.Block.{vectors_of};
ghost use Rattle.fv_engine_tests.specs.Runs.{IsSquare};

use crate::may::may_be_prepared;
use fv_analysis::{largest_delays, rates};
use fv_base::limits::{MOST_BLOCK, MOST_CHANNELS, MOST_VECTORS, MOST_WORKERS};
use fv_engine::{Engine, NoMemory};
use fv_outside::Gate;
use fv_signal::Graph;
use fv_split::split;
use fv_split_plan::Plan;
use std::alloc::{AllocError, Global};
use std::marker::Sync;
use std::process::Abort;
use std::sync::Wait;
use std::thread::Threads;

/// How many numbers a frame has, in and out, how many frames a block and a vector have at most, and how many workers run a block.
#[derive(Clone, Copy)]
pub(crate) struct Sizes {
    pub(crate) width: u32,
    pub(crate) block: u32,
    pub(crate) vector: u32,
    pub(crate) workers: u32,
}

impl Sizes {
    // Whether an engine may have these sizes.
    fn are_allowed(self) -> bool
        ensures width { IsTrue result → self.width ≤ MOST_CHANNELS }
        ensures block { IsTrue result → (1 ≤ self.block) × (self.block ≤ MOST_BLOCK) }
        ensures vector { IsTrue result → (1 ≤ self.vector) × (vectors_of self.block self.vector ≤ MOST_VECTORS) }
        ensures workers { IsTrue result → (1 ≤ self.workers) × (self.workers ≤ MOST_WORKERS) }
    {
        if self.width > MOST_CHANNELS || self.workers == 0 || self.workers > MOST_WORKERS {
            return false;
        }
        if self.block == 0 || self.block > MOST_BLOCK || self.vector == 0 {
            return false;
        }
        let vectors = (u64::from(self.block) + (u64::from(self.vector) - 1))
            / u64::from(self.vector);
        vectors <= u64::from(MOST_VECTORS)
    }
}

/// How many tasks were reported, and how many blocks that ran alone.
#[derive(Clone, Copy, PartialEq, Eq, Debug)]
pub(crate) struct Reported {
    pub(crate) tasks: u64,
    pub(crate) alone: u64,
}

// The plan of a graph.
fn plan_of(alloc: Global, graph: &Graph) -> Result<Plan, AllocError>
    ensures { IfOk result (λ plan. PlanNames graph.now plan) }
{
    let rates = rates(alloc, graph)?;
    let histories = largest_delays(alloc, graph)?;
    split(alloc, graph, &rates, &histories)
}

/// An engine of a graph with as many inputs as outputs and with `controls` controls. Fails where it may not be prepared.
pub(crate) fn engine_of(
    rt: &impl Abort,
    alloc: Global,
    graph: &Graph,
    sizes: Sizes,
    controls: usize,
) -> Result<Engine, NoMemory>
    ensures block { IfOk result (λ e. 1 ≤ sizes.block) }
    ensures square { IfOk result (λ e. IsSquare e sizes.width sizes.block controls) }
{
    let allowed = sizes.are_allowed();
    assert!(rt; allowed, "no such sizes");
    let plan = plan_of(alloc, graph)?;
    let may = may_be_prepared(graph, &plan, sizes.width, controls);
    if !may {
        panic!(rt; "no engine");
    }
    let engine = Engine::prepare(
        alloc,
        plan,
        sizes.width,
        sizes.workers,
        sizes.block,
        sizes.vector,
    )?;
    Ok(engine)
}

/// Runs as many frames as there are in the input, block by block, and says what was reported.
pub(crate) fn play<R: Threads + Wait + Sync, G: Gate + Sync>(
    rt: &R,
    alloc: Global,
    engine: &mut Engine,
    sizes: Sizes,
    controls: &[i32],
    frames: u32,
    input: &[i32],
    output: &mut [i32],
    gate: &mut G,
) -> Reported
    requires engine { IsSquare engine.old sizes.width sizes.block (length controls.now) }
    requires block { 1 ≤ sizes.block }
    requires input { length input.now ≡ frames * sizes.width }
    requires output { length output.old ≡ frames * sizes.width }
    ensures { IsSquare engine.new sizes.width sizes.block (length controls.now) }
{
    let width = sizes.width as usize;
    let mut reported = Reported { tasks: 0, alone: 0 };
    let mut frame = 0u32;
    'playing: while frame < frames {
        let count = sizes.block.min(frames - frame);
        let start = frame as usize * width;
        let end = start + count as usize * width;
        let heard = &input[start..end];
        let report = engine.run_block(
            rt,
            alloc,
            count,
            heard,
            controls,
            &mut output[start..end],
            gate,
        );
        reported.tasks = reported.tasks.wrapping_add(report.tasks);
        reported.alone = reported.alone.wrapping_add(u64::from(report.alone));
        frame += count;
    }
    reported
}

/// Runs a graph without controls, block by block, and says what was reported.
pub(crate) fn play_graph<R: Abort + Threads + Wait + Sync, G: Gate + Sync>(
    rt: &R,
    alloc: Global,
    graph: &Graph,
    sizes: Sizes,
    frames: u32,
    input: &[i32],
    output: &mut [i32],
    gate: &mut G,
) -> Result<Reported, NoMemory>
    requires input { length input.now ≡ frames * sizes.width }
    requires output { length output.old ≡ frames * sizes.width }
{
    let mut engine = engine_of(rt, alloc, graph, sizes, 0)?;
    let reported = play(
        rt,
        alloc,
        &mut engine,
        sizes,
        &[],
        frames,
        input,
        output,
        gate,
    );
    drop(engine);
    Ok(reported)
}
