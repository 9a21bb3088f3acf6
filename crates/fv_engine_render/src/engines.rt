// The engine of a graph.

ghost use Rattle.std.specs.Prelude.{◌≡◌, ◌≤◌, IfOk, length};
ghost use Rattle.fv_base.specs.declared.limits.TheConstants.{DELAY_BUDGET, MOST_CHANNELS};
ghost use Rattle.fv_signal.specs.headline.Value.{AreAtMost};
ghost use Rattle.fv_engine_render.specs.Plans.{IsPlanned, FitsEngine, IsNew};
ghost use Rattle.fv_engine_render.specs.inner.Plans.{NamesOnly};
ghost use Rattle.fv_engine_render.specs.Render.{CanHave};

use crate::blocks::RunSizes;
use fv_analysis::{largest_delays, rates};
use fv_engine::{Engine, NoMemory};
use fv_signal::Graph;
use fv_split::split;
use fv_split_plan::{Plan, histories_within, outputs_need_loops};
use std::alloc::{AllocError, Global};

/// A plan of a graph that names only the first `channels` channels and the first `controls` controls.
pub(crate) fn plan_of(
    alloc: Global,
    graph: &Graph,
    channels: u32,
    controls: usize,
) -> Result<Plan, AllocError>
    requires some { 1 ≤ length graph.now.outputs }
    requires names { NamesOnly graph.now channels controls }
    requires short { AreAtMost DELAY_BUDGET graph.now }
    ensures { IfOk result (IsPlanned graph.now channels controls) }
{
    // For the prover: a graph with outputs has a loop, and its histories are short enough for an engine.
    outputs_need_loops();
    histories_within();
    let rates = rates(alloc, graph)?;
    let histories = largest_delays(alloc, graph)?;
    let plan = split(alloc, graph, &rates, &histories)?;
    Ok(plan)
}

/// An engine of this plan.
pub(crate) fn engine(
    alloc: Global,
    plan: Plan,
    channels: u32,
    sizes: &RunSizes,
) -> Result<Engine, AllocError>
    requires fits { FitsEngine channels plan }
    requires few { channels ≤ MOST_CHANNELS }
    requires sizes { CanHave sizes.now }
    ensures plan { IfOk result (λ e. e.plan ≡ plan) }
    ensures sizes { IfOk result (λ e. (e.channels ≡ channels) × (e.block ≡ sizes.now.block) × (e.vector ≡ sizes.now.vector)
        × (e.workers ≡ sizes.now.workers)) }
    ensures stands { IfOk result IsNew }
{
    match Engine::prepare(
        alloc,
        plan,
        channels,
        sizes.workers,
        sizes.block,
        sizes.vector,
    ) {
        Ok(engine) => Ok(engine),
        Err(NoMemory) => Err(AllocError),
    }
}
