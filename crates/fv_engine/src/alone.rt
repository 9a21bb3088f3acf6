// A block's tasks by one worker.

ghost use Rattle.std.specs.Prelude.{◌≡◌, ℕ, ◌+◌, ◌*◌, ◌<◌, length, [], All, slice_index_or, pos};
ghost use Rattle.fv_outside.specs.declared.gate.Line.{Line};
ghost use Rattle.fv_engine_tasks.specs.Block.{IsReal};
ghost use Rattle.fv_engine_tasks.specs.Jobs.{IsJob, block_of, HaveScratch};
ghost use Rattle.fv_engine_tasks.specs.Underway.{EndsBlock};
ghost use Rattle.fv_engine_tasks.specs.Outputs.{sample_of};
ghost use Rattle.fv_engine.specs.inner.Kept.{state_of};
ghost use Rattle.fv_engine.specs.inner.Opening.{IsSameRunner};

use crate::kept::Kept;
use crate::lane_store::LaneStore;
use crate::runner::TaskRunner;
use fv_engine_tasks::{Codes, Job, copy_outputs, run_tasks};
use fv_outside::Gate;
use fv_split_plan::Plan;

/// Runs a block's tasks one after another, over these lanes, the plan's tables and the lists of its cells. Then copies the lanes of
/// the outputs.
pub(crate) fn alone<P: Codes, L: LaneStore, G: Gate>(
    job: &Job<'_, '_, '_, P>,
    plan: &Plan,
    lanes: &mut L,
    lists: &mut [Vec<i32>],
    runner: &mut TaskRunner,
    output: &mut [i32],
    gate: &G,
)
    requires valid { L.is_valid lanes.old }
    requires lanes { length (L.lanes lanes.old) ≡ (P.parts job.now.plan.now).lanes }
    requires lists { length lists.old ≡ (P.parts job.now.plan.now).cells }
    requires job { IsJob (block_of P.parts job.now) runner.old.tasks.tasks }
    requires real { IsReal (block_of P.parts job.now) (state_of plan.now (L.lanes lanes.old) lists.old) }
    requires scratch { HaveScratch (P.parts job.now.plan.now) runner.old.scratch.items }
    requires lines { runner.old.lines.items ≡ [] }
    requires there { All (λ l. l < (P.parts job.now.plan.now).lanes) plan.now.outputs }
    requires output { length output.old ≡ job.now.frames * length plan.now.outputs }
    ensures ends { EndsBlock runner.old.tasks.tasks (block_of P.parts job.now) (state_of plan.now (L.lanes lanes.old) lists.old)
        (state_of plan.now (L.lanes lanes.new) lists.new) runner.new.lines.items }
    ensures who { All (λ (line : Line). line.worker ≡ 0) runner.new.lines.items }
    ensures valid { L.is_valid lanes.new }
    ensures kept { L.rest lanes.new ≡ L.rest lanes.old }
    ensures samples { (t j : ℕ) → t < job.now.frames → j < length plan.now.outputs
        → slice_index_or output.new (t * length plan.now.outputs + j) (pos 0) ≡ sample_of (L.lanes lanes.new) t (slice_index_or plan.now.outputs j 0) }
    ensures runner { IsSameRunner (P.parts job.now.plan.now) runner.old runner.new }
{
    runner.begin();
    let mut kept = Kept { plan, lanes, lists };
    run_tasks(
        job,
        &runner.tasks,
        &mut runner.core,
        &mut runner.scratch,
        &mut runner.lines,
        &mut kept,
        gate,
    );
    copy_outputs(plan.outputs(), u64::from(job.frames), &kept, output);
}
