// A block's tasks over the cells of a region. It takes plain loans, since of these a caller knows what they end with.

ghost use Rattle.std.specs.Prelude.{◌≡◌, ℕ, ◌*◌, ◌<◌, length, [], All};
ghost use Rattle.fv_outside.specs.declared.gate.Line.{Line};
ghost use Rattle.fv_lines.specs.Solo.{AreLists, AreHeld, AreFramed};
ghost use Rattle.fv_engine_tasks.specs.Block.{IsReal};
ghost use Rattle.fv_engine_tasks.specs.Jobs.{IsJob, block_of, HaveScratch};
ghost use Rattle.fv_engine_crew.specs.Ran.{Ran};
ghost use Rattle.fv_engine.specs.inner.Opening.{opening_over, IsSameRunner};

use crate::alone::alone;
use crate::runner::TaskRunner;
use fv_engine_tasks::{Codes, Job};
use fv_lines::{BegunLane, LaneShape, LaneState, Solo};
use fv_outside::Gate;
use fv_pool::Layout;
use fv_split_plan::Plan;

/// Runs a block's tasks one after another, over the lanes in these cells, the plan's tables and these lists of its cells. Then
/// copies the lanes of the outputs.
pub(crate) fn over<P: Codes, G: Gate>(
    job: &Job<'_, '_, '_, P>,
    plan: &Plan,
    cells: &mut [i32],
    layout: &Layout,
    shapes: &[LaneShape],
    states: &mut [LaneState],
    begun: &mut [BegunLane],
    lists: &mut [Vec<i32>],
    runner: &mut TaskRunner,
    output: &mut [i32],
    gate: &G,
)
    requires lists { AreLists layout.now shapes.now states.old begun.old cells.old }
    requires lanes { AreHeld layout.now shapes.now states.old }
    requires framed { AreFramed layout.now shapes.now job.now.frames }
    requires count { length layout.now ≡ (P.parts job.now.plan.now).lanes }
    requires count_cells { length lists.old ≡ (P.parts job.now.plan.now).cells }
    requires job { IsJob (block_of P.parts job.now) runner.old.tasks.tasks }
    requires real { IsReal (block_of P.parts job.now)
        (opening_over plan.now.tables layout.now shapes.now states.old job.now.frames cells.old lists.old) }
    requires scratch { HaveScratch (P.parts job.now.plan.now) runner.old.scratch.items }
    requires lines { runner.old.lines.items ≡ [] }
    requires there { All (λ l. l < (P.parts job.now.plan.now).lanes) plan.now.outputs }
    requires output { length output.old ≡ job.now.frames * length plan.now.outputs }
    ensures ran { Ran runner.old.tasks.tasks (block_of P.parts job.now) layout.now shapes.now
        (opening_over plan.now.tables layout.now shapes.now states.old job.now.frames cells.old lists.old)
        cells.new states.new lists.new runner.new.lines.items plan.now.outputs output.new }
    ensures who { All (λ (line : Line). line.worker ≡ 0) runner.new.lines.items }
    ensures lists { AreLists layout.now shapes.now states.new begun.new cells.new }
    ensures lanes { AreHeld layout.now shapes.now states.new }
    ensures runner { IsSameRunner (P.parts job.now.plan.now) runner.old runner.new }
{
    let mut solo = Solo::begin(cells, layout, shapes, states, begun, job.frames);
    alone(job, plan, &mut solo, lists, runner, output, gate);
    solo.finish();
}
