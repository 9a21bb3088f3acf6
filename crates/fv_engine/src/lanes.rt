// The lanes and the cells of an engine.

ghost use Rattle.fv_pool.specs.Region.{cells_of};
ghost use Rattle.fv_lines.specs.Solo.{AreLists, AreHeld};

use crate::crew_codes::CrewCodes;
use crate::crew_size::{has_board, workers_for};
use crate::over::over;
use crate::plan_codes::PlanCodes;
use crate::runner::TaskRunner;
use fv_engine_crew::{SpreadBlock, run_spread};
use fv_engine_tasks::{Codes, Job};
use fv_lines::{BegunLane, LaneShape, LaneState};
use fv_outside::Gate;
use fv_pool::{Layout, Region};
use fv_split_plan::Plan;
use std::alloc::Global;
use std::marker::Sync;
use std::sync::Wait;
use std::thread::Threads;

/// The lanes of an engine, and the lists of its plan's cells.
#[derive(Drop)]
pub(crate) struct Lanes {
    // The region that all lanes lie in.
    pub(crate) region: Region,
    // Where the part of each lane lies in the region.
    pub(crate) layout: Layout,
    // By lane: its shape.
    pub(crate) shapes: Vec<LaneShape>,
    // By lane: where its history starts in its part.
    pub(crate) states: Vec<LaneState>,
    // By lane: a record for the one worker that runs a block alone.
    pub(crate) begun: Vec<BegunLane>,
    // By cells: the items.
    pub(crate) lists: Vec<Vec<i32>>,
    ghost entries: { AreLists layout shapes.items states.items begun.items (cells_of region) },
    ghost held: { AreHeld layout shapes.items states.items },
}

impl Lanes {
    ghost use Rattle.std.specs.Prelude.{◌≡◌, ℕ, ◌*◌, ◌<◌, ◌≤◌, [], length, All, IfSome, true, false};
    ghost use Rattle.fv_outside.specs.declared.gate.Line.{Line};
    ghost use Rattle.fv_engine_tasks.specs.Jobs.{block_of};
    ghost use Rattle.fv_engine_crew.specs.Contents.{parts_of};
    ghost use Rattle.fv_engine.specs.Crews.{IsCrewOf};
    ghost use Rattle.fv_engine.specs.inner.Opening.{opening_of, MayRun, RanOver, AreSameLanes, IsSameRunner};

    /// Runs a block's tasks over the lanes, by several workers where a crew has codes, their board is not too large and memory is there, and
    /// else one after another. Copies the lanes of the outputs. Returns whether several did.
    pub(crate) fn run<R: Threads + Wait + Sync, G: Gate + Sync>(
        &mut self,
        rt: &R,
        alloc: Global,
        job: &Job<'_, '_, '_, PlanCodes<'_>>,
        crew: &Option<CrewCodes>,
        runner: &mut TaskRunner,
        output: &mut [i32],
        gate: &G,
    ) -> bool
        requires may { MayRun (block_of (λ p. parts_of p.plan.now) job.now) job.now.plan.now.plan.now.tables self.old runner.old }
        requires crew { IfSome crew.now (λ c. IsCrewOf job.now.plan.now.plan.now runner.old.tasks.tasks c) }
        requires there { All (λ l. l < length job.now.plan.now.plan.now.lanes) job.now.plan.now.plan.now.outputs }
        requires output { length output.old ≡ job.now.frames * length job.now.plan.now.plan.now.outputs }
        ensures ran { RanOver runner.old.tasks.tasks (block_of (λ p. parts_of p.plan.now) job.now) job.now.plan.now.plan.now.tables self.old self.new
            runner.new.lines.items job.now.plan.now.plan.now.outputs output.new }
        // By no more workers than there are.
        ensures who { (n : ℕ) → 1 ≤ n → IfSome crew.now (λ c. c.workers ≤ n) → All (λ (line : Line). line.worker < n) runner.new.lines.items }
        ensures alone { result ≡ false → All (λ (line : Line). line.worker ≡ 0) runner.new.lines.items }
        ensures lanes { AreSameLanes self.old self.new }
        ensures runner { IsSameRunner (parts_of job.now.plan.now.plan.now) runner.old runner.new }
    {
        let spread = self.run_spread(rt, alloc, job, crew, runner, output, gate);
        if spread {
            return true;
        }
        self.run_alone(job, job.plan.plan, runner, output, gate);
        false
    }

    // Runs a block by several workers. Where it is false no task ran, each lane has the history that it had, and each cells its
    // items.
    fn run_spread<R: Threads + Wait + Sync, G: Gate + Sync>(
        &mut self,
        rt: &R,
        alloc: Global,
        job: &Job<'_, '_, '_, PlanCodes<'_>>,
        crew: &Option<CrewCodes>,
        runner: &mut TaskRunner,
        output: &mut [i32],
        gate: &G,
    ) -> bool
        requires may { MayRun (block_of (λ p. parts_of p.plan.now) job.now) job.now.plan.now.plan.now.tables self.old runner.old }
        requires crew { IfSome crew.now (λ c. IsCrewOf job.now.plan.now.plan.now runner.old.tasks.tasks c) }
        requires there { All (λ l. l < length job.now.plan.now.plan.now.lanes) job.now.plan.now.plan.now.outputs }
        requires output { length output.old ≡ job.now.frames * length job.now.plan.now.plan.now.outputs }
        ensures ran { result ≡ true → RanOver runner.old.tasks.tasks (block_of (λ p. parts_of p.plan.now) job.now) job.now.plan.now.plan.now.tables
            self.old self.new runner.new.lines.items job.now.plan.now.plan.now.outputs output.new }
        ensures who { result ≡ true → (n : ℕ) → IfSome crew.now (λ c. c.workers ≤ n) → All (λ (line : Line). line.worker < n) runner.new.lines.items }
        ensures left { result ≡ false → let tables = job.now.plan.now.plan.now.tables in
            opening_of tables self.new job.now.frames ≡ opening_of tables self.old job.now.frames }
        ensures untold { result ≡ false → runner.new.lines.items ≡ [] }
        ensures lanes { AreSameLanes self.old self.new }
        ensures runner { IsSameRunner (parts_of job.now.plan.now.plan.now) runner.old runner.new }
    {
        let Some(crew) = crew else {
            return false;
        };
        if !has_board(&runner.tasks) {
            return false;
        }
        // Called for its clause: there is a line for each task.
        let _vectors = runner.tasks.vectors();
        let block = SpreadBlock {
            plan: job.plan.plan,
            tasks: &runner.tasks,
            codes: &crew.codes,
            counts: &crew.counts,
            places: &crew.places,
            shapes: &self.shapes,
            held: job.held,
            input: job.input,
            channels: job.channels,
            vector: job.vector,
            frames: job.frames,
            workers: workers_for(crew.workers, crew.steps, job.frames),
        };
        run_spread(
            rt,
            alloc,
            &block,
            self.region.cells(),
            &mut self.states,
            &mut self.lists,
            &mut runner.lines,
            output,
            &mut runner.kept,
            gate,
        )
    }

    // Runs a block by one worker.
    fn run_alone<P: Codes, G: Gate>(
        &mut self,
        job: &Job<'_, '_, '_, P>,
        plan: &Plan,
        runner: &mut TaskRunner,
        output: &mut [i32],
        gate: &G,
    )
        requires may { MayRun (block_of P.parts job.now) plan.now.tables self.old runner.old }
        requires there { All (λ l. l < (P.parts job.now.plan.now).lanes) plan.now.outputs }
        requires output { length output.old ≡ job.now.frames * length plan.now.outputs }
        ensures ran { RanOver runner.old.tasks.tasks (block_of P.parts job.now) plan.now.tables self.old self.new runner.new.lines.items
            plan.now.outputs output.new }
        ensures who { All (λ (line : Line). line.worker ≡ 0) runner.new.lines.items }
        ensures lanes { AreSameLanes self.old self.new }
        ensures runner { IsSameRunner (P.parts job.now.plan.now) runner.old runner.new }
    {
        over(
            job,
            plan,
            self.region.cells(),
            &self.layout,
            &self.shapes,
            &mut self.states,
            &mut self.begun,
            &mut self.lists,
            runner,
            output,
            gate,
        );
    }
}
