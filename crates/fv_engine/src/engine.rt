// The engine.

ghost use Rattle.std.specs.Prelude.{◌≡◌, ℕ, ◌*◌, ◌++◌, ◌∷◌, [], ◌<◌, ◌≤◌, length, slice_index, true, false, All, IfOk, IfSome, IsSome, Some};
ghost use Rattle.fv_base.specs.declared.limits.TheConstants.{DELAY_BUDGET, MOST_BLOCK, MOST_CHANNELS, MOST_VECTORS, MOST_WORKERS};
ghost use Rattle.fv_signal.specs.Frames.{Stream};
ghost use Rattle.fv_signal.specs.headline.Value.{Graph};
ghost use Rattle.fv_outside.specs.declared.gate.Line.{Line};
ghost use Rattle.fv_outside.specs.headline.Journal.{Told, BlockEntry};
ghost use Rattle.fv_outside.specs.Journal.{room_after};
ghost use Rattle.fv_loopcode.specs.headline.Code.{NamesHeld, NamesInput};
ghost use Rattle.fv_pool.specs.Layout.{HaveRoom};
ghost use Rattle.fv_pool.specs.Region.{cells_of};
ghost use Rattle.fv_split_plan.specs.headline.View.{lane_info, code_of};
ghost use Rattle.fv_split_plan.specs.headline.Plans.{PlanStands};
ghost use Rattle.fv_engine_tasks.specs.headline.Block.{vectors_of};
ghost use Rattle.fv_engine.specs.Stands.{StandsFor, GoesOn, SameParts, HaveLengths, StartsIn};
ghost use Rattle.fv_engine.specs.Told.{tasks_told, IsEntry, HasRoomForBlock};

use crate::crew_codes::CrewCodes;
use crate::error::NoMemory;
use crate::hold::hold;
use crate::lanes::Lanes;
use crate::make::{EngineParts, engine_parts, vectors};
use crate::plan_codes::PlanCodes;
use crate::runner::TaskRunner;
use crate::sizes::Sizes;
use fv_engine_tasks::Job;
use fv_lines::LaneState;
use fv_outside::Gate;
use fv_pool::{Layout, Region};
use fv_split_plan::Plan;
use std::alloc::Global;
use std::marker::{Model, Sync};
use std::sync::Wait;
use std::thread::Threads;

/// What became of a block: how many tasks ran, and whether one worker ran them alone where several were asked for.
#[derive(Clone, Copy, PartialEq, Eq, Debug)]
pub struct BlockReport {
    pub tasks: u64,
    pub alone: bool,
}

// Whether one worker ran a block alone where several were asked for, by whether several did.
fn is_alone(workers: u32, spread: bool) -> bool
    ensures several { workers ≡ 1 → result ≡ false }
    ensures one { result ≡ true → spread ≡ false }
{
    if spread {
        return false;
    }
    workers > 1
}

/// A plan that runs, block by block. All its lanes lie in one region, and each of its cells has a list.
#[derive(Drop)]
pub struct Engine {
    // The plan that runs.
    plan: Plan,
    // How large its blocks, vectors and frames may be, and how many workers are asked for.
    sizes: Sizes,
    // The lanes and the lists of cells, which hold what the engine stands for.
    lanes: Lanes,
    // The held values of the block, by their numbers.
    held: Vec<i32>,
    // The tasks of a block, and what runs them.
    runner: TaskRunner,
    // What several workers keep of the plan, where several run the blocks.
    crew: Option<CrewCodes>,
}

impl Model for Engine {
    ghost use Rattle.fv_engine.specs.Stands.{EngineView};

    ghost Value = { EngineView };

    ghost use Rattle.fv_engine.specs.Stored.{view_of, IsStored};

    ghost view = { view_of };

    ghost invariant = { IsStored };
}

impl Engine {
    /// An engine of this plan, by `workers` workers. A block has at most `block` frames of `channels` numbers, and is cut in
    /// vectors of `vector` frames. It takes all the memory without which its blocks cannot run.
    pub fn prepare(
        alloc: Global,
        plan: Plan,
        channels: u32,
        workers: u32,
        block: u32,
        vector: u32,
    ) -> Result<Engine, NoMemory>
        requires loops { 0 < plan.loops }
        requires channels { channels ≤ MOST_CHANNELS }
        requires inputs { (j i : ℕ) → NamesInput (code_of plan j) i → i < channels }
        requires histories { (l : ℕ) → l < length plan.lanes → (lane_info plan l).history ≤ DELAY_BUDGET }
        requires block { (1 ≤ block) × (block ≤ MOST_BLOCK) }
        requires vector { (1 ≤ vector) × (vectors_of block vector ≤ MOST_VECTORS) }
        requires workers { (1 ≤ workers) × (workers ≤ MOST_WORKERS) }
        ensures parts { IfOk result (λ e. (e.plan ≡ plan) × (e.channels ≡ channels) × (e.workers ≡ workers) × (e.block ≡ block) × (e.vector ≡ vector)) }

        // It stands for no frames yet.
        ensures stands { IfOk result (λ e. (g : Graph) (s : PlanStands g e.plan) (c : ℕ → Stream) → StandsFor e g s.names [] c) }
    {
        let EngineParts {
            lanes,
            held,
            runner,
            crew,
        } = engine_parts(alloc, &plan, workers, block, vector)?;
        let sizes = Sizes {
            channels,
            workers,
            block,
            vector,
        };
        Ok(Engine {
            plan,
            sizes,
            lanes,
            held,
            runner,
            crew,
        })
    }

    /// Plays the next frames of the input under the controls in them, and writes the frames of the output. Several workers run the
    /// block where their board is not too large and memory for it is there, and else one does; the output is the same.
    pub fn run_block<R: Threads + Wait + Sync, G: Gate + Sync>(
        &mut self,
        rt: &R,
        alloc: Global,
        frames: u32,
        input: &[i32],
        controls: &[i32],
        output: &mut [i32],
        gate: &mut G,
    ) -> BlockReport
        requires frames { (1 ≤ frames) × (frames ≤ self.old.block) }
        requires input { length input.now ≡ frames * self.old.channels }
        requires output { length output.old ≡ frames * length self.old.plan.outputs }
        requires controls { (k : ℕ) → NamesHeld self.old.plan.held k → k < length controls.now }
        ensures same { SameParts self.old self.new }

        // The output is that of the next frames, whatever frames and controls the engine stood for, and it then stands for them all.
        ensures goes_on { GoesOn self.old self.new frames input.now controls.now output.new }

        // By one call the gate learns which loops the plan has and which of them read which, how many vectors ran, and in what order; where
        // the report says that one worker ran the block alone, by that one.
        ensures told { IfSome (G.told gate.new) (λ t. (before : Told) × (G.told gate.old ≡ Some before) × (entry : BlockEntry) × IsEntry self.old frames entry
            × (t.entries ≡ before.entries ++ entry ∷ []) × (t.room ≡ room_after before.room entry)
            × (result.alone ≡ true → All (λ (line : Line). line.worker ≡ 0) entry.lines)) }

        // Where the block is within its room, it is still told afterwards.
        ensures room { IfSome (G.told gate.old) (λ t. HasRoomForBlock t.room (tasks_told self.old frames) → IsSome (G.told gate.new)) }
        ensures tasks { result.tasks ≡ self.old.plan.loops * vectors_of frames self.old.vector }
        ensures alone { self.old.workers ≡ 1 → result.alone ≡ false }
    {
        let vectors = vectors(frames, self.sizes.vector);
        self.runner.set_vectors(vectors);
        hold(&self.plan, controls, &mut self.held);
        let plan = PlanCodes { plan: &self.plan };
        let job = Job {
            plan: &plan,
            held: &self.held,
            input,
            channels: u64::from(self.sizes.channels),
            vector: self.sizes.vector,
            frames,
        };
        let spread = self.lanes.run(rt, alloc, &job, &self.crew, &mut self.runner, output, gate);
        gate.block_done(
            self.plan.loops(),
            vectors,
            self.plan.reads(),
            &self.runner.lines,
        );
        let alone = is_alone(self.sizes.workers, spread);
        BlockReport {
            tasks: self.runner.tasks.len(),
            alone,
        }
    }

    /// The region that all lanes lie in.
    pub fn region(&self) -> &Region
        ensures { cells_of result.now ≡ self.now.region }
    {
        &self.lanes.region
    }

    /// The parts of the region, one for each lane.
    pub fn layout(&self) -> &Layout
        ensures value { result.now ≡ self.now.lengths }
        ensures lanes { HaveLengths self.now.plan self.now.block result.now }
        // They lie side by side in it.
        ensures room { HaveRoom result.now self.now.region }
    {
        &self.lanes.layout
    }

    /// Where the history of a lane starts in its part.
    pub fn state(&self, lane: u64) -> LaneState
        requires { lane < length self.now.plan.lanes }
        ensures value { result.start ≡ slice_index self.now.starts lane }
        ensures inside { StartsIn (lane_info self.now.plan lane).history (slice_index self.now.lengths lane) result.start }
    {
        self.lanes.states[lane as usize]
    }
}
