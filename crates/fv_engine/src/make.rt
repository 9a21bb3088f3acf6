// What an engine is made of.

ghost use Rattle.std.specs.Prelude.{◌≡◌, ℕ, ◌^◌, ◌<◌, ◌≤◌, true, IfOk, length, map, sum};
ghost use Rattle.fv_base.specs.declared.limits.TheConstants.{DELAY_BUDGET, MOST_BLOCK, MOST_WORKERS};
ghost use Rattle.fv_lines.specs.declared.shape.LaneShape.{LaneShape as Shape};
ghost use Rattle.fv_split_plan.specs.headline.View.{lane_info, cells_info};
ghost use Rattle.fv_split_plan.specs.Rows.{lists_of};
ghost use Rattle.fv_engine_tasks.specs.headline.Block.{vectors_of};
ghost use Rattle.fv_engine_tasks.specs.Jobs.{HaveScratch};
ghost use Rattle.fv_engine_crew.specs.Contents.{parts_of};
ghost use Rattle.fv_engine.specs.Made.{AreShapes, AreLanes, BeginAsTables, IsRunner, AreEngineParts};

use crate::crew::crew_for;
use crate::crew_codes::CrewCodes;
use crate::lanes::Lanes;
use crate::runner::TaskRunner;
use fv_graph::{Core, Tasks};
use fv_lines::{BegunLane, LaneShape, LaneState};
use fv_loopcode_machine::Scratch;
use fv_pool::{Layout, Region};
use fv_split_plan::Plan;
use std::alloc::{AllocError, Global};

/// How many vectors of `vector` frames a block of `frames` frames has.
pub(crate) fn vectors(frames: u32, vector: u32) -> u32
    requires some { 1 ≤ frames }
    requires vector { 1 ≤ vector }
    ensures value { result ≡ vectors_of frames vector }
    ensures some { 1 ≤ result }
{
    ((u64::from(frames) + (u64::from(vector) - 1)) / u64::from(vector)) as u32
}

/// The shape of each lane, for blocks of at most `block` frames.
pub(crate) fn shapes(alloc: Global, plan: &Plan, block: u32) -> Result<Vec<LaneShape>, AllocError>
    requires block { (1 ≤ block) × (block ≤ MOST_BLOCK) }
    requires histories { (l : ℕ) → l < length plan.now.lanes → (lane_info plan.now l).history ≤ DELAY_BUDGET }
    ensures { IfOk result (λ v. AreShapes plan.now block v.items) }
{
    let lanes = plan.lanes();
    let mut shapes = Vec::new(alloc);
    for i in 0..lanes.len() {
        shapes.push(LaneShape::new(lanes[i].history as u32, block))?;
    }
    Ok(shapes)
}

/// The number of cells of each lane.
pub(crate) fn lengths(alloc: Global, shapes: &[LaneShape]) -> Result<Vec<u64>, AllocError>
    ensures { IfOk result (λ v. v.items ≡ map (λ (s : Shape). s.len) shapes.now) }
{
    let mut lengths = Vec::new(alloc);
    for shape in shapes {
        lengths.push(shape.len())?;
    }
    Ok(lengths)
}

/// Whether a region can have parts of these lengths. There is none of 2^63 cells or more.
pub(crate) fn can_be_had(lengths: &[u64]) -> bool
    ensures { result ≡ true → sum lengths.now < 2 ^ 63 }
{
    let mut left: u64 = (1 << 63) - 1;
    for length in lengths {
        if *length > left {
            return false;
        }
        left -= *length;
    }
    true
}

/// Scratch for each loop's code.
pub(crate) fn scratch_of(alloc: Global, plan: &Plan) -> Result<Vec<Scratch>, AllocError>
    ensures { IfOk result (λ v. HaveScratch (parts_of plan.now) v.items) }
{
    let mut scratch = Vec::new(alloc);
    for j in 0..plan.loops() {
        let one = Scratch::new(alloc, plan.code(j).len())?;
        scratch.push(one)?;
    }
    Ok(scratch)
}

/// The lists of a plan's cells, each as its table has it.
pub(crate) fn first_lists(alloc: Global, plan: &Plan) -> Result<Vec<Vec<i32>>, AllocError>
    requires { (k : ℕ) → k < length plan.now.cells → (cells_info plan.now k).table < length plan.now.tables }
    ensures { IfOk result (λ v. BeginAsTables plan.now (length plan.now.cells) (lists_of v.items)) }
{
    let cells = plan.cells();
    let mut lists = Vec::new(alloc);
    for i in 0..cells.len() {
        let mut list = Vec::new(alloc);
        list.extend_from_slice(plan.table(cells[i].table))?;
        lists.push(list)?;
    }
    Ok(lists)
}

/// The lanes of a plan, which hold zeros, and the lists of its cells.
pub(crate) fn blank_lanes(alloc: Global, plan: &Plan, block: u32) -> Result<Lanes, AllocError>
    requires block { (1 ≤ block) × (block ≤ MOST_BLOCK) }
    requires histories { (l : ℕ) → l < length plan.now.lanes → (lane_info plan.now l).history ≤ DELAY_BUDGET }
    requires tables { (k : ℕ) → k < length plan.now.cells → (cells_info plan.now k).table < length plan.now.tables }
    ensures { IfOk result (λ lanes. AreLanes plan.now block lanes) }
{
    let shapes = shapes(alloc, plan, block)?;
    let lengths = lengths(alloc, &shapes)?;
    if !can_be_had(&lengths) {
        return Err(AllocError);
    }
    let layout = Layout::new(alloc, &lengths)?;
    let region = Region::new(alloc, layout.total())?;
    let states = Vec::from_elem(alloc, LaneState { start: 0 }, shapes.len())?;
    let begun = Vec::from_elem(alloc, BegunLane::blank(), shapes.len())?;
    let lists = first_lists(alloc, plan)?;
    Ok(Lanes {
        region,
        layout,
        shapes,
        states,
        begun,
        lists,
    })
}

/// What runs the tasks of a plan, for blocks of at most `most` vectors.
pub(crate) fn runner_for(alloc: Global, plan: &Plan, most: u32) -> Result<TaskRunner, AllocError>
    requires some_loop { 0 < plan.now.loops }
    requires some_vector { 0 < most }
    ensures { IfOk result (λ r. IsRunner plan.now most r) }
{
    let tasks = Tasks::new(alloc, plan.loops(), most, plan.reads())?;
    let core = Core::new(alloc, &tasks, 1)?;
    let scratch = scratch_of(alloc, plan)?;
    let kept = Vec::new(alloc);
    let lines = Vec::with_capacity(alloc, tasks.len() as usize)?;
    Ok(TaskRunner {
        tasks,
        core,
        scratch,
        kept,
        lines,
    })
}

/// What an engine works with beside its plan: the lanes, the held values of a block, what runs the tasks, and what a crew needs.
#[derive(Drop)]
pub(crate) struct EngineParts {
    pub(crate) lanes: Lanes,
    pub(crate) held: Vec<i32>,
    pub(crate) runner: TaskRunner,
    pub(crate) crew: Option<CrewCodes>,
}

/// What an engine of this plan works with. They are made by a call of their own, which lets go of them alone where memory ends, and not of
/// the plan.
pub(crate) fn engine_parts(
    alloc: Global,
    plan: &Plan,
    workers: u32,
    block: u32,
    vector: u32,
) -> Result<EngineParts, AllocError>
    requires loops { 0 < plan.now.loops }
    requires histories { (l : ℕ) → l < length plan.now.lanes → (lane_info plan.now l).history ≤ DELAY_BUDGET }
    requires tables { (k : ℕ) → k < length plan.now.cells → (cells_info plan.now k).table < length plan.now.tables }
    requires block { (1 ≤ block) × (block ≤ MOST_BLOCK) }
    requires vector { 1 ≤ vector }
    requires workers { (1 ≤ workers) × (workers ≤ MOST_WORKERS) }
    ensures { IfOk result (λ parts. AreEngineParts plan.now workers block vector parts) }
{
    let lanes = blank_lanes(alloc, plan, block)?;
    let held = Vec::from_elem(alloc, 0, plan.held().len() as usize)?;
    let runner = runner_for(alloc, plan, vectors(block, vector))?;
    let crew = crew_for(alloc, plan, &runner.tasks, workers)?;
    Ok(EngineParts {
        lanes,
        held,
        runner,
        crew,
    })
}
