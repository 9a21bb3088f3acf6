// The tasks of a block, one after another by one worker.

ghost use Rattle.std.specs.Prelude.{◌≡◌, ℕ, suc, ◌+◌, ◌-◌, ◌*◌, ◌<◌, ◌≤◌, true, All, length, List, [], ◌∷◌, ◌++◌, set, vec_capacity, Some, None};
ghost use Rattle.fv_loopcode.specs.Words.{argument};
ghost use Rattle.fv_outside.specs.Tasks.{task_count};
ghost use Rattle.fv_outside.specs.declared.gate.Line.{Line};
ghost use Rattle.fv_graph.specs.Graph.{net_of, feeds_of};
ghost use Rattle.fv_graph.specs.Core.{is_legal, after, deque_of, is_done};
ghost use Rattle.fv_graph.specs.Ends.{back_of};
ghost use Rattle.fv_graph.specs.Ready.{TakesReady};
ghost use Rattle.fv_loopcode.specs.headline.State.{State};
ghost use Rattle.fv_loopcode.specs.headline.Code.{ran};
ghost use Rattle.fv_loopcode.specs.Code.{MayRun, frame_of, IsWithin};
ghost use Rattle.fv_loopcode.specs.Blocks.{before};
ghost use Rattle.fv_engine_tasks.specs.Block.{IsReal};
ghost use Rattle.fv_engine_tasks.specs.Jobs.{IsJob, block_of, ServeAll, left_to_do};
ghost use Rattle.fv_engine_tasks.specs.Events.{IsFree, Runs, Owes, KeepsCore};
ghost use Rattle.fv_engine_tasks.specs.Underway.{IsUnderway, EndsBlock};
ghost use Rattle.fv_engine_tasks.specs.inner.Lines.{line_of};

use crate::codes::Codes;
use fv_graph::{Core, Event, Tasks};
use fv_loopcode::{Store, task_is_free};
use fv_loopcode_machine::{Scratch, run};
use fv_outside::{Gate, Line, Task};

/// What the tasks of a block work on.
#[derive(Drop)]
pub struct Job<'p, 'h, 'i, P> {
    /// The codes of the plan's loops.
    pub plan: &'p P,
    /// The held values, by their numbers.
    pub held: &'h [i32],
    /// The input: `frames` frames of `channels` numbers, one after another.
    pub input: &'i [i32],
    /// How many numbers a frame of the input has.
    pub channels: u64,
    /// How many frames a vector has; the last one may be shorter.
    pub vector: u32,
    /// How many frames the block has.
    pub frames: u32,
}

// Runs the code of one task.
fn run_task<P: Codes, S: Store>(
    job: &Job<'_, '_, '_, P>,
    task: Task,
    scratches: &mut [Scratch],
    store: &mut S,
)
    requires valid { S.is_valid store.old }
    requires there { task.loop_no < (P.parts job.now.plan.now).count }
    requires inside { task.vector * job.now.vector < job.now.frames }
    requires scratch { ServeAll (P.parts job.now.plan.now) (argument job.now.held.now) scratches.old }
    requires within { All (λ s. IsWithin (length job.now.held.now) job.now.channels s)
        ((P.parts job.now.plan.now).loops.code task.loop_no) }
    requires input { job.now.frames * job.now.channels ≤ length job.now.input.now }
    requires may { MayRun ((P.parts job.now.plan.now).loops.code task.loop_no) (argument job.now.held.now)
        (frame_of job.now.input.now job.now.channels) (before job.now.vector job.now.frames task.vector)
        (before job.now.vector job.now.frames (suc task.vector) - before job.now.vector job.now.frames task.vector)
        (S.state store.old) }
    ensures state { S.state store.new ≡ ran ((P.parts job.now.plan.now).loops.code task.loop_no) (argument job.now.held.now)
        (frame_of job.now.input.now job.now.channels) (before job.now.vector job.now.frames task.vector)
        (before job.now.vector job.now.frames (suc task.vector) - before job.now.vector job.now.frames task.vector)
        (S.state store.old) }
    ensures valid { S.is_valid store.new }
    ensures kept { S.rest store.new ≡ S.rest store.old }
    ensures scratch { ServeAll (P.parts job.now.plan.now) (argument job.now.held.now) scratches.new }
{
    let code = job.plan.code(task.loop_no);
    let from = u64::from(task.vector) * u64::from(job.vector);
    let count = u64::from(job.vector).min(u64::from(job.frames) - from);
    run(
        code,
        job.held,
        job.input,
        job.channels,
        from,
        count,
        &mut scratches[task.loop_no as usize],
        store,
    );
}

// Takes a task for the worker.
fn take(core: &mut Core, tasks: &Tasks, t: u64)
    requires same { core.old.tasks ≡ tasks.now.tasks }
    requires free { IsFree core.old.now }
    requires back { back_of (deque_of core.old.now 0) ≡ Some t }
    ensures kept { KeepsCore core.old core.new }
    ensures ready { TakesReady tasks.now.tasks core.old.now t }
    ensures runs { Runs core.new.now t }
    ensures done { core.new.now.done ≡ core.old.now.done }
{
    // It is legal, so there is no error.
    let _ = core.step(tasks, Event::Take { worker: 0, task: t });
}

// Notes that the worker has done its task, and owes what it feeds.
fn finish(core: &mut Core, tasks: &Tasks, t: u64)
    requires same { core.old.tasks ≡ tasks.now.tasks }
    requires runs { Runs core.old.now t }
    ensures kept { KeepsCore core.old core.new }
    ensures owes { Owes core.new.now (feeds_of tasks.now.tasks t) }
    ensures done { core.new.now.done ≡ set core.old.now.done t true }
{
    core.finish(tasks, 0, t);
}

// Notes that the worker arrives at an edge.
fn arrive(core: &mut Core, tasks: &Tasks, edge: u64)
    requires same { core.old.tasks ≡ tasks.now.tasks }
    requires owes { (es : List ℕ) × Owes core.old.now (edge ∷ es) }
    ensures kept { KeepsCore core.old core.new }
    ensures owes { (es : List ℕ) → Owes core.old.now (edge ∷ es) → Owes core.new.now es }
    ensures done { core.new.now.done ≡ core.old.now.done }
{
    core.arrive(tasks, 0, edge);
}

// Notes that the worker arrives at all edges that it owes.
fn arrive_all(core: &mut Core, tasks: &Tasks, t: u64)
    requires same { core.old.tasks ≡ tasks.now.tasks }
    requires task { t < task_count tasks.now.tasks }
    requires owes { Owes core.old.now (feeds_of tasks.now.tasks t) }
    ensures kept { KeepsCore core.old core.new }
    ensures free { IsFree core.new.now }
    ensures done { core.new.now.done ≡ core.old.now.done }
{
    let feeds = tasks.feeds(t);
    for i in 0..feeds.len() {
        arrive(core, tasks, feeds[i]);
    }
}

// Does one task: takes it, runs its code, and arrives at what it feeds. Returns it.
fn turn<P: Codes, S: Store, G: Gate>(
    job: &Job<'_, '_, '_, P>,
    tasks: &Tasks,
    core: &mut Core,
    scratches: &mut [Scratch],
    store: &mut S,
    gate: &G,
    t: u64,
) -> Task
    requires same { core.old.tasks ≡ tasks.now.tasks }
    requires back { back_of (deque_of core.old.now 0) ≡ Some t }
    requires job { IsJob (block_of P.parts job.now) tasks.now.tasks }
    requires scratch { ServeAll (P.parts job.now.plan.now) (argument job.now.held.now) scratches.old }
    requires valid { S.is_valid store.old }
    requires underway { (first : State) × (lines : List Line) × IsReal (block_of P.parts job.now) first
        × IsUnderway tasks.now.tasks (block_of P.parts job.now) first core.old.now (S.state store.old) lines }
    ensures core { KeepsCore core.old core.new }
    ensures kept { S.rest store.new ≡ S.rest store.old }
    ensures valid { S.is_valid store.new }
    ensures scratch { ServeAll (P.parts job.now.plan.now) (argument job.now.held.now) scratches.new }
    // The journal has its line more.
    ensures underway { (first : State) (lines : List Line) → IsReal (block_of P.parts job.now) first
        → IsUnderway tasks.now.tasks (block_of P.parts job.now) first core.old.now (S.state store.old) lines
        → IsUnderway tasks.now.tasks (block_of P.parts job.now) first core.new.now (S.state store.new) (lines ++ line_of result (length lines) ∷ []) }
    ensures less { left_to_do core.new.now.done < left_to_do core.old.now.done }
{
    // For the prover: where all that the task reads is done, its lanes and cells hold what they are to hold, so it may run.
    task_is_free();
    take(core, tasks, t);
    let task = tasks.task(t);
    gate.at(0, task);
    run_task(job, task, scratches, store);
    finish(core, tasks, t);
    arrive_all(core, tasks, t);
    task
}

// Writes the line of a task that worker 0 ran into the journal.
fn note(lines: &mut Vec<Line>, task: Task)
    requires room { length lines.old.items < vec_capacity lines.old }
    ensures lines { lines.new.items ≡ lines.old.items ++ line_of task (length lines.old.items) ∷ [] }
    ensures room { vec_capacity lines.new ≡ vec_capacity lines.old }
{
    let start = 2 * lines.len() as u64;
    lines.push_reserved(Line {
        task,
        worker: 0,
        start,
        finish: start + 1,
    });
}

// Notes that the worker leaves: all is done.
fn leave(core: &mut Core, tasks: &Tasks)
    requires same { core.old.tasks ≡ tasks.now.tasks }
    requires one { core.old.workers ≡ 1 }
    requires free { IsFree core.old.now }
    requires empty { back_of (deque_of core.old.now 0) ≡ None }
    ensures kept { KeepsCore core.old core.new }
    ensures done { (t : ℕ) → t < task_count tasks.now.tasks → is_done core.old.now t ≡ true }
{
    // It is legal, so there is no error.
    let _ = core.step(tasks, Event::Leave { worker: 0 });
}

/// Runs all tasks of a block, each after all that it reads, each in the scratch of its loop. The gate sees each before it runs, and the
/// lines are the block's journal.
pub fn run_tasks<P: Codes, S: Store, G: Gate>(
    job: &Job<'_, '_, '_, P>,
    tasks: &Tasks,
    core: &mut Core,
    scratches: &mut [Scratch],
    lines: &mut Vec<Line>,
    store: &mut S,
    gate: &G,
)
    requires same { core.old.tasks ≡ tasks.now.tasks }
    requires one { core.old.workers ≡ 1 }
    requires job { IsJob (block_of P.parts job.now) tasks.now.tasks }
    requires scratch { ServeAll (P.parts job.now.plan.now) (argument job.now.held.now) scratches.old }
    requires room { task_count tasks.now.tasks ≤ vec_capacity lines.old }
    requires valid { S.is_valid store.old }
    requires underway { (first : State) × IsReal (block_of P.parts job.now) first
        × IsUnderway tasks.now.tasks (block_of P.parts job.now) first core.old.now (S.state store.old) lines.old.items }
    ensures core { KeepsCore core.old core.new }
    ensures kept { S.rest store.new ≡ S.rest store.old }
    ensures valid { S.is_valid store.new }
    ensures scratch { ServeAll (P.parts job.now.plan.now) (argument job.now.held.now) scratches.new }
    ensures room { vec_capacity lines.new ≡ vec_capacity lines.old }
    // All tasks are run by worker 0.
    ensures who { All (λ (line : Line). line.worker ≡ 0) lines.old.items → All (λ (line : Line). line.worker ≡ 0) lines.new.items }
    // Each lane holds its numbers of the whole block, and the journal is in order.
    ensures ends { (first : State) → IsReal (block_of P.parts job.now) first
        → IsUnderway tasks.now.tasks (block_of P.parts job.now) first core.old.now (S.state store.old) lines.old.items
        → EndsBlock tasks.now.tasks (block_of P.parts job.now) first (S.state store.new) lines.new.items }
{
    while let Some(t) = core.next_of(0) {
        let task = turn(job, tasks, core, scratches, store, gate, t);
        note(lines, task);
    }
    leave(core, tasks);
}
