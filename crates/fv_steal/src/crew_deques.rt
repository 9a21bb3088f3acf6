// The deques of a crew before its work, and the holds on them.

ghost use Rattle.std.specs.Prelude.{◌≡◌, ℕ, ◌==◌, if◌then◌else◌, ◌+◌, ◌%◌, ◌<◌, ◌≤◌, [], ◌∷◌, ◌++◌};
ghost use Rattle.std.specs.Prelude.{length, replicate, All, IfOk, vec_len, slice_index_or, slice_set};
ghost use Rattle.fv_outside.specs.Tasks.{times, task_count};
ghost use Rattle.fv_graph.specs.Graph.{net_of, inward, outward};
ghost use Rattle.fv_graph.specs.Core.{ready, dealt};
ghost use Rattle.fv_steal.specs.Deques.{room_of};
ghost use Rattle.fv_steal.specs.inner.Made.{puts_of, rests_of, HasLent, HaveLent};

use crate::{TaskDeque, Victim};
use fv_graph::Tasks;
use std::alloc::{AllocError, Global};

// Empty deques.
pub(crate) fn empty_deques(
    alloc: Global,
    count: usize,
    room: u64,
) -> Result<Vec<TaskDeque>, AllocError>
    ensures empty { IfOk result (λ v. puts_of v.items ≡ replicate count []) }
    ensures rests { IfOk result (λ v. rests_of v.items ≡ replicate count (room, 0, [])) }
{
    let mut deques = Vec::new(alloc);
    for _w in 0..count {
        deques.push(TaskDeque::new(alloc, room)?)?;
    }
    Ok(deques)
}

// Puts a task at the back of a worker's deque.
fn put_in(deques: &mut Vec<TaskDeque>, w: usize, task: u64)
    requires there { w < vec_len deques.old }
    requires below { All (λ d. task < room_of d) deques.old.items }
    requires fresh { times task (slice_index_or (puts_of deques.old.items) w []) ≡ 0 }
    ensures puts { puts_of deques.new.items ≡ slice_set (puts_of deques.old.items) w (slice_index_or (puts_of deques.old.items) w [] ++ task ∷ []) }
    ensures rests { rests_of deques.new.items ≡ rests_of deques.old.items }
    ensures workers { vec_len deques.new ≡ vec_len deques.old }
{
    deques[w].push(task);
}

// Deals a task to the deque of a worker if it waits for none. Returns the worker whose turn it is then.
fn deal_one(deques: &mut Vec<TaskDeque>, worker: usize, task: u64, count: u64) -> usize
    requires there { worker < vec_len deques.old }
    requires below { All (λ d. task < room_of d) deques.old.items }
    requires fresh { times task (slice_index_or (puts_of deques.old.items) worker []) ≡ 0 }
    ensures next { result ≡ (if count == 0 then (worker + 1) % vec_len deques.old else worker) }
    ensures puts { puts_of deques.new.items ≡ (if count == 0
        then slice_set (puts_of deques.old.items) worker (slice_index_or (puts_of deques.old.items) worker [] ++ task ∷ [])
        else puts_of deques.old.items) }
    ensures rests { rests_of deques.new.items ≡ rests_of deques.old.items }
    ensures workers { vec_len deques.new ≡ vec_len deques.old }
{
    if count != 0 {
        return worker;
    }
    put_in(deques, worker, task);
    (worker + 1) % deques.len()
}

// Deals the tasks that read no other to the deques in turn.
pub(crate) fn deal(tasks: &Tasks, deques: &mut Vec<TaskDeque>)
    requires some { 0 < vec_len deques.old }
    requires empty { puts_of deques.old.items ≡ replicate (vec_len deques.old) [] }
    requires rests { rests_of deques.old.items ≡ replicate (vec_len deques.old) (task_count tasks.now.tasks, 0, []) }
    ensures dealt { puts_of deques.new.items ≡ dealt (vec_len deques.old) 0 (ready (net_of tasks.now.tasks)) (replicate (vec_len deques.old) []) }
    ensures rests { rests_of deques.new.items ≡ rests_of deques.old.items }
    ensures workers { vec_len deques.new ≡ vec_len deques.old }
{
    let mut worker = 0;
    for task in 0..tasks.len() {
        worker = deal_one(deques, worker, task, tasks.count(task));
    }
}

// Gives out a hold on each deque, for one worker.
pub(crate) fn holds_on_all(
    alloc: Global,
    deques: &mut Vec<TaskDeque>,
) -> Result<Vec<Victim>, AllocError>
    ensures lent { IfOk result (λ v. HasLent (length deques.old.items) deques.old.items deques.new.items v.items) }
    ensures count { length deques.new.items ≡ length deques.old.items }
{
    let mut victims = Vec::new(alloc);
    for i in 0..deques.len() {
        victims.push(deques[i].lend()?)?;
    }
    Ok(victims)
}

// By worker, for `count` workers: a hold on each deque.
pub(crate) fn holds_of_all(
    alloc: Global,
    deques: &mut Vec<TaskDeque>,
    count: usize,
) -> Result<Vec<Vec<Victim>>, AllocError>
    ensures lent { IfOk result (λ v. HaveLent count deques.old.items deques.new.items v.items) }
{
    let mut all = Vec::new(alloc);
    for _w in 0..count {
        all.push(holds_on_all(alloc, deques)?)?;
    }
    Ok(all)
}

// The larger of two.
fn larger(a: usize, b: usize) -> usize
    ensures { (a ≤ result) × (b ≤ result) }
{
    if a < b { b } else { a }
}

// The most edges that a task has on one side.
pub(crate) fn most_edges(tasks: &Tasks) -> usize
    ensures most { (t : ℕ) → t < task_count tasks.now.tasks → (length (inward tasks.now.tasks t) ≤ result) × (length (outward tasks.now.tasks t) ≤ result) }
{
    let mut most = 0;
    for t in 0..tasks.len() {
        let both = larger(tasks.inward(t).len(), tasks.outward(t).len());
        most = larger(most, both);
    }
    most
}
