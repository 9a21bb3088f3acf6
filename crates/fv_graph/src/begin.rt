// How a core begins.

ghost use Rattle.std.specs.Prelude.{◌≡◌, ◌==◌, if◌then◌else◌, ◌+◌, ◌%◌, ◌<◌, ◌≤◌, length, [], ◌∷◌, ◌++◌};
ghost use Rattle.std.specs.Prelude.{slice_index_or, slice_set, map, replicate, false, IfOk, vec_len, vec_capacity};
ghost use Rattle.fv_graph.specs.TasksBeside.{task_count};
ghost use Rattle.fv_graph.specs.Net.{need_count};
ghost use Rattle.fv_graph.specs.Graph.{IsGraph, net_of};
ghost use Rattle.fv_graph.specs.Core.{numbers, ready, dealt};
ghost use Rattle.fv_graph.specs.Kept.{deques_of, rooms_of, owed_of, owed_rooms, HaveRoom};

use crate::Tasks;
use crate::by_worker::{empty_deque, empty_list, put_back};
use std::alloc::{AllocError, Global};
use std::collections::VecDeque;

// Begins anew: no task is done, and each waits for those that it reads.
pub(crate) fn open_tasks(tasks: &Tasks, counts: &mut Vec<u64>, done: &mut Vec<bool>)
    requires counts { task_count tasks.now.tasks ≤ vec_capacity counts.old }
    requires done { task_count tasks.now.tasks ≤ vec_capacity done.old }
    ensures counts { counts.new.items ≡ map (need_count (net_of tasks.now.tasks)) (numbers (task_count tasks.now.tasks)) }
    ensures done { done.new.items ≡ replicate (task_count tasks.now.tasks) false }
    ensures counts_room { vec_capacity counts.new ≡ vec_capacity counts.old }
    ensures done_room { vec_capacity done.new ≡ vec_capacity done.old }
    ensures graph { IsGraph tasks.now.tasks }
{
    counts.clear();
    done.clear();
    for t in 0..tasks.len() {
        counts.push_reserved(tasks.count(t));
        done.push_reserved(false);
    }
}

// Deals a task to the deque of a worker if it waits for none. Returns the worker whose turn it is then.
fn deal_one(deques: &mut Vec<VecDeque<u64>>, worker: usize, task: u64, count: u64) -> usize
    requires there { worker < vec_len deques.old }
    requires room { length (slice_index_or (deques_of deques.old.items) worker []) < slice_index_or (rooms_of deques.old.items) worker 0 }
    ensures next { result ≡ (if count == 0 then (worker + 1) % vec_len deques.old else worker) }
    ensures deque { deques_of deques.new.items ≡ (if count == 0
        then slice_set (deques_of deques.old.items) worker (slice_index_or (deques_of deques.old.items) worker [] ++ task ∷ [])
        else deques_of deques.old.items) }
    ensures rooms { rooms_of deques.new.items ≡ rooms_of deques.old.items }
    ensures workers { vec_len deques.new ≡ vec_len deques.old }
{
    if count != 0 {
        return worker;
    }
    put_back(deques, worker, task);
    (worker + 1) % deques.len()
}

// Deals the tasks that read no other to the deques in turn.
pub(crate) fn deal(tasks: &Tasks, deques: &mut Vec<VecDeque<u64>>)
    requires some_worker { 0 < vec_len deques.old }
    requires empty { deques_of deques.old.items ≡ replicate (vec_len deques.old) [] }
    requires room { HaveRoom (task_count tasks.now.tasks) (rooms_of deques.old.items) }
    ensures dealt { deques_of deques.new.items ≡ dealt (vec_len deques.old) 0 (ready (net_of tasks.now.tasks)) (replicate (vec_len deques.old) []) }
    ensures rooms { rooms_of deques.new.items ≡ rooms_of deques.old.items }
{
    let mut worker = 0;
    for task in 0..tasks.len() {
        worker = deal_one(deques, worker, task, tasks.count(task));
    }
}

// `count` empty deques, each with room for `room` tasks.
pub(crate) fn empty_deques(
    alloc: Global,
    count: usize,
    room: usize,
) -> Result<Vec<VecDeque<u64>>, AllocError>
    ensures empty { IfOk result (λ v. deques_of v.items ≡ replicate count []) }
    ensures room { IfOk result (λ v. rooms_of v.items ≡ replicate count room) }
{
    let mut deques = Vec::new(alloc);
    for _worker in 0..count {
        deques.push(VecDeque::with_capacity(alloc, room)?)?;
    }
    Ok(deques)
}

// `count` empty lists, each with room for `room` edges.
pub(crate) fn empty_lists(
    alloc: Global,
    count: usize,
    room: usize,
) -> Result<Vec<Vec<u64>>, AllocError>
    ensures empty { IfOk result (λ v. owed_of v.items ≡ replicate count []) }
    ensures room { IfOk result (λ v. owed_rooms v.items ≡ replicate count room) }
{
    let mut lists = Vec::new(alloc);
    for _worker in 0..count {
        lists.push(Vec::with_capacity(alloc, room)?)?;
    }
    Ok(lists)
}

// Empties all deques.
pub(crate) fn clear_deques(deques: &mut Vec<VecDeque<u64>>)
    ensures empty { deques_of deques.new.items ≡ replicate (vec_len deques.old) [] }
    ensures rooms { rooms_of deques.new.items ≡ rooms_of deques.old.items }
{
    for w in 0..deques.len() {
        empty_deque(deques, w);
    }
}

// Empties all lists.
pub(crate) fn clear_lists(lists: &mut Vec<Vec<u64>>)
    ensures empty { owed_of lists.new.items ≡ replicate (vec_len lists.old) [] }
    ensures rooms { owed_rooms lists.new.items ≡ owed_rooms lists.old.items }
{
    for w in 0..lists.len() {
        empty_list(lists, w);
    }
}

// A list of `count` times x.
pub(crate) fn repeated<T: Copy>(alloc: Global, x: T, count: usize) -> Result<Vec<T>, AllocError>
    ensures { IfOk result (λ v. v.items ≡ replicate count x) }
{
    let mut xs = Vec::new(alloc);
    for _i in 0..count {
        xs.push(x)?;
    }
    Ok(xs)
}

// Sets all elements to one value.
pub(crate) fn set_all<T: Copy>(xs: &mut Vec<T>, x: T)
    ensures { xs.new.items ≡ replicate (vec_len xs.old) x }
{
    for i in 0..xs.len() {
        xs[i] = x;
    }
}
