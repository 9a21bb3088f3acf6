// What each worker has, in lists with one element for each worker.

ghost use Rattle.std.specs.Prelude.{◌≡◌, ◌+◌, ◌<◌, ◌≤◌, ◌==◌, length, [], ◌∷◌, ◌++◌, slice_index_or};
ghost use Rattle.std.specs.Prelude.{slice_set, vec_len, vec_capacity, None, is_none, position, not, true, ◌&&◌};
ghost use Rattle.fv_graph.specs.TasksBeside.{times};
ghost use Rattle.fv_graph.specs.Ends.{but_back, but_front, back_of, front_of, without, is_empty};
ghost use Rattle.fv_graph.specs.Core.{joined, is_run};
ghost use Rattle.fv_graph.specs.Kept.{deques_of, rooms_of, owed_of, owed_rooms};

use std::collections::VecDeque;

// The task at the back of the deque of a worker.
pub(crate) fn back(deques: &[VecDeque<u64>], w: usize) -> Option<u64>
    requires { w < length deques.now }
    ensures { result ≡ back_of (slice_index_or (deques_of deques.now) w []) }
{
    deques[w].back().copied()
}

// The task at the front.
pub(crate) fn front(deques: &[VecDeque<u64>], w: usize) -> Option<u64>
    requires { w < length deques.now }
    ensures { result ≡ front_of (slice_index_or (deques_of deques.now) w []) }
{
    deques[w].front().copied()
}

// Empties the deque of a worker.
pub(crate) fn empty_deque(deques: &mut Vec<VecDeque<u64>>, w: usize)
    requires { w < vec_len deques.old }
    ensures deque { deques_of deques.new.items ≡ slice_set (deques_of deques.old.items) w [] }
    ensures rooms { rooms_of deques.new.items ≡ rooms_of deques.old.items }
    ensures workers { vec_len deques.new ≡ vec_len deques.old }
{
    let deque = &mut deques[w];
    deque.clear();
}

// Removes the task at the back of a worker's deque.
pub(crate) fn take_back(deques: &mut Vec<VecDeque<u64>>, w: usize)
    requires { w < vec_len deques.old }
    ensures deque { deques_of deques.new.items ≡ slice_set (deques_of deques.old.items) w (but_back (slice_index_or (deques_of deques.old.items) w [])) }
    ensures rooms { rooms_of deques.new.items ≡ rooms_of deques.old.items }
{
    let deque = &mut deques[w];
    let _ = deque.pop_back();
}

// Removes the task at the front of a worker's deque.
pub(crate) fn take_front(deques: &mut Vec<VecDeque<u64>>, w: usize)
    requires { w < vec_len deques.old }
    ensures deque { deques_of deques.new.items ≡ slice_set (deques_of deques.old.items) w (but_front (slice_index_or (deques_of deques.old.items) w [])) }
    ensures rooms { rooms_of deques.new.items ≡ rooms_of deques.old.items }
{
    let deque = &mut deques[w];
    let _ = deque.pop_front();
}

// Puts a task at the back of a worker's deque.
pub(crate) fn put_back(deques: &mut Vec<VecDeque<u64>>, w: usize, task: u64)
    requires there { w < vec_len deques.old }
    requires room { length (slice_index_or (deques_of deques.old.items) w []) < slice_index_or (rooms_of deques.old.items) w 0 }
    ensures deque { deques_of deques.new.items ≡ slice_set (deques_of deques.old.items) w (slice_index_or (deques_of deques.old.items) w [] ++ task ∷ []) }
    ensures rooms { rooms_of deques.new.items ≡ rooms_of deques.old.items }
    ensures workers { vec_len deques.new ≡ vec_len deques.old }
{
    let deque = &mut deques[w];
    deque.push_back_reserved(task);
}

// Puts a task at the back of a worker's deque if its count is 0.
pub(crate) fn put_ready(deques: &mut Vec<VecDeque<u64>>, w: usize, task: u64, count: u64)
    requires there { w < vec_len deques.old }
    requires room { length (slice_index_or (deques_of deques.old.items) w []) < slice_index_or (rooms_of deques.old.items) w 0 }
    ensures deque { deques_of deques.new.items
        ≡ slice_set (deques_of deques.old.items) w (joined task count (slice_index_or (deques_of deques.old.items) w [])) }
    ensures rooms { rooms_of deques.new.items ≡ rooms_of deques.old.items }
{
    if count == 0 {
        put_back(deques, w, task);
    }
}

// Edges are owed by a worker from now on.
pub(crate) fn owe(owes: &mut Vec<Vec<u64>>, w: usize, edges: &[u64])
    requires there { w < vec_len owes.old }
    requires room { length (slice_index_or (owed_of owes.old.items) w []) + length edges.now ≤ slice_index_or (owed_rooms owes.old.items) w 0 }
    ensures owed { owed_of owes.new.items ≡ slice_set (owed_of owes.old.items) w (slice_index_or (owed_of owes.old.items) w [] ++ edges.now) }
    ensures rooms { owed_rooms owes.new.items ≡ owed_rooms owes.old.items }
{
    let owed = &mut owes[w];
    append(owed, edges);
}

// Appends numbers, for which there is room.
fn append(owed: &mut Vec<u64>, edges: &[u64])
    requires { vec_len owed.old + length edges.now ≤ vec_capacity owed.old }
    ensures items { owed.new.items ≡ owed.old.items ++ edges.now }
    ensures room { vec_capacity owed.new ≡ vec_capacity owed.old }
{
    for edge in edges {
        owed.push_reserved(*edge);
    }
}

// The index of the first occurrence of a number.
fn place_of(owed: &[u64], edge: u64) -> Option<usize>
    ensures { result ≡ position (λ e. e == edge) owed.now }
{
    owed.iter().position(|e| *e == edge)
}

// Removes the first occurrence of a number.
fn take_out(owed: &mut Vec<u64>, edge: u64)
    ensures items { owed.new.items ≡ without edge owed.old.items }
    ensures room { vec_capacity owed.new ≡ vec_capacity owed.old }
{
    if let Some(i) = place_of(owed, edge) {
        let _ = owed.remove(i);
    }
}

// Removes an edge from those that a worker owes.
pub(crate) fn forget(owes: &mut Vec<Vec<u64>>, w: usize, edge: u64)
    requires { w < vec_len owes.old }
    ensures owed { owed_of owes.new.items ≡ slice_set (owed_of owes.old.items) w (without edge (slice_index_or (owed_of owes.old.items) w [])) }
    ensures rooms { owed_rooms owes.new.items ≡ owed_rooms owes.old.items }
{
    let owed = &mut owes[w];
    take_out(owed, edge);
}

// Whether a number is this one.
pub(crate) fn names(found: Option<u64>, number: u64) -> bool
    ensures { result ≡ is_run number found }
{
    match found {
        Some(n) => n == number,
        None => false,
    }
}

// Whether a worker owes an edge.
pub(crate) fn does_owe(owes: &[Vec<u64>], w: usize, edge: u64) -> bool
    requires { w < length owes.now }
    ensures { result ≡ not (times edge (slice_index_or (owed_of owes.now) w []) == 0) }
{
    owes[w].contains(&edge)
}

// Whether a worker has not left, runs nothing and owes nothing.
pub(crate) fn is_idle(left: &[bool], runs: &[Option<u64>], owes: &[Vec<u64>], w: usize) -> bool
    requires left { w < length left.now }
    requires runs { w < length runs.now }
    requires owes { w < length owes.now }
    ensures { result ≡ (not (slice_index_or left.now w true) && is_none (slice_index_or runs.now w None) && is_empty (slice_index_or (owed_of owes.now) w [])) }
{
    !left[w] && runs[w].is_none() && owes[w].is_empty()
}

// Removes all edges that a worker owes.
pub(crate) fn empty_list(owes: &mut Vec<Vec<u64>>, w: usize)
    requires { w < vec_len owes.old }
    ensures owed { owed_of owes.new.items ≡ slice_set (owed_of owes.old.items) w [] }
    ensures rooms { owed_rooms owes.new.items ≡ owed_rooms owes.old.items }
    ensures workers { vec_len owes.new ≡ vec_len owes.old }
{
    let owed = &mut owes[w];
    owed.clear();
}
