// The work of a crew: all workers side by side, and then what is left in their deques.

ghost use Rattle.std.specs.Prelude.{◌≡◌, ℕ, ◌+◌, ◌<◌, ◌==◌, map, length, All, MatchOption, vec_len, get_or};
ghost use Rattle.fv_outside.specs.headline.Tasks.{bit};
ghost use Rattle.fv_outside.specs.Tasks.{times};
ghost use Rattle.fv_graph.specs.Graph.{net_of};
ghost use Rattle.fv_ready.specs.Shown.{OwesNothing};
ghost use Rattle.fv_ready.specs.Boards.{name_of, about_of, graph_of, AreSeatsOf};
ghost use Rattle.fv_ready.specs.Counted.{NothingLeft, HaveAll};
ghost use Rattle.fv_steal.specs.Crews.{did, took, number_of, seat_of, own_account, IsWorkerOf, IsSame, IsCrew};
ghost use Rattle.fv_steal.specs.inner.Turns.{HasStolen, HasTurned};
ghost use Rattle.fv_steal.specs.inner.Gathers.{Keeps};
ghost use Rattle.fv_steal.specs.inner.Drains.{HaveNone, AreDrained};

use crate::Victim;
use crate::all_holds::gather;
use crate::body::Body;
use crate::side_by_side::for_each_mut;
use crate::turns::turn;
use crate::worker::Worker;
use fv_graph::Tasks;
use fv_outside::Gate;
use fv_ready::{Board, Parcel};
use std::marker::{Send, Sync};
use std::sync::Wait;
use std::thread::Threads;

// How often a worker that found nothing goes round the others' deques before it leaves.
const ROUNDS: u32 = 64;

/// Takes the first number of the deque at a place.
fn first_at(victims: &mut Vec<Victim>, i: usize) -> Option<u64>
    requires there { i < vec_len victims.old }
    ensures { HasStolen result victims.old victims.new }
{
    victims[i].steal()
}

/// Takes the first number of the deque at a place, if it is not the worker's own.
fn steal_from(victims: &mut Vec<Victim>, i: usize, own: u64) -> Option<u64>
    requires there { i < vec_len victims.old }
    ensures { HasStolen result victims.old victims.new }
{
    if i as u64 == own {
        return None;
    }
    first_at(victims, i)
}

/// Takes the first number of the worker's own deque.
fn first_of_own(victims: &mut Vec<Victim>, own: usize) -> Option<u64>
    ensures { HasStolen result victims.old victims.new }
{
    if own >= victims.len() {
        return None;
    }
    first_at(victims, own)
}

/// Tries each deque but the worker's own once.
fn steal_round(victims: &mut Vec<Victim>, own: u64) -> Option<u64>
    ensures { HasStolen result victims.old victims.new }
{
    for i in 0..victims.len() {
        let found = steal_from(victims, i, own);
        if found.is_some() {
            return found;
        }
    }
    None
}

/// Takes a number of another worker's, if there is one in some of the rounds.
fn steal(victims: &mut Vec<Victim>, own: u64) -> Option<u64>
    ensures { HasStolen result victims.old victims.new }
{
    for _ in 0..ROUNDS {
        let found = steal_round(victims, own);
        if found.is_some() {
            return found;
        }
    }
    None
}

/// Takes the last number of the worker's own deque, or else one of another's.
fn last_or_stolen<C>(worker: &mut Worker<C>) -> Option<u64>
    ensures found { MatchOption result ((x : ℕ) → took worker.new x ≡ took worker.old x) (λ t. (x : ℕ) → took worker.new x ≡ took worker.old x + bit (t == x)) }
    ensures same { IsSame worker.old worker.new }
    ensures keeps { Keeps worker.old worker.new }
{
    let own = worker.deque.pop();
    if own.is_some() {
        return own;
    }
    steal(&mut worker.victims, u64::from(worker.number))
}

/// Takes a number to run next: the first of the worker's own deque. So the vectors of all loops go side by side, and what reads a
/// vector of them all need not wait for the last one. Where another worker took that number at the same time, it is the last one,
/// or else one of another's.
fn find<C>(worker: &mut Worker<C>) -> Option<u64>
    ensures found { MatchOption result ((x : ℕ) → took worker.new x ≡ took worker.old x) (λ t. (x : ℕ) → took worker.new x ≡ took worker.old x + bit (t == x)) }
    ensures same { IsSame worker.old worker.new }
    ensures keeps { Keeps worker.old worker.new }
{
    let first = first_of_own(&mut worker.victims, worker.number as usize);
    if first.is_some() {
        return first;
    }
    last_or_stolen(worker)
}

/// Does a worker's turns, until it finds nothing any more.
fn live<R: Wait, C: Parcel + Drop, B: Body<C>, G: Gate>(
    rt: &R,
    tasks: &Tasks,
    board: &Board<'_, C>,
    body: &B,
    gate: &G,
    worker: &mut Worker<C>,
)
    requires tasks { graph_of board.now ≡ tasks.now }
    requires body { (B.tasks body.now ≡ tasks.now.tasks) × (B.key body.now ≡ C.key_of (about_of board.now).sample.value) }
    requires worker { IsWorkerOf C.edge_of C.key_of board.now worker.old }
    ensures { HasTurned C.edge_of C.key_of board.now tasks.now.tasks worker.old worker.new }
{
    for _ in rt.forever() {
        match find(worker) {
            Some(t) => turn(rt, tasks, board, body, gate, worker, t),
            None => return,
        }
    }
    unreachable!()
}

/// Does the turns that are left of a worker, until its deque is empty.
fn drain<R: Wait, C: Parcel + Drop, B: Body<C>, G: Gate>(
    rt: &R,
    tasks: &Tasks,
    board: &Board<'_, C>,
    body: &B,
    gate: &G,
    worker: &mut Worker<C>,
)
    requires tasks { graph_of board.now ≡ tasks.now }
    requires body { (B.tasks body.now ≡ tasks.now.tasks) × (B.key body.now ≡ C.key_of (about_of board.now).sample.value) }
    requires worker { IsWorkerOf C.edge_of C.key_of board.now worker.old }
    requires none { (own_account worker.old).lent ≡ 0 }
    ensures turned { HasTurned C.edge_of C.key_of board.now tasks.now.tasks worker.old worker.new }
    ensures emptied { (x : ℕ) → times x (own_account worker.new).put ≡ times x (own_account worker.new).taken }
{
    for _ in rt.forever() {
        match worker.deque.pop() {
            Some(t) => turn(rt, tasks, board, body, gate, worker, t),
            None => return,
        }
    }
    unreachable!()
}

/// Has all workers live side by side, until none of them finds anything any more.
fn live_all<R: Threads + Wait + Sync, C: Parcel + Send + Drop, B: Body<C> + Sync, G: Gate + Sync>(
    rt: &R,
    tasks: &Tasks,
    board: &Board<'_, C>,
    workers: &mut [Worker<C>],
    body: &B,
    gate: &G,
)
    requires tasks { graph_of board.now ≡ tasks.now }
    requires body { (B.tasks body.now ≡ tasks.now.tasks) × (B.key body.now ≡ C.key_of (about_of board.now).sample.value) }
    requires some { 0 < length workers.old }
    requires workers { All (λ w. IsWorkerOf C.edge_of C.key_of board.now w) workers.old }
    ensures count { length workers.new ≡ length workers.old }
    ensures turned { (i : ℕ) (d : Worker C) → i < length workers.old
        → HasTurned C.edge_of C.key_of board.now tasks.now.tasks (get_or workers.old i d) (get_or workers.new i d) }
{
    for_each_mut(
        rt,
        workers,
        &|_, worker: &mut Worker<C>| { live(rt, tasks, board, body, gate, worker) },
    );
}

/// Does the turns that are left of all workers.
fn drain_all<R: Wait, C: Parcel + Drop, B: Body<C>, G: Gate>(
    rt: &R,
    tasks: &Tasks,
    board: &Board<'_, C>,
    workers: &mut [Worker<C>],
    body: &B,
    gate: &G,
)
    requires tasks { graph_of board.now ≡ tasks.now }
    requires body { (B.tasks body.now ≡ tasks.now.tasks) × (B.key body.now ≡ C.key_of (about_of board.now).sample.value) }
    requires workers { All (λ w. IsWorkerOf C.edge_of C.key_of board.now w) workers.old }
    requires none { HaveNone workers.old }
    ensures drained { AreDrained C.edge_of C.key_of board.now tasks.now.tasks (length workers.old) workers.old workers.new }
{
    for k in 0..workers.len() {
        drain(rt, tasks, board, body, gate, &mut workers[k]);
    }
}

/// Runs the tasks of a block by all workers side by side. Then runs what is left in their deques, so that nothing is left over.
pub fn work<R: Threads + Wait + Sync, C: Parcel + Send + Drop, B: Body<C> + Sync, G: Gate + Sync>(
    rt: &R,
    tasks: &Tasks,
    board: &Board<'_, C>,
    workers: &mut [Worker<C>],
    body: &B,
    gate: &G,
)
    requires tasks { graph_of board.now ≡ tasks.now }
    requires body { (B.tasks body.now ≡ tasks.now.tasks) × (B.key body.now ≡ C.key_of (about_of board.now).sample.value) }
    requires some { 0 < length workers.old }
    requires crew { IsCrew C.edge_of C.key_of (name_of board.now) (about_of board.now) workers.old }
    ensures workers { All (λ w. IsWorkerOf C.edge_of C.key_of board.now w) workers.new }
    ensures numbers { map number_of workers.new ≡ map number_of workers.old }
    ensures left { NothingLeft (net_of tasks.now.tasks) (map seat_of workers.new) }
    // Each task that a seat took is finished, and each inner edge out of it has arrived.
    ensures owes { All (λ w. OwesNothing (net_of tasks.now.tasks) (did w)) workers.new }
    // Their seats are all that the board has.
    ensures seats { AreSeatsOf C.edge_of C.key_of board.now (map seat_of workers.new) × HaveAll (about_of board.now).workers (map seat_of workers.new) }
{
    live_all(rt, tasks, board, workers, body, gate);
    gather(workers);
    drain_all(rt, tasks, board, workers, body, gate);
}
