// The parts of a turn at the board.

ghost use Rattle.std.specs.Prelude.{◌≡◌, ℕ, ◌+◌, ◌<◌, ◌≤◌, List, [], ◌∷◌, Some, None, true, false, not, length, IsSome, vec_capacity, vec_len};
ghost use Rattle.fv_outside.specs.Tasks.{task_count, times};
ghost use Rattle.fv_graph.specs.Net.{need_count};
ghost use Rattle.fv_graph.specs.Wires.{IsWires, wires_of};
ghost use Rattle.fv_graph.specs.Graph.{net_of, inward, outward, feeds_of, reader_of, task_of};
ghost use Rattle.fv_ready.specs.Rule.{done_by, sees, finishes, arrives, noted};
ghost use Rattle.fv_ready.specs.declared.view.Deed.TheVariants.{Stamped};
ghost use Rattle.fv_ready.specs.Seats.{view_of, slots_of, hand_of};
ghost use Rattle.fv_ready.specs.Boards.{about_of, graph_of, tasks_of, IsSeatOf, IsHanded, AreTaken};
ghost use Rattle.fv_steal.specs.Deques.{account_of, room_of, lies_at};
ghost use Rattle.fv_steal.specs.Moves.{AreParcelsOf};
ghost use Rattle.fv_steal.specs.inner.Steps.{AreFull, AreEmpty, Looked, HasArrived, PutAsZeroed, PutBetween};

use crate::TaskDeque;
use crate::body::Body;
use fv_graph::Tasks;
use fv_outside::{Gate, Task};
use fv_ready::{Board, Parcel, WorkerSeat};
use std::sync::Wait;
use std::thread;

/// Looks at the task's count until it is 0.
pub(crate) fn look<R: Wait, C: Parcel>(
    rt: &R,
    board: &Board<'_, C>,
    seat: &mut WorkerSeat<C>,
    t: u64,
)
    requires seat { IsSeatOf C.edge_of C.key_of board.now seat.old }
    requires task { t < task_count (tasks_of board.now) }
    ensures seat { IsSeatOf C.edge_of C.key_of board.now seat.new }
    ensures saw { 0 < done_by (sees t) (view_of seat.new) }
    ensures looked { Looked (view_of seat.old) (view_of seat.new) }
    ensures numbers { (view_of seat.new).numbers ≡ (view_of seat.old).numbers }
    ensures same { (slots_of seat.new ≡ slots_of seat.old) × (hand_of seat.new ≡ hand_of seat.old) }
{
    for _ in rt.forever() {
        if board.is_ready(seat, t) {
            return;
        }
        thread::yield_now();
    }
    unreachable!()
}

/// Takes the parcels of the edges into the task in hand, in order.
pub(crate) fn receive_all<C: Parcel>(
    tasks: &Tasks,
    board: &Board<'_, C>,
    seat: &mut WorkerSeat<C>,
    t: u64,
    parcels: &mut Vec<C>,
)
    requires wires { IsWires (wires_of tasks.now.tasks) }
    requires tasks { graph_of board.now ≡ tasks.now }
    requires seat { IsSeatOf C.edge_of C.key_of board.now seat.old }
    requires task { t < task_count tasks.now.tasks }
    requires hand { hand_of seat.old ≡ Some (record { task = t; started = true }) }
    requires full { AreFull (slots_of seat.old) (inward tasks.now.tasks t) }
    requires empty { AreEmpty (slots_of seat.old) (outward tasks.now.tasks t) }
    requires none { vec_len parcels.old ≡ 0 }
    requires room { length (inward tasks.now.tasks t) ≤ vec_capacity parcels.old }
    ensures parcels { AreParcelsOf C.edge_of C.key_of (C.key_of (about_of board.now).sample.value) (inward tasks.now.tasks t) parcels.new.items }
    ensures room { vec_capacity parcels.new ≡ vec_capacity parcels.old }
    ensures empty { AreEmpty (slots_of seat.new) (outward tasks.now.tasks t) }
    ensures same { (view_of seat.new ≡ view_of seat.old) × (hand_of seat.new ≡ hand_of seat.old) }
    ensures seat { IsSeatOf C.edge_of C.key_of board.now seat.new }
{
    let edges = tasks.inward(t);
    for i in 0..edges.len() {
        let parcel = board.receive(seat, edges[i]);
        parcels.push_reserved(parcel);
    }
}

/// Hands all parcels of the task in hand, those of the edges out of it.
pub(crate) fn hand_all<C: Parcel + Drop>(
    tasks: &Tasks,
    board: &Board<'_, C>,
    seat: &mut WorkerSeat<C>,
    t: u64,
    parcels: &mut Vec<C>,
)
    requires wires { IsWires (wires_of tasks.now.tasks) }
    requires tasks { graph_of board.now ≡ tasks.now }
    requires seat { IsSeatOf C.edge_of C.key_of board.now seat.old }
    requires task { t < task_count tasks.now.tasks }
    requires hand { hand_of seat.old ≡ Some (record { task = t; started = true }) }
    requires empty { AreEmpty (slots_of seat.old) (outward tasks.now.tasks t) }
    requires parcels { AreParcelsOf C.edge_of C.key_of (C.key_of (about_of board.now).sample.value) (outward tasks.now.tasks t) parcels.old.items }
    ensures none { vec_len parcels.new ≡ 0 }
    ensures room { vec_capacity parcels.new ≡ vec_capacity parcels.old }
    ensures handed { AreFull (slots_of seat.new) (outward tasks.now.tasks t) }
    ensures same { (view_of seat.new ≡ view_of seat.old) × (hand_of seat.new ≡ hand_of seat.old) }
    ensures seat { IsSeatOf C.edge_of C.key_of board.now seat.new }
{
    let edges = tasks.outward(t);
    while let Some(parcel) = parcels.pop() {
        board.hand(seat, edges[parcels.len()], parcel);
    }
}

/// Arrives at an edge that the seat owes, and puts the edge's reader into the deque where its count is 0 then.
pub(crate) fn arrive_at<C: Parcel>(
    tasks: &Tasks,
    board: &Board<'_, C>,
    seat: &mut WorkerSeat<C>,
    deque: &mut TaskDeque,
    edge: u64,
)
    requires wires { IsWires (wires_of tasks.now.tasks) }
    requires tasks { graph_of board.now ≡ tasks.now }
    requires seat { IsSeatOf C.edge_of C.key_of board.now seat.old }
    requires inner { (net_of tasks.now.tasks).is_inner edge ≡ true }
    requires owed { (0 < done_by (finishes ((net_of tasks.now.tasks).source edge)) (view_of seat.old)) × (done_by (arrives edge) (view_of seat.old) ≡ 0) }
    requires room { room_of deque.old ≡ task_count tasks.now.tasks }
    requires put { PutAsZeroed (net_of tasks.now.tasks) (view_of seat.old) (account_of deque.old).put }
    ensures seat { IsSeatOf C.edge_of C.key_of board.now seat.new }
    ensures hand { hand_of seat.new ≡ None }
    ensures arrived { HasArrived (edge ∷ []) (view_of seat.old) (view_of seat.new) }
    ensures numbers { (view_of seat.new).numbers ≡ (view_of seat.old).numbers }
    ensures put { PutAsZeroed (net_of tasks.now.tasks) (view_of seat.new) (account_of deque.new).put }
    ensures between { PutBetween (net_of tasks.now.tasks) (view_of seat.old) (view_of seat.new) (account_of deque.old).put (account_of deque.new).put }
    ensures deque { (lies_at deque.new ≡ lies_at deque.old) × (room_of deque.new ≡ room_of deque.old)
        × ((account_of deque.new).lent ≡ (account_of deque.old).lent) × ((account_of deque.new).taken ≡ (account_of deque.old).taken) }
{
    let reader = tasks.reader(edge);
    let count = board.arrive(seat, edge);
    let last = count == 0;
    if last {
        deque.push(reader);
    }
}

/// Arrives at all edges that the seat owes, those out of the task that it finished last.
pub(crate) fn arrive_all<C: Parcel>(
    tasks: &Tasks,
    board: &Board<'_, C>,
    seat: &mut WorkerSeat<C>,
    deque: &mut TaskDeque,
    t: u64,
)
    requires wires { IsWires (wires_of tasks.now.tasks) }
    requires tasks { graph_of board.now ≡ tasks.now }
    requires seat { IsSeatOf C.edge_of C.key_of board.now seat.old }
    requires task { t < task_count tasks.now.tasks }
    requires hand { hand_of seat.old ≡ None }
    requires done { 0 < done_by (finishes t) (view_of seat.old) }
    requires owed { (e : ℕ) → 0 < times e (feeds_of tasks.now.tasks t) → done_by (arrives e) (view_of seat.old) ≡ 0 }
    requires room { room_of deque.old ≡ task_count tasks.now.tasks }
    requires put { PutAsZeroed (net_of tasks.now.tasks) (view_of seat.old) (account_of deque.old).put }
    ensures seat { IsSeatOf C.edge_of C.key_of board.now seat.new }
    ensures hand { hand_of seat.new ≡ None }
    ensures arrived { HasArrived (feeds_of tasks.now.tasks t) (view_of seat.old) (view_of seat.new) }
    ensures numbers { (view_of seat.new).numbers ≡ (view_of seat.old).numbers }
    ensures between { PutBetween (net_of tasks.now.tasks) (view_of seat.old) (view_of seat.new) (account_of deque.old).put (account_of deque.new).put }
    ensures deque { (lies_at deque.new ≡ lies_at deque.old) × (room_of deque.new ≡ room_of deque.old)
        × ((account_of deque.new).lent ≡ (account_of deque.old).lent) × ((account_of deque.new).taken ≡ (account_of deque.old).taken) }
{
    let edges = tasks.feeds(t);
    for i in 0..edges.len() {
        arrive_at(tasks, board, seat, deque, edges[i]);
    }
}
