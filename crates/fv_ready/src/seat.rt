// A worker's seat: what it did, what it has in hand, and the slots that it has.

ghost use Rattle.std.specs.Prelude.{◌≡◌, ℕ, ◌+◌, ◌<◌, ◌≤◌, length, ◌++◌, ◌==◌, position, vec_len, vec_capacity};
ghost use Rattle.fv_graph.specs.TasksBeside.{times};
ghost use Rattle.fv_ready.specs.inner.Spun.{spun};
ghost use Rattle.fv_ready.specs.Seats.{IsPlaceOf};

use crate::View;
use atomic_table::Seat;

/// The task that a seat took last and has not finished.
#[derive(Clone, Copy, PartialEq, Eq, Debug)]
pub struct InHand {
    pub task: u64,
    pub started: bool,
}

/// One worker's seat at a board.
#[derive(Drop)]
pub struct WorkerSeat<C> {
    pub(crate) seat: Seat<Option<C>, View<C>>,
    // The edges of the slots that the seat has, in their order.
    pub(crate) edges: Vec<u64>,
    pub(crate) in_hand: Option<InHand>,
}

// The index of the first occurrence of a number.
fn first_place(edges: &[u64], edge: u64) -> Option<usize>
    ensures { result ≡ position (λ e. e == edge) edges.now }
{
    edges.iter().position(|e| *e == edge)
}

// The index of an edge in a list that has it.
pub(crate) fn place_of(edges: &[u64], edge: u64) -> usize
    requires { 0 < times edge edges.now }
    ensures { IsPlaceOf edges.now edge result }
{
    // It has it, so the 0 is never taken. A test would keep the search in the program also where the place only counts a seat's turns,
    // which are steps of the proof alone.
    first_place(edges, edge).unwrap_or(0)
}

// Puts a list after another one that has room for it.
pub(crate) fn append(list: &mut Vec<u64>, more: &[u64])
    requires { vec_len list.old + length more.now ≤ vec_capacity list.old }
    ensures items { list.new.items ≡ list.old.items ++ more.now }
    ensures room { vec_capacity list.new ≡ vec_capacity list.old }
{
    for edge in more {
        list.push_reserved(*edge);
    }
}

// Turns the slots of a seat.
pub(crate) fn spin<C>(seat: &mut Seat<Option<C>, View<C>>, n: usize)
    ensures { (seat.new.table_id ≡ seat.old.table_id) × (seat.new.id ≡ seat.old.id) × (seat.new.me ≡ (seat.old.me.0, spun n seat.old.me.1)) }
{
    for _i in 0..n {
        seat.turn();
    }
}
