// The steps on slots: what a seat receives and hands. Each is one exchange.

ghost use Rattle.std.specs.Prelude.{◌≡◌, ℕ, ◌+◌, ◌<◌, List, Option, Some, None, ◌∷◌, ◌++◌, true, IsSomeAnd, IsSome};
ghost use Rattle.fv_graph.specs.TasksBeside.{times};
ghost use Rattle.fv_graph.specs.Graph.{inward, outward};
ghost use Rattle.fv_ready.specs.Rule.{places};
ghost use Rattle.fv_ready.specs.Carried.{slot_at, with_slot};
ghost use Rattle.fv_ready.specs.Seats.{view_of, slots_of, hand_of};
ghost use Rattle.fv_ready.specs.Boards.{name_of, about_of, tasks_of, IsSeatOf};

use crate::Parcel;
use crate::board::Board;
use crate::seat::{WorkerSeat, place_of, spin};

impl<'t, C: Parcel> Board<'t, C> {
    // Exchanges what the slot of an edge holds, and returns what it held.
    fn exchange(&self, seat: &mut WorkerSeat<C>, edge: u64, new: Option<C>) -> Option<C>
        requires name { seat.old.seat.table_id ≡ name_of self.now }
        requires mirror { places (slots_of seat.old) ≡ seat.old.edges.items }
        requires edge { 0 < times edge (places (slots_of seat.old)) }
        ensures found { result ≡ slot_at (slots_of seat.old) edge }
        ensures seat { seat.new.seat.me ≡ (view_of seat.old, with_slot (slots_of seat.old) edge new) }
        ensures same { (seat.new.seat.table_id ≡ seat.old.seat.table_id) × (seat.new.edges ≡ seat.old.edges)
            × (hand_of seat.new ≡ hand_of seat.old) }
    {
        let place = place_of(seat.edges.as_slice(), edge);
        let behind = seat.edges.len() - place;
        spin(&mut seat.seat, place);
        let found = self
            .table
            .shared
            .exchange(&mut seat.seat, edge as usize, new);
        spin(&mut seat.seat, behind);
        found
    }

    /// Takes the parcel of an edge into the task in hand. The edge's slot is empty then.
    pub fn receive(&self, seat: &mut WorkerSeat<C>, edge: u64) -> C
        requires seat { IsSeatOf C.edge_of C.key_of self.now seat.old }
        requires edge { IsSomeAnd (hand_of seat.old) (λ r. 0 < times edge (inward (tasks_of self.now) r.task)) }
        requires full { IsSome (slot_at (slots_of seat.old) edge) }
        ensures parcel { (C.edge_of result ≡ edge) × (C.key_of result ≡ C.key_of (about_of self.now).sample.value) }
        ensures held { slot_at (slots_of seat.old) edge ≡ Some result }
        ensures slots { slots_of seat.new ≡ with_slot (slots_of seat.old) edge None }
        ensures same { (view_of seat.new ≡ view_of seat.old) × (hand_of seat.new ≡ hand_of seat.old) }
        ensures seat { IsSeatOf C.edge_of C.key_of self.now seat.new }
    {
        self.exchange(seat, edge, None).unwrap()
    }
}

impl<'t, C: Parcel + Drop> Board<'t, C> {
    /// Puts the parcel of an edge out of the task in hand into the edge's slot.
    pub fn hand(&self, seat: &mut WorkerSeat<C>, edge: u64, parcel: C)
        requires seat { IsSeatOf C.edge_of C.key_of self.now seat.old }
        requires edge { IsSomeAnd (hand_of seat.old) (λ r. (r.started ≡ true) × (0 < times edge (outward (tasks_of self.now) r.task))) }
        requires empty { slot_at (slots_of seat.old) edge ≡ None }
        requires parcel { (C.edge_of parcel ≡ edge) × (C.key_of parcel ≡ C.key_of (about_of self.now).sample.value) }
        ensures slots { slots_of seat.new ≡ with_slot (slots_of seat.old) edge (Some parcel) }
        ensures same { (view_of seat.new ≡ view_of seat.old) × (hand_of seat.new ≡ hand_of seat.old) }
        ensures seat { IsSeatOf C.edge_of C.key_of self.now seat.new }
    {
        drop(self.exchange(seat, edge, Some(parcel)));
    }
}
