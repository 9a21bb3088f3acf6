// The steps on words: looks, claims, stamps and arrivals. Each is one atomic step.

ghost use Rattle.std.specs.Prelude.{◌≡◌, ℕ, ◌<◌, ◌==◌, not, Some, None, [], true, false, MatchBool, IfSome, IsSomeAnd};
ghost use Rattle.fv_graph.specs.TasksBeside.{task_count};
ghost use Rattle.fv_graph.specs.Graph.{net_of};
ghost use Rattle.fv_ready.specs.Rule.{noted, done_by, sees, stamps, finishes, arrives, zeroes};
ghost use Rattle.fv_ready.specs.Carried.{but_slot};
ghost use Rattle.fv_ready.specs.declared.view.Deed.TheVariants.{Stamped, Arrived, Saw, Claimed};
ghost use Rattle.fv_ready.specs.Seats.{view_of, slots_of, hand_of};
ghost use Rattle.fv_ready.specs.Boards.{tasks_of, IsSeatOf, AreTaken, IsHanded, slots_left};

use crate::Parcel;
use crate::board::Board;
use crate::rule::{Arriving, Claiming, Finishing, Look, Starting};
use crate::seat::{InHand, WorkerSeat, append, place_of, spin};

impl<'t, C: Parcel> Board<'t, C> {
    /// Looks whether the task's count is 0 at this step.
    pub fn is_ready(&self, seat: &mut WorkerSeat<C>, t: u64) -> bool
        requires seat { IsSeatOf C.edge_of C.key_of self.now seat.old }
        requires task { t < task_count (tasks_of self.now) }
        ensures list { (c : ℕ) × (view_of seat.new ≡ noted (view_of seat.old) (Saw t c)) × (result ≡ (c == 0)) }
        ensures slots { slots_of seat.new ≡ slots_of seat.old }
        ensures hand { hand_of seat.new ≡ hand_of seat.old }
        ensures seat { IsSeatOf C.edge_of C.key_of self.now seat.new }
    {
        let found = self
            .table
            .shared
            .load::<Look<C>>(&mut seat.seat, 1 + t as usize);
        found == 0
    }

    /// True exactly where this is the first claim of the task. The seat has the task in hand then, with the slots of its edges: the
    /// inward ones are full, and the outward ones are empty.
    pub fn claim(&self, seat: &mut WorkerSeat<C>, t: u64) -> bool
        requires seat { IsSeatOf C.edge_of C.key_of self.now seat.old }
        requires free { (hand_of seat.old ≡ None) × (slots_of seat.old ≡ []) }
        requires ready { (t < task_count (tasks_of self.now)) × (0 < done_by (sees t) (view_of seat.old)) }
        ensures list { view_of seat.new ≡ noted (view_of seat.old) (Claimed t result) }
        ensures hand { MatchBool result (hand_of seat.new ≡ Some (record { task = t; started = false })) (hand_of seat.new ≡ None) }
        ensures slots { MatchBool result (AreTaken C.edge_of C.key_of self.now t (slots_of seat.new)) (slots_of seat.new ≡ []) }
        ensures seat { IsSeatOf C.edge_of C.key_of self.now seat.new }
    {
        let n = self.tasks.len();
        let found = self
            .table
            .shared
            .swap::<Claiming<C>>(&mut seat.seat, 1 + n as usize + t as usize, 1);
        if found != 0 {
            return false;
        }
        append(&mut seat.edges, self.tasks.inward(t));
        append(&mut seat.edges, self.tasks.outward(t));
        seat.in_hand = Some(InHand {
            task: t,
            started: false,
        });
        true
    }

    // Starts the task in hand, and returns the stamp.
    fn start(&self, seat: &mut WorkerSeat<C>, task: u64) -> u64
        requires seat { IsSeatOf C.edge_of C.key_of self.now seat.old }
        requires hand { hand_of seat.old ≡ Some (record { task = task; started = false }) }
        ensures list { view_of seat.new ≡ noted (view_of seat.old) (Stamped result task true) }
        ensures above { (k : ℕ) → 0 < done_by (stamps k) (view_of seat.old) → k < result }
        ensures slots { slots_of seat.new ≡ slots_of seat.old }
        ensures hand { hand_of seat.new ≡ Some (record { task = task; started = true }) }
        ensures seat { IsSeatOf C.edge_of C.key_of self.now seat.new }
    {
        let number = self
            .table
            .shared
            .fetch_add::<Starting<C>>(&mut seat.seat, 0, 1);
        seat.in_hand = Some(InHand {
            task,
            started: true,
        });
        number
    }

    // Finishes the task in hand, and returns the stamp. The slots of the edges into it go back, and so does that of its exit edge.
    fn finish(&self, seat: &mut WorkerSeat<C>, task: u64) -> u64
        requires seat { IsSeatOf C.edge_of C.key_of self.now seat.old }
        requires hand { hand_of seat.old ≡ Some (record { task = task; started = true }) }
        requires handed { IsHanded self.now task seat.old }
        ensures list { view_of seat.new ≡ noted (view_of seat.old) (Stamped result task false) }
        ensures above { (k : ℕ) → 0 < done_by (stamps k) (view_of seat.old) → k < result }
        ensures slots { slots_of seat.new ≡ slots_left self.now task seat.old }
        ensures hand { hand_of seat.new ≡ None }
        ensures seat { IsSeatOf C.edge_of C.key_of self.now seat.new }
    {
        let number = self
            .table
            .shared
            .fetch_add::<Finishing<C>>(&mut seat.seat, 0, 1);
        seat.edges.clear();
        append(&mut seat.edges, self.tasks.feeds(task));
        seat.in_hand = None;
        number
    }

    /// Takes the next stamp: starts the task in hand, or finishes it. At the finish the slots of the edges into the task go back,
    /// and so does that of its exit edge.
    pub fn stamp(&self, seat: &mut WorkerSeat<C>) -> u64
        requires seat { IsSeatOf C.edge_of C.key_of self.now seat.old }
        requires hand { IsSomeAnd (hand_of seat.old) (λ r. r.started ≡ true → IsHanded self.now r.task seat.old) }
        ensures list { IfSome (hand_of seat.old) (λ r. view_of seat.new ≡ noted (view_of seat.old) (Stamped result r.task (not r.started))) }
        ensures above { (k : ℕ) → 0 < done_by (stamps k) (view_of seat.old) → k < result }
        ensures start { IfSome (hand_of seat.old) (λ r. r.started ≡ false
            → (hand_of seat.new ≡ Some (record { task = r.task; started = true })) × (slots_of seat.new ≡ slots_of seat.old)) }
        ensures finish { IfSome (hand_of seat.old) (λ r. r.started ≡ true
            → (hand_of seat.new ≡ None) × (slots_of seat.new ≡ slots_left self.now r.task seat.old)) }
        ensures seat { IsSeatOf C.edge_of C.key_of self.now seat.new }
    {
        let InHand { task, started } = seat.in_hand.unwrap();
        if started {
            self.finish(seat, task)
        } else {
            self.start(seat, task)
        }
    }

    /// Arrives at an edge, and returns the count of its reader after that. The seat owes the edge no more: its slot goes back with
    /// the parcel.
    pub fn arrive(&self, seat: &mut WorkerSeat<C>, edge: u64) -> u64
        requires seat { IsSeatOf C.edge_of C.key_of self.now seat.old }
        requires inner { (net_of (tasks_of self.now)).is_inner edge ≡ true }
        requires owed { (0 < done_by (finishes ((net_of (tasks_of self.now)).source edge)) (view_of seat.old))
            × (done_by (arrives edge) (view_of seat.old) ≡ 0) }
        ensures list { view_of seat.new ≡ noted (view_of seat.old) (Arrived edge result) }
        // No arrival of this seat had the count 0 of that reader before.
        ensures first { done_by (zeroes (net_of (tasks_of self.now)) ((net_of (tasks_of self.now)).reader edge)) (view_of seat.old) ≡ 0 }
        ensures slots { slots_of seat.new ≡ but_slot (slots_of seat.old) edge }
        ensures hand { (hand_of seat.old ≡ None) × (hand_of seat.new ≡ None) }
        ensures seat { IsSeatOf C.edge_of C.key_of self.now seat.new }
    {
        let place = place_of(seat.edges.as_slice(), edge);
        let reader = self.tasks.reader(edge);
        let behind = seat.edges.len() - 1 - place;
        spin(&mut seat.seat, place);
        let found = self
            .table
            .shared
            .fetch_sub::<Arriving<C>>(&mut seat.seat, 1 + reader as usize, 1);
        spin(&mut seat.seat, behind);
        seat.edges.remove(place);
        found - 1
    }
}
