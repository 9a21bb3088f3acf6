// The end of a board.

ghost use Rattle.std.specs.Prelude.{◌≡◌, ℕ, ◌+◌, ◌*◌, ◌-◌, ◌^◌, ◌<◌, ◌≤◌, ◌↔◌, IsTrue, length, List, ◌++◌, true, Some, vec_len, vec_capacity};
ghost use Rattle.std.specs.Slots.{slots_items, slots_filled, slots_len, IsFull};
ghost use mathlib.Core.Option.{some};
ghost use lib.ListN.{get_elem?};
ghost use Rattle.fv_graph.specs.TasksBeside.{times, task_count};
ghost use Rattle.fv_graph.specs.Graph.{IsGraph, edges_of, net_of};
ghost use Rattle.fv_ready.specs.Rule.{done_by, finishes, wins, loses, claim_word};
ghost use Rattle.fv_ready.specs.Promised.{Tells};
ghost use Rattle.fv_ready.specs.declared.view.Deed.{Deed};
ghost use Rattle.fv_ready.specs.Counted.{told_by, having, HaveAll, NothingLeft};
ghost use Rattle.fv_ready.specs.Closed.{AreSeats, AreSlots, IsTaken, Ended};
ghost use Rattle.fv_ready.specs.Boards.{about_of, tasks_of, AreSeatsOf, GainsParcels};

use crate::board::Board;
use crate::rule::{GivesBack, Together, Whole};
use crate::seat::WorkerSeat;
use crate::{About, Parcel, View};
use atomic_table::{Closed, Seat, Shared, Table};
use std::alloc::Global;

// One seat for all.
fn gather<C: Parcel>(
    table: &Shared<Option<C>, View<C>, About<C>, Whole<C>>,
    mut seats: Vec<WorkerSeat<C>>,
) -> Seat<Option<C>, View<C>>
    requires some { 0 < vec_len seats }
    requires words { 0 < table.now.table_id.words }
    requires graph { IsGraph table.now.key.tasks.value.tasks }
    requires seats { AreSeats C.edge_of C.key_of table.now.table_id table.now.key seats.items }
    ensures board { (result.table_id ≡ table.now.table_id) × (result.me.0.board ≡ Some table.now.key) }
    ensures lists { (f : Deed → ℕ) → done_by f result.me.0 ≡ told_by f seats.items }
    ensures numbers { (k : ℕ) → times k result.me.0.numbers ≡ having k seats.items }
{
    let WorkerSeat {
        seat: mut all,
        edges: _,
        in_hand: _,
    } = seats.pop().unwrap();
    while let Some(other) = seats.pop() {
        let WorkerSeat {
            mut seat,
            edges: _,
            in_hand: _,
        } = other;
        table.load::<GivesBack<C>>(&mut seat, 0);
        table.join_seat::<Together<C>>(&mut all, seat);
    }
    all
}

// Joins the seats, and ends the table.
fn end_table<C: Parcel>(
    table: Table<Option<C>, View<C>, About<C>, Whole<C>, Global>,
    seats: Vec<WorkerSeat<C>>,
) -> Closed<Option<C>, Global>
    requires words { 0 < table.shared.table_id.words }
    requires graph { IsGraph table.shared.key.tasks.value.tasks }
    requires seats { AreSeats C.edge_of C.key_of table.shared.table_id table.shared.key seats.items }
    requires all { HaveAll table.shared.key.workers seats.items }
    ensures ended { Ended C.edge_of C.key_of table.shared.key table.shared.key.tasks.value.tasks (slots_items result.words) (slots_items result.slots)
        (λ f. told_by f seats.items) }
    ensures counts { (slots_len result.words ≡ table.shared.table_id.words) × (slots_len result.slots ≡ table.shared.table_id.slots) }
    ensures full { IsFull result.words × IsFull result.slots }
{
    let all = gather(&table.shared, seats);
    table.close_with(all)
}

// Whether no task is claimed.
fn is_untouched<C>(closed: &Closed<Option<C>, Global>, tasks: u64) -> bool
    requires words { IsFull closed.now.words × (slots_len closed.now.words ≡ 1 + tasks + tasks) × (1 + tasks + tasks < 2 ^ 64) }
    ensures { IsTrue result ↔ ((t : ℕ) → t < tasks → get_elem? (slots_items closed.now.words) (claim_word tasks t) ≡ some 0) }
{
    for t in 0..tasks {
        if closed.word(1 + tasks as usize + t as usize) != 0 {
            return false;
        }
    }
    true
}

// Takes the slots out and lets what they hold go.
fn discard<C: Drop>(closed: &mut Closed<Option<C>, Global>, from: u64, to: u64)
    requires range { (from ≤ to) × (to ≤ slots_len closed.old.slots) }
    requires taken { IsTaken (slots_filled closed.old.slots) (slots_len closed.old.slots) from }
    ensures same { (slots_items closed.new.slots ≡ slots_items closed.old.slots) × (slots_len closed.new.slots ≡ slots_len closed.old.slots)
        × (closed.new.words ≡ closed.old.words) }
    ensures taken { IsTaken (slots_filled closed.new.slots) (slots_len closed.old.slots) to }
{
    for e in from..to {
        drop(closed.take(e as usize));
    }
}

// Takes the slots out, and appends their parcels.
fn take_out<C: Drop>(closed: &mut Closed<Option<C>, Global>, from: u64, to: u64, exits: &mut Vec<C>)
    requires range { (from ≤ to) × (to ≤ slots_len closed.old.slots) }
    requires taken { IsTaken (slots_filled closed.old.slots) (slots_len closed.old.slots) from }
    requires full { (e : ℕ) → from ≤ e → e < to → (p : C) × (get_elem? (slots_items closed.old.slots) e ≡ some (Some p)) }
    requires room { vec_len exits.old + (to - from) ≤ vec_capacity exits.old }
    ensures same { (slots_items closed.new.slots ≡ slots_items closed.old.slots) × (slots_len closed.new.slots ≡ slots_len closed.old.slots)
        × (closed.new.words ≡ closed.old.words) }
    ensures taken { IsTaken (slots_filled closed.new.slots) (slots_len closed.old.slots) to }
    ensures exits { (ps : List C) × (exits.new.items ≡ exits.old.items ++ ps) × (length ps ≡ to - from) × AreSlots (slots_items closed.old.slots) from ps }
{
    for e in from..to {
        let parcel = closed.take(e as usize).unwrap();
        exits.push_reserved(parcel);
    }
}

// Takes all slots out, and appends the parcels of those from one place to another.
fn hand_out<C: Drop>(
    mut closed: Closed<Option<C>, Global>,
    from: u64,
    to: u64,
    edges: u64,
    exits: &mut Vec<C>,
)
    requires range { (from ≤ to) × (to ≤ edges) × (slots_len closed.slots ≡ edges) }
    requires filled { IsFull closed.slots }
    requires full { (e : ℕ) → from ≤ e → e < to → (p : C) × (get_elem? (slots_items closed.slots) e ≡ some (Some p)) }
    requires room { vec_len exits.old + (to - from) ≤ vec_capacity exits.old }
    ensures { (ps : List C) × (exits.new.items ≡ exits.old.items ++ ps) × (length ps ≡ to - from) × AreSlots (slots_items closed.slots) from ps }
{
    discard(&mut closed, 0, from);
    take_out(&mut closed, from, to, exits);
    discard(&mut closed, to, edges);
    closed.free();
}

impl<'t, C: Parcel + Drop> Board<'t, C> {
    /// Joins the seats, which are all that the board had, and ends the board. True exactly where every task is done: then
    /// `exits` gets the parcel of each loop's exit edge, loop by loop. Where no task was taken it gets the entries back, as they
    /// were ordered, and in every other case nothing.
    pub fn close(self, seats: Vec<WorkerSeat<C>>, exits: &mut Vec<C>) -> bool
        requires seats { AreSeatsOf C.edge_of C.key_of self seats.items }
        requires all { HaveAll (about_of self).workers seats.items }
        requires room { vec_len exits.old + (tasks_of self).loops ≤ vec_capacity exits.old }
        ensures done { IsTrue result ↔ ((t : ℕ) → t < task_count (tasks_of self.entry) → told_by (finishes t) seats.items ≡ 1) }
        ensures tells { Tells (net_of (tasks_of self.entry)) (λ f. told_by f seats.items) }
        ensures exits { IsTrue result
            → GainsParcels C.edge_of C.key_of self.entry (edges_of (tasks_of self.entry) - (tasks_of self.entry).loops) exits.old.items exits.new.items }
        ensures entries { ((t : ℕ) → t < task_count (tasks_of self.entry) → told_by (wins t) seats.items ≡ 0)
            → GainsParcels C.edge_of C.key_of self.entry 0 exits.old.items exits.new.items }
        ensures nothing { (IsTrue result → ⊥)
            → (t : ℕ) → t < task_count (tasks_of self.entry) → 0 < told_by (wins t) seats.items → exits.new.items ≡ exits.old.items }
        // Where nothing is left over, every task is done, and no claim came too late.
        ensures whole { NothingLeft (net_of (tasks_of self.entry)) seats.items
            → IsTrue result × ((t : ℕ) → t < task_count (tasks_of self.entry) → told_by (loses t) seats.items ≡ 0) }
    {
        let Board { tasks, table } = self;
        let loops = tasks.loops();
        let edges = tasks.edges();
        let n = tasks.len();
        let closed = end_table(table, seats);
        let stamps = closed.word(0);
        if stamps == 2 * n {
            hand_out(closed, edges - loops, edges, edges, exits);
            return true;
        }
        if is_untouched(&closed, n) {
            hand_out(closed, 0, loops, edges, exits);
            return false;
        }
        hand_out(closed, 0, 0, edges, exits);
        false
    }
}
