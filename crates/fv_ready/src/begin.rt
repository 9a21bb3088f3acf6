// A new board.

ghost use Rattle.std.specs.Prelude.{◌≡◌, ℕ, ◌+◌, ◌*◌, ◌-◌, ◌^◌, ◌<◌, ◌≤◌, length, List, []};
ghost use Rattle.std.specs.Prelude.{◌∷◌, ◌++◌, map, replicate, slice_index_or, Option, Some, None, IfOk, IfErr, vec_len, vec_capacity};
ghost use Rattle.fv_base.specs.declared.limits.TheConstants.{MOST_WORKERS};
ghost use Rattle.atomic_table.specs.Table.{State};
ghost use Rattle.fv_graph.specs.Core.{opening};
ghost use Rattle.fv_graph.specs.Graph.{net_of};
ghost use Rattle.fv_ready.specs.declared.view.View.{View};
ghost use Rattle.fv_ready.specs.Seats.{view_of};
ghost use Rattle.fv_ready.specs.Steps.{Meets, ShowsNow};
ghost use Rattle.fv_ready.specs.Whole.{first_words, first_view};
ghost use Rattle.fv_ready.specs.Begun.{first_slots, parcels_of, AreRoomy, AreNewSeats, AreEntries};
ghost use Rattle.fv_ready.specs.Counted.{HaveAll};
ghost use Rattle.fv_ready.specs.Boards.{about_of, graph_of, AreSeatsOf, AreFirstSeatsOf};

use crate::board::Board;
use crate::rule::{ByNumber, Whole};
use crate::seat::WorkerSeat;
use crate::{About, Parcel, View};
use atomic_table::{Refused, Seat, Shared, Table};
use fv_graph::Tasks;
use std::alloc::{AllocError, Global};
use std::snapshot::Snapshot;

// The words: no stamp, each task's count, no claim.
fn words_of(alloc: Global, tasks: &Tasks) -> Result<Vec<u64>, AllocError>
    ensures { IfOk result (λ w. w.items ≡ first_words (net_of tasks.now.tasks)) }
{
    let n = tasks.len();
    let edges = tasks.edges();
    let mut words = Vec::with_capacity(alloc, 1 + n as usize + n as usize)?;
    words.push_reserved(0);
    for t in 0..n {
        words.push_reserved(tasks.count(t));
    }
    for _i in 0..n {
        words.push_reserved(0);
    }
    Ok(words)
}

// Slots with nothing in them.
fn empty_slots<C: Drop>(alloc: Global, edges: u64) -> Result<Vec<Option<C>>, AllocError>
    requires { edges < 2 ^ 62 }
    ensures { IfOk result (λ v. v.items ≡ replicate edges None) }
{
    let mut slots = Vec::with_capacity(alloc, edges as usize)?;
    for _i in 0..edges {
        slots.push_reserved(None);
    }
    Ok(slots)
}

// Moves the entries into the first slots.
fn fill<C: Drop>(slots: &mut Vec<Option<C>>, entries: &mut Vec<C>)
    requires none { slots.old.items ≡ replicate (vec_len slots.old) None }
    requires room { vec_len entries.old ≤ vec_len slots.old }
    ensures slots { slots.new.items ≡ first_slots (vec_len slots.old) entries.old.items }
    ensures emptied { (entries.new.items ≡ []) × (vec_capacity entries.new ≡ vec_capacity entries.old) }
{
    while let Some(parcel) = entries.pop() {
        let place = entries.len();
        slots[place] = Some(parcel);
    }
}

// Moves the parcels of the slots back.
fn hand_back<C: Drop>(entries: &mut Vec<C>, mut slots: Vec<Option<C>>)
    requires none { entries.old.items ≡ [] }
    requires room { length (parcels_of slots.items) ≤ vec_capacity entries.old }
    ensures { entries.new.items ≡ parcels_of slots.items }
{
    while let Some(slot) = slots.pop() {
        if let Some(parcel) = slot {
            entries.push_reserved(parcel);
        }
    }
    entries.reverse();
}

// `count` empty lists, each with room for `room` numbers.
fn roomy_lists(alloc: Global, count: u32, room: usize) -> Result<Vec<Vec<u64>>, AllocError>
    ensures { IfOk result (λ v. (vec_len v ≡ count) × AreRoomy room v.items) }
{
    let mut lists = Vec::with_capacity(alloc, count as usize)?;
    for _i in 0..count {
        let list = Vec::with_capacity(alloc, room)?;
        lists.push_reserved(list);
    }
    Ok(lists)
}

// Cuts the first seat into one for each worker, each with one of the lists.
fn deal<C: Parcel>(
    table: &Shared<Option<C>, View<C>, About<C>, Whole<C>>,
    first: Seat<Option<C>, View<C>>,
    workers: u32,
    mut lists: Vec<Vec<u64>>,
    seats: &mut Vec<WorkerSeat<C>>,
)
    requires seat { (first.table_id ≡ table.now.table_id) × (first.me ≡ (first_view table.now.key, [])) }
    requires words { 0 < table.now.table_id.words }
    requires workers { (table.now.key.workers ≡ workers) × (0 < workers) }
    requires lists { vec_len lists ≡ workers }
    requires room { (seats.old.items ≡ []) × (workers ≤ vec_capacity seats.old) }
    ensures count { vec_len seats.new ≡ workers }
    ensures seats { (room : ℕ) → AreRoomy room lists.items → AreNewSeats table.now.table_id table.now.key room 0 seats.new.items }
{
    let mut last = first;
    for _i in 1..workers {
        let others = table.split_seat::<ByNumber<C>>(&mut last);
        let edges = lists.pop().unwrap();
        seats.push_reserved(WorkerSeat {
            seat: last,
            edges,
            in_hand: None,
        });
        last = others;
    }
    let edges = lists.pop().unwrap();
    seats.push_reserved(WorkerSeat {
        seat: last,
        edges,
        in_hand: None,
    });
}

impl<'t, C: Parcel + Drop> Board<'t, C> {
    /// The board with no task taken, and one seat for each worker. `entries` has one parcel for each loop, that of its
    /// entry edge, all of one key, which becomes the board's. Want of memory hands them back.
    pub fn begin(
        alloc: Global,
        tasks: &'t Tasks,
        workers: u32,
        mut entries: Vec<C>,
    ) -> Result<(Board<'t, C>, Vec<WorkerSeat<C>>), (Vec<C>, AllocError)>
        requires workers { (0 < workers) × (workers ≤ MOST_WORKERS) }
        requires count { vec_len entries ≡ tasks.now.tasks.loops }
        requires entries { AreEntries C.edge_of C.key_of entries.items }
        ensures workers { IfOk result (λ r. (about_of r.0).workers ≡ workers) }
        ensures tasks { IfOk result (λ r. (graph_of r.0 ≡ tasks.now) × ((about_of r.0).tasks.value ≡ tasks.now)) }
        ensures key { IfOk result (λ r. (k : ℕ) (d : C) → k < vec_len entries
            → C.key_of (slice_index_or entries.items k d) ≡ C.key_of (about_of r.0).sample.value) }
        ensures count { IfOk result (λ r. vec_len r.1 ≡ workers) }
        ensures seats { IfOk result (λ r. AreFirstSeatsOf C.edge_of C.key_of r.0 r.1.items) }
        // They are all that the board has.
        ensures all { IfOk result (λ r. AreSeatsOf C.edge_of C.key_of r.0 r.1.items × HaveAll (about_of r.0).workers r.1.items) }
        // While the seats are as they are, the board shows the opening state.
        ensures opening { IfOk result (λ r. (s : State (Option C) (View C)) → Meets C.edge_of C.key_of (about_of r.0) s
            → s.views ≡ map view_of r.1.items → ShowsNow (about_of r.0) s (opening (net_of tasks.now.tasks) workers)) }
        ensures err { IfErr result (λ r. r.0.items ≡ entries.items) }
    {
        let loops = tasks.loops();
        let edges = tasks.edges();
        let room = 2 * (tasks.reads().len() + 1);
        let about = About {
            tasks: Snapshot::of(tasks),
            workers,
            sample: Snapshot::of(&entries[0]),
        };
        let Ok(words) = words_of(alloc, tasks) else {
            return Err((entries, AllocError));
        };
        let Ok(mut seats) = Vec::with_capacity(alloc, workers as usize) else {
            return Err((entries, AllocError));
        };
        let Ok(lists) = roomy_lists(alloc, workers, room) else {
            return Err((entries, AllocError));
        };
        let Ok(mut slots) = empty_slots(alloc, edges) else {
            return Err((entries, AllocError));
        };
        fill(&mut slots, &mut entries);
        match Table::new(alloc, words.as_slice(), slots, &about) {
            Ok((table, seat)) => {
                deal(&table.shared, seat, workers, lists, &mut seats);
                Ok((Board { tasks, table }, seats))
            }
            Err(Refused { slots }) => {
                hand_back(&mut entries, slots);
                Err((entries, AllocError))
            }
        }
    }
}
