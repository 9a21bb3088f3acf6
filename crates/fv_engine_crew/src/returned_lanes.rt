// The lanes and cells of a block come back from their loops.

ghost use Rattle.std.specs.Prelude.{◌≡◌, ◌≤◌, ℕ, length, vec_len, vec_capacity};
ghost use Rattle.fv_engine_codes.specs.Cells.{ArePlaced};
ghost use Rattle.fv_engine_crew.specs.Contents.{tasks_in};
ghost use Rattle.fv_engine_crew.specs.Entries.{AreLoopsWriters, AreLoopsLanes};
ghost use Rattle.fv_engine_crew.specs.Collected.{AreChainParcels, AreAllWriters, AreAllCells};

use crate::cell_swap::swap_cells;
use crate::scratch::keep;
use crate::{Content, LoopParcel, Start, Writers};
use fv_lines::LaneWriter;
use fv_loopcode_machine::Scratch;
use std::alloc::Global;

// What each loop handed on, loop by loop, in a list with room for them.
fn loops_writers<'a, 'b>(
    start: &Start<'a, 'b>,
    parcels: Vec<LoopParcel<'a, 'b>>,
    mut writers: Vec<Box<Writers<'a, 'b>>>,
) -> Vec<Box<Writers<'a, 'b>>>
    requires parcels { (v : ℕ) × AreChainParcels start.now v parcels.items }
    requires none { vec_len writers ≡ 0 }
    requires room { vec_len parcels ≤ vec_capacity writers }
    ensures { (v : ℕ) → AreChainParcels start.now v parcels.entry.items → AreLoopsWriters start.now v result.items }
{
    for parcel in parcels {
        let Content::Writers(one) = parcel.into_content() else {
            unreachable!()
        };
        writers.push_reserved(one);
    }
    writers
}

// Each lane's writer from the list of its loop, lane by lane, in a list with room for them. The loops' scratch is kept.
fn all_writers<'a, 'b>(
    alloc: Global,
    start: &Start<'a, 'b>,
    mut writers: Vec<Box<Writers<'a, 'b>>>,
    mut all: Vec<LaneWriter<'a>>,
    kept: &mut Vec<Scratch>,
) -> Vec<LaneWriter<'a>>
    requires loops { (tasks_in start.now).loops ≡ start.now.plan.now.loops }
    requires writers { (v : ℕ) × AreLoopsLanes start.now v writers.items }
    requires none { vec_len all ≡ 0 }
    requires room { length start.now.plan.now.lanes ≤ vec_capacity all }
    ensures { (v : ℕ) → AreLoopsLanes start.now v writers.entry.items → AreAllWriters start.now v result.items }
{
    // Called for its clauses.
    let _loops = start.plan.loops();
    // From the last lane, whose writer stands last in its loop's list.
    for info in start.plan.lanes().iter().rev() {
        let Some(writer) = writers[info.owner as usize].lanes.own.pop() else {
            unreachable!()
        };
        all.push_reserved(writer);
    }
    keep(alloc, writers, kept);
    all.reverse();
    all
}

/// The writers of all lanes, lane by lane, out of the parcels of the loops' own edges at a vector: the exits where a block ran, the
/// entries where it is given up; and the lists of all cells. The lists that are handed in have room, so no memory is needed. The
/// loops' scratch is kept for the next block; where there is no room to keep some, that block makes it anew.
pub fn collect<'a, 'b>(
    alloc: Global,
    start: &Start<'a, 'b>,
    parcels: Vec<LoopParcel<'a, 'b>>,
    writers: Vec<Box<Writers<'a, 'b>>>,
    all: Vec<LaneWriter<'a>>,
    cells: &mut [Vec<i32>],
    kept: &mut Vec<Scratch>,
) -> Vec<LaneWriter<'a>>
    requires loops { (tasks_in start.now).loops ≡ start.now.plan.now.loops }
    requires placed { ArePlaced start.now.plan.now start.now.places.now.places.items start.now.places.now.counts.items }
    requires parcels { (v : ℕ) × AreChainParcels start.now v parcels.items }
    requires no_writers { vec_len writers ≡ 0 }
    requires loops_room { start.now.plan.now.loops ≤ vec_capacity writers }
    requires none { vec_len all ≡ 0 }
    requires lanes_room { length start.now.plan.now.lanes ≤ vec_capacity all }
    requires cells { length cells.old ≡ length start.now.plan.now.cells }
    ensures lanes { (v : ℕ) → AreChainParcels start.now v parcels.entry.items → AreAllWriters start.now v result.items }
    ensures cells { (v : ℕ) → AreChainParcels start.now v parcels.entry.items → AreAllCells start.now v cells.new }
{
    let mut writers = loops_writers(start, parcels, writers);
    swap_cells(start.plan, start.places, cells, writers.as_mut_slice());
    all_writers(alloc, start, writers, all, kept)
}
