// What the lists of a block take of memory, before any lane is begun.

ghost use Rattle.std.specs.Prelude.{◌≡◌, ◌+◌, ◌*◌, ◌<◌, ◌≤◌, length, IfOk, vec_len};
ghost use Rattle.fv_engine_codes.specs.Cells.{ArePlaced};
ghost use Rattle.fv_split_plan.specs.headline.View.{code_of};
ghost use Rattle.fv_engine_codes.specs.Plans.{own_lanes, sources_of, lanes_of_all, readers_of};
ghost use Rattle.fv_engine_codes.specs.Codes.{AreOfPlan, AreLaneCounts};
ghost use Rattle.fv_loopcode_machine.specs.Scratches.{IsNew};
ghost use Rattle.fv_engine_crew.specs.Contents.{list_room, AreRoomy};
ghost use Rattle.fv_engine_crew.specs.Rooms.{IsRoom, HasCells, AreRooms};

use crate::Writers;
use crate::scratch::{scratch_for, times};
use fv_engine_codes::{CellPlaces, LaneCount, LoopCells, LoopLanes};
use fv_graph::Tasks;
use fv_lines::Seen;
use fv_loopcode_machine::Scratch;
use fv_split_plan::Plan;
use std::alloc::{AllocError, Global};

// `count` empty lists, each with room for `room` seen lanes.
fn seen_lists<'a>(alloc: Global, count: u64, room: u64) -> Result<Vec<Vec<Seen<'a>>>, AllocError>
    ensures count { IfOk result (λ v. vec_len v ≡ count) }
    ensures roomy { IfOk result (λ v. AreRoomy v.items room) }
{
    let mut lists = Vec::with_capacity(alloc, count as usize)?;
    for _i in 0..count {
        let list = Vec::with_capacity(alloc, room as usize)?;
        lists.push_reserved(list);
    }
    Ok(lists)
}

// For how many of a loop's lanes a list needs room.
fn room_of_list(lanes: u64) -> u64
    ensures { result ≡ list_room lanes }
{
    if lanes < 3 { 0 } else { lanes }
}

// How many lists a loop of `lanes` lanes needs for `parcels` parcels of them that are to come: none where a parcel holds them itself.
fn count_lists(lanes: u64, parcels: u64) -> u64
    ensures { 3 ≤ lanes → result ≡ parcels }
{
    if lanes < 3 { 0 } else { parcels }
}

// How many loops read a loop.
fn count_readers(tasks: &Tasks, loop_no: u64) -> u64
    requires { loop_no < tasks.now.tasks.loops }
    ensures { result ≡ readers_of tasks.now.tasks loop_no }
{
    // Called for its clauses.
    let _loops = tasks.loops();
    (tasks.outward(loop_no).len() - 1) as u64
}

// `count` empty lists.
fn empty_lists(alloc: Global, count: u64) -> Result<Vec<Vec<i32>>, AllocError>
    ensures { IfOk result (λ v. vec_len v ≡ count) }
{
    let mut lists = Vec::with_capacity(alloc, count as usize)?;
    for _k in 0..count {
        lists.push_reserved(Vec::new(alloc));
    }
    Ok(lists)
}

// The cells of one loop, still empty.
fn loop_cells<'b>(
    alloc: Global,
    plan: &'b Plan,
    places: &'b CellPlaces,
    loop_no: u64,
) -> Result<LoopCells<'b>, AllocError>
    requires { loop_no < length places.now.counts.items }
    ensures { IfOk result (λ c. HasCells plan.now places.now loop_no c) }
{
    let lists = empty_lists(alloc, places.counts[loop_no as usize])?;
    Ok(LoopCells {
        plan,
        places,
        loop_no,
        lists,
    })
}

// The lists of one loop: for its own lanes, for the lanes that it sees, and, where they go in lists, for the lanes that it hands to those
// that read it; its scratch, and its cells.
fn loop_room<'a, 'b>(
    alloc: Global,
    cells: LoopCells<'b>,
    count: LaneCount,
    steps: u64,
    scratch: Scratch,
    lists: u64,
) -> Result<Writers<'a, 'b>, AllocError>
    requires scratch { IsNew steps scratch }
    ensures room { IfOk result (λ w. IsRoom count.own count.seen steps lists w) }
    ensures cells { IfOk result (λ w. w.lanes.cells ≡ cells.entry) }
{
    let own = Vec::with_capacity(alloc, count.own as usize)?;
    let seen = Vec::with_capacity(alloc, count.seen as usize)?;
    let lists = seen_lists(
        alloc,
        count_lists(count.own, lists),
        room_of_list(count.own),
    )?;
    Ok(Writers {
        lanes: LoopLanes { own, seen, cells },
        scratch,
        lists,
    })
}

/// The lists of each loop of a plan for a block of these tasks: what goes over the loop's edges is kept in them, so that no task takes
/// memory. Scratch is what a block before kept, where it fits. More than a type counts is want of memory too.
pub fn take_room<'a, 'b>(
    alloc: Global,
    plan: &'b Plan,
    tasks: &Tasks,
    places: &'b CellPlaces,
    counts: &[LaneCount],
    kept: &mut Vec<Scratch>,
) -> Result<Vec<Box<Writers<'a, 'b>>>, AllocError>
    requires of_plan { AreOfPlan plan.now tasks.now.tasks }
    requires counts { AreLaneCounts plan.now tasks.now.tasks counts.now }
    requires placed { ArePlaced plan.now places.now.places.items places.now.counts.items }
    ensures { IfOk result (λ v. AreRooms plan.now tasks.now.tasks places.now v.items) }
{
    let mut rooms = Vec::with_capacity(alloc, plan.loops() as usize)?;
    for j in 0..plan.loops() {
        let lists = times(u64::from(tasks.vectors()), count_readers(tasks, j))?;
        let cells = loop_cells(alloc, plan, places, j)?;
        let steps = plan.code(j).len();
        let scratch = scratch_for(alloc, kept, steps)?;
        let room = loop_room(alloc, cells, counts[j as usize], steps, scratch, lists)?;
        let room = Box::new(alloc, room)?;
        rooms.push_reserved(room);
    }
    Ok(rooms)
}
