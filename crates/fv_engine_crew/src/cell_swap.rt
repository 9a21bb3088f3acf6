// The cells of a block go to their loops, and come back.

ghost use Rattle.std.specs.Prelude.{◌≡◌, ◌<◌, length, slice_index_or, slice_set};
ghost use Rattle.std.specs.declared.alloc.Global.{Global};
ghost use Rattle.fv_engine_codes.specs.Cells.{ArePlaced};
ghost use Rattle.fv_engine_crew.specs.Swapped.{SameButCells, HaveSlots, AreSwapped};

use crate::Writers;
use fv_engine_codes::CellPlaces;
use fv_split_plan::Plan;
use std::mem::swap;

// Exchanges a list with the one that stands at its place in a loop's writers.
fn swap_one<'a, 'b>(one: &mut Writers<'a, 'b>, at: u64, list: &mut Vec<i32>)
    requires { at < length one.old.lanes.cells.lists.items }
    ensures list { list.new ≡ slice_index_or one.old.lanes.cells.lists.items at list.old }
    ensures lists { one.new.lanes.cells.lists.items ≡ slice_set one.old.lanes.cells.lists.items at list.old }
    ensures rest { SameButCells one.old one.new }
{
    swap(&mut one.lanes.cells.lists[at as usize], list);
}

/// Exchanges the list of each cells with the one that stands at its place in its loop's writers. So lists go to their loops, and
/// come back.
pub fn swap_cells<'a, 'b>(
    plan: &Plan,
    places: &CellPlaces,
    lists: &mut [Vec<i32>],
    writers: &mut [Box<Writers<'a, 'b>>],
)
    requires placed { ArePlaced plan.now places.now.places.items places.now.counts.items }
    requires lists { length lists.old ≡ length plan.now.cells }
    requires writers { HaveSlots plan.now places.now.counts.items writers.old }
    ensures { AreSwapped plan.now places.now.places.items lists.old lists.new writers.old writers.new }
{
    let cells = plan.cells();
    for k in 0..cells.len() {
        let one = &mut writers[cells[k].owner as usize];
        swap_one(one, places.places[k], &mut lists[k]);
    }
}
