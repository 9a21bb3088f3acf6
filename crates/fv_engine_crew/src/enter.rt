// The lanes and cells of a block as its loops take them over.

ghost use Rattle.std.specs.Prelude.{◌≡◌, ◌≤◌, length, vec_len, vec_capacity};
ghost use Rattle.fv_steal.specs.Parcels.{AreParcelsFrom};
ghost use Rattle.fv_engine_crew.specs.declared.parcel.LoopParcel.{LoopParcel};
ghost use Rattle.fv_engine_crew.specs.Rooms.{AreRooms};
ghost use Rattle.fv_engine_crew.specs.Spread.{IsSpread, block_in, tasks_of};
ghost use Rattle.fv_engine_crew.specs.inner.Lanes.{AreOpen, IsStartOf};

use crate::block::SpreadBlock;
use crate::{
    LoopBody, LoopParcel, Start, Writers, deal, dealt_rooms_enter, entries_of, swap_cells,
};
use fv_lines::LaneWriter;
use std::snapshot::Snapshot;

/// Makes what runs the block's tasks, and the parcels with which its loops begin. Each has the writers of its lanes, and its cells.
pub(crate) fn enter<'a, 'b>(
    block: &SpreadBlock<'b>,
    begun: Vec<LaneWriter<'a>>,
    mut rooms: Vec<Box<Writers<'a, 'b>>>,
    entries: Vec<LoopParcel<'a, 'b>>,
    lists: &mut Vec<Vec<i32>>,
) -> (LoopBody<'a, 'b>, Vec<LoopParcel<'a, 'b>>)
    requires spread { IsSpread block.now }
    requires begun { AreOpen (block_in block.now) block.now.plan.now.tables begun.items lists.old.items }
    requires rooms { AreRooms block.now.plan.now (tasks_of block.now) block.now.places.now rooms.items }
    requires none { vec_len entries ≡ 0 }
    requires room { vec_len rooms ≤ vec_capacity entries }
    ensures start { IsStartOf block.now begun.entry.items lists.old.items result.0.start }
    ensures lists { length lists.new.items ≡ length lists.old.items }
    ensures entries { AreParcelsFrom (λ (p : LoopParcel). p.edge) (λ (p : LoopParcel). p.start.value) result.0.start 0 (tasks_of block.now).loops
        result.1.items }
{
    // For the prover: the lists that the lanes are dealt to are those with which the loops enter.
    dealt_rooms_enter();
    let start = Start {
        plan: block.plan,
        tasks: block.tasks,
        places: block.places,
        held: block.held,
        input: block.input,
        channels: block.channels,
        vector: block.vector,
        frames: block.frames,
        lanes: Snapshot::of(&begun),
        cells: Snapshot::of(&*lists),
    };
    deal(block.plan, begun, rooms.as_mut_slice());
    swap_cells(
        block.plan,
        block.places,
        lists.as_mut_slice(),
        rooms.as_mut_slice(),
    );
    let body = LoopBody::new(start, block.codes);
    let entries = entries_of(body.start(), rooms, entries);
    (body, entries)
}
