// The lanes of a block go to their loops.

ghost use Rattle.std.specs.Prelude.{◌≡◌, length};
ghost use Rattle.fv_split_plan.specs.TasksBeside.{Tasks};
ghost use Rattle.fv_engine_codes.specs.declared.loop_cells.CellPlaces.{CellPlaces};
ghost use Rattle.fv_engine_crew.specs.Dealt.{AreDealt};
ghost use Rattle.fv_engine_crew.specs.Rooms.{AreRooms};

use crate::Writers;
use fv_lines::LaneWriter;
use fv_split_plan::Plan;

/// Deals each lane's writer to the list of its loop, lane by lane, so that a loop has its lanes in their order. The lists have
/// room, so that no memory is taken.
pub fn deal<'a, 'b>(plan: &Plan, all: Vec<LaneWriter<'a>>, rooms: &mut [Box<Writers<'a, 'b>>])
    requires count { length all.items ≡ length plan.now.lanes }
    requires rooms { (g : Tasks) × (places : CellPlaces) × AreRooms plan.now g places rooms.old }
    ensures { AreDealt plan.now all.entry.items rooms.old rooms.new }
{
    // Called for its clauses.
    let _loops = plan.loops();
    for (info, writer) in plan.lanes().iter().zip(all) {
        let room = &mut rooms[info.owner as usize];
        room.lanes.own.push_reserved(writer);
    }
}
