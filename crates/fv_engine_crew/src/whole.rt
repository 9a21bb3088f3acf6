// The lanes of a block that ran.

ghost use Rattle.std.specs.Prelude.{◌≡◌, ℕ, ◌+◌, ◌*◌, ◌<◌, ◌++◌, length, map, All, pos, slice_index_or};
ghost use Rattle.std.specs.List.{flat_map};
ghost use base.Fml.{GName};
ghost use Rattle.fv_lines.specs.Writer.{content_of, written_by, frames_of};
ghost use Rattle.fv_lines.specs.Cut.{IsChain, HoldEnds};
ghost use Rattle.fv_engine_tasks.specs.Outputs.{CanRead, sample_of};
ghost use Rattle.fv_engine_codes.specs.Lanes.{lane_open};
ghost use Rattle.fv_engine_codes.specs.Cells.{ArePlaced};

use crate::block::SpreadBlock;
use fv_engine_codes::{LoopCells, LoopLanes};
use fv_engine_tasks::copy_outputs;
use fv_lines::{LaneState, LaneWriter, end_lanes};
use fv_pool::Ended;
use std::alloc::Global;

/// Copies the lanes of the outputs, and ends all lanes. `rest` is how the loan of the cells ended that come after the lanes.
pub(crate) fn end_whole<'a>(
    alloc: Global,
    block: &SpreadBlock<'_>,
    all: Vec<LaneWriter<'a>>,
    rest: Ended,
    states: &mut [LaneState],
    output: &mut [i32],
) -> Ended
    requires placed { ArePlaced block.now.plan.now block.now.places.now.places.items block.now.places.now.counts.items }
    requires full { All (λ w. written_by w ≡ frames_of w) all.items }
    requires count { length states.old ≡ length all.items }
    requires chain { (γ : GName) × IsChain γ rest.name all.items }
    requires there { (t : ℕ) → t < block.now.frames → All (CanRead (map lane_open all.items) t) block.now.plan.now.outputs }
    requires long { length output.old ≡ block.now.frames * length block.now.plan.now.outputs }
    ensures name { (γ : GName) → IsChain γ rest.name all.entry.items → result.name ≡ γ }
    ensures last { result.last ≡ flat_map content_of all.entry.items ++ rest.last }
    ensures states { HoldEnds all.entry.items states.new }
    ensures samples { (t j : ℕ) → t < block.now.frames → j < length block.now.plan.now.outputs
        → slice_index_or output.new (t * length block.now.plan.now.outputs + j) (pos 0)
        ≡ sample_of (map lane_open all.entry.items) t (slice_index_or block.now.plan.now.outputs j 0) }
{
    // The outputs read no cells.
    let cells = LoopCells {
        plan: block.plan,
        places: block.places,
        loop_no: 0,
        lists: Vec::new(alloc),
    };
    let lanes = LoopLanes {
        own: all,
        seen: Vec::new(alloc),
        cells,
    };
    copy_outputs(
        block.plan.outputs(),
        u64::from(block.frames),
        &lanes,
        output,
    );
    let LoopLanes {
        own,
        seen: _,
        cells: _,
    } = lanes;
    end_lanes(own, rest, states)
}
