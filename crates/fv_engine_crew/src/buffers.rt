// All lists that a block works in, taken before any lane is begun.

ghost use Rattle.std.specs.Prelude.{IfOk};
ghost use Rattle.fv_engine_crew.specs.Spread.{IsSpread};
ghost use Rattle.fv_engine_crew.specs.inner.Buffers.{AreEmpty};

use crate::block::SpreadBlock;
use crate::{LoopParcel, Writers, take_room};
use fv_lines::LaneWriter;
use fv_loopcode_machine::Scratch;
use std::alloc::{AllocError, Global};

/// All lists that a block works in, taken before any lane is begun. Those that the block fills have room for all that comes into
/// them.
#[derive(Drop)]
pub(crate) struct Buffers<'a, 'b> {
    // Where they were taken from, and where all else that the block takes is taken from.
    pub(crate) alloc: Global,
    // By loop: its lists and its scratch.
    pub(crate) rooms: Vec<Box<Writers<'a, 'b>>>,
    // The lanes as they begin, lane by lane.
    pub(crate) begun: Vec<LaneWriter<'a>>,
    // The parcels with which the loops begin, loop by loop.
    pub(crate) entries: Vec<LoopParcel<'a, 'b>>,
    // The lists of the loops as they come back, loop by loop.
    pub(crate) emptied: Vec<Box<Writers<'a, 'b>>>,
    // The lanes as they come back, lane by lane.
    pub(crate) back: Vec<LaneWriter<'a>>,
}

/// Takes all lists that a block works in. The scratch of `kept` is used where it fits.
pub(crate) fn take_buffers<'a, 'b>(
    alloc: Global,
    block: &SpreadBlock<'b>,
    kept: &mut Vec<Scratch>,
) -> Result<Buffers<'a, 'b>, AllocError>
    requires { IsSpread block.now }
    ensures { IfOk result (λ l. AreEmpty block.now l) }
{
    let loops = block.plan.loops() as usize;
    let lanes = block.shapes.len();
    let rooms = take_room(
        alloc,
        block.plan,
        block.tasks,
        block.places,
        block.counts,
        kept,
    )?;
    let begun = Vec::with_capacity(alloc, lanes)?;
    let entries = Vec::with_capacity(alloc, loops)?;
    let emptied = Vec::with_capacity(alloc, loops)?;
    let back = Vec::with_capacity(alloc, lanes)?;
    Ok(Buffers {
        alloc,
        rooms,
        begun,
        entries,
        emptied,
        back,
    })
}
