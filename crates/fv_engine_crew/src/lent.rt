// The cells of a region, lent for good to a crew.

ghost use Rattle.std.specs.Prelude.{◌≡◌, length};
ghost use Rattle.fv_engine_crew.specs.inner.Buffers.{AreEmpty};
ghost use Rattle.fv_engine_crew.specs.inner.Packs.{MayUse, Leaves};
ghost use Rattle.fv_pool.specs.Uncut.{left_of, loan_of};

use crate::block::SpreadBlock;
use crate::buffers::{Buffers, take_buffers};
use crate::crewed::run_begun;
use crate::whole::end_whole;
use fv_lines::{LaneState, begin_lanes, stop_lanes};
use fv_loopcode_machine::Scratch;
use fv_outside::{Gate, Line};
use fv_pool::{Ended, Uncut};
use std::alloc::Global;
use std::marker::Sync;
use std::sync::Wait;
use std::thread::Threads;

/// What a crew is handed beside the cells of the region, and whether it ran the block.
#[derive(Drop)]
pub(crate) struct Pack<'p, 'b, 's, 'l, 'o> {
    // Where the lists of the block take their memory.
    pub(crate) alloc: Global,
    // What the block is of.
    pub(crate) block: &'p SpreadBlock<'b>,
    // By lane: where its history starts in its part.
    pub(crate) states: &'s mut [LaneState],
    // The block's journal.
    pub(crate) lines: &'l mut Vec<Line>,
    // The output: a number for each of the plan's outputs, one frame after another.
    pub(crate) output: &'o mut [i32],
    // By cells: the items.
    pub(crate) lists: &'o mut Vec<Vec<i32>>,
    // What the codes work in, kept from block to block.
    pub(crate) kept: &'o mut Vec<Scratch>,
    // Whether the crew ran the block.
    pub(crate) ran: bool,
}

// Runs the block over cells that are not yet cut, where there are lists for it to work in.
fn use_buffers<'a, 'b, R: Threads + Wait + Sync, G: Gate + Sync>(
    rt: &R,
    gate: &G,
    pack: &mut Pack<'_, 'b, '_, '_, '_>,
    mut uncut: Uncut<'a>,
    mut buffers: Buffers<'a, 'b>,
) -> (&'a [i32], Ended)
    requires may { MayUse pack.old (left_of uncut) }
    requires buffers { AreEmpty pack.old.block.now buffers }
    ensures { (result.1.name ≡ loan_of uncut.entry) × Leaves pack.old pack.new (left_of uncut.entry) result.1.last }
{
    let block = pack.block;
    begin_lanes(
        &mut uncut,
        block.shapes,
        &*pack.states,
        block.frames,
        &mut buffers.begun,
    );
    let (shared, rest) = uncut.end();
    match run_begun(
        rt,
        block,
        buffers,
        &mut *pack.lists,
        &mut *pack.lines,
        &mut *pack.kept,
        gate,
    ) {
        Ok(all) => {
            pack.ran = true;
            let ended = end_whole(
                pack.alloc,
                block,
                all,
                rest,
                &mut *pack.states,
                &mut *pack.output,
            );
            (shared, ended)
        }
        Err(all) => (shared, stop_lanes(all, rest, &mut *pack.states)),
    }
}

// Runs the block over the cells. Where memory is refused they stay as they are.
fn used<'a, R: Threads + Wait + Sync, G: Gate + Sync>(
    rt: &R,
    gate: &G,
    pack: &mut Pack<'_, '_, '_, '_, '_>,
    cells: &'a mut [i32],
) -> (&'a [i32], Ended)
    requires { MayUse pack.old cells.old }
    ensures { (result.1.name ≡ cells.entry.ghost_name) × Leaves pack.old pack.new cells.old result.1.last }
{
    let uncut = Uncut::of(cells);
    match take_buffers(pack.alloc, pack.block, &mut *pack.kept) {
        Ok(buffers) => use_buffers(rt, gate, pack, uncut, buffers),
        Err(_) => uncut.end(),
    }
}

/// Lends the cells for good to a crew that runs the block over them.
pub(crate) fn lent<R: Threads + Wait + Sync, G: Gate + Sync>(
    rt: &R,
    gate: &G,
    pack: &mut Pack<'_, '_, '_, '_, '_>,
    cells: &mut [i32],
)
    requires { MayUse pack.old cells.old }
    ensures { Leaves pack.old pack.new cells.old cells.new × (length cells.new ≡ length cells.old) }
{
    used(rt, gate, pack, cells);
}
