// A block by a crew.

ghost use Rattle.std.specs.Prelude.{◌≡◌, ◌*◌, ◌<◌, ◌≤◌, [], length, All, true, false, vec_capacity};
ghost use Rattle.fv_outside.specs.Tasks.{task_count};
ghost use Rattle.fv_outside.specs.declared.gate.Line.{Line};
ghost use Rattle.fv_lines.specs.Solo.{AreHeld};
ghost use Rattle.fv_lines.specs.Cut.{lengths_by};
ghost use Rattle.fv_split_plan.specs.Rows.{lists_of};
ghost use Rattle.fv_engine_crew.specs.Ran.{Ran};
ghost use Rattle.fv_engine_crew.specs.Spread.{block_in, tasks_of, IsSpread, MayRunOver, opening_of, HoldAsBefore};

use crate::block::SpreadBlock;
use crate::lent::{Pack, lent};
use fv_lines::LaneState;
use fv_loopcode_machine::Scratch;
use fv_outside::{Gate, Line};
use std::alloc::Global;
use std::marker::Sync;
use std::sync::Wait;
use std::thread::Threads;

/// Runs the tasks of a block by its workers side by side, and copies the lanes of the outputs. `cells` has the lanes, and `lists`
/// the plan's cells. What the codes work in is taken from `kept`, and is put there again for the next block. Where memory is
/// refused no task runs: each lane keeps the history that it held, each list stays, and the answer is false.
pub fn run_spread<R: Threads + Wait + Sync, G: Gate + Sync>(
    rt: &R,
    alloc: Global,
    block: &SpreadBlock<'_>,
    cells: &mut [i32],
    states: &mut [LaneState],
    lists: &mut Vec<Vec<i32>>,
    lines: &mut Vec<Line>,
    output: &mut [i32],
    kept: &mut Vec<Scratch>,
    gate: &G,
) -> bool
    requires spread { IsSpread block.now }
    requires over { MayRunOver block.now states.old cells.old lists.old.items }
    requires none { lines.old.items ≡ [] }
    requires room { task_count (tasks_of block.now) ≤ vec_capacity lines.old }
    requires output { length output.old ≡ block.now.frames * length block.now.plan.now.outputs }
    ensures ran { result ≡ true → Ran (tasks_of block.now) (block_in block.now) (lengths_by block.now.shapes.now) block.now.shapes.now
        (opening_of block.now states.old cells.old lists.old.items) cells.new states.new lists.new.items lines.new.items block.now.plan.now.outputs output.new }
    // Each task was run by one of the block's workers.
    ensures who { result ≡ true → All (λ (line : Line). line.worker < block.now.workers) lines.new.items }
    ensures left { result ≡ false → HoldAsBefore block.now.shapes.now states.old cells.old states.new cells.new }
    ensures lists_left { result ≡ false → lists_of lists.new.items ≡ lists_of lists.old.items }
    ensures untold { result ≡ false → lines.new.items ≡ [] }
    ensures silent { result ≡ false → output.new ≡ output.old }
    ensures lanes { AreHeld (lengths_by block.now.shapes.now) block.now.shapes.now states.new }
    ensures room { vec_capacity lines.old ≤ vec_capacity lines.new }
{
    let mut pack = Pack {
        alloc,
        block,
        states,
        lines,
        output,
        lists,
        kept,
        ran: false,
    };
    lent(rt, gate, &mut pack, cells);
    pack.ran
}
