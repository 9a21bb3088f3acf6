// All tasks of a block by a crew, over lanes that are begun, and the lists of the plan's cells.

ghost use Rattle.std.specs.Prelude.{◌≡◌, ◌<◌, ◌≤◌, [], length, All, IfOk, IfErr, OnOk, OnErr, vec_capacity};
ghost use Rattle.fv_outside.specs.Tasks.{task_count};
ghost use Rattle.fv_outside.specs.headline.Journal.{IsOrdered};
ghost use Rattle.fv_outside.specs.declared.gate.Line.{Line};
ghost use Rattle.fv_split_plan.specs.Rows.{lists_of};
ghost use Rattle.fv_engine_crew.specs.Spread.{IsSpread, block_in, tasks_of};
ghost use Rattle.fv_engine_crew.specs.inner.Buffers.{HaveRoom};
ghost use Rattle.fv_engine_crew.specs.inner.Lanes.{AreOpen, AreWhole, AreUntouched};

use crate::block::SpreadBlock;
use crate::buffers::Buffers;
use crate::collect;
use crate::enter::enter;
use fv_lines::LaneWriter;
use fv_loopcode_machine::Scratch;
use fv_outside::{Gate, Line};
use fv_steal::{CrewBlock, run_crew};
use std::marker::Sync;
use std::sync::Wait;
use std::thread::Threads;

/// Runs all tasks by a crew. Returns the writers of all lanes: written whole, or as they were where memory is refused. So it is
/// with the lists.
pub(crate) fn run_begun<'a, 'b, R: Threads + Wait + Sync, G: Gate + Sync>(
    rt: &R,
    block: &SpreadBlock<'b>,
    buffers: Buffers<'a, 'b>,
    lists: &mut Vec<Vec<i32>>,
    lines: &mut Vec<Line>,
    kept: &mut Vec<Scratch>,
    gate: &G,
) -> Result<Vec<LaneWriter<'a>>, Vec<LaneWriter<'a>>>
    requires spread { IsSpread block.now }
    requires buffers { HaveRoom block.now buffers }
    requires begun { AreOpen (block_in block.now) block.now.plan.now.tables buffers.begun.items lists.old.items }
    requires none { lines.old.items ≡ [] }
    requires room { task_count (tasks_of block.now) ≤ vec_capacity lines.old }
    ensures whole { IfOk result (λ v. AreWhole (block_in block.now) block.now.plan.now.tables buffers.entry.begun.items v.items
        lists.old.items lists.new.items) }
    ensures journal { OnOk result (IsOrdered (tasks_of block.now) lines.new.items) }
    ensures count { OnOk result (length lines.new.items ≡ task_count (tasks_of block.now)) }
    ensures who { OnOk result (All (λ (line : Line). line.worker < block.now.workers) lines.new.items) }
    ensures untouched { IfErr result (λ v. AreUntouched buffers.entry.begun.items v.items) }
    ensures as_before { OnErr result (lists_of lists.new.items ≡ lists_of lists.old.items) }
    ensures untold { OnErr result (lines.new.items ≡ []) }
    ensures room { vec_capacity lines.old ≤ vec_capacity lines.new }
{
    let Buffers {
        alloc,
        rooms,
        begun,
        entries,
        emptied,
        back,
    } = buffers;
    let (body, entries) = enter(block, begun, rooms, entries, &mut *lists);
    let cells = lists.as_mut_slice();
    let crew = CrewBlock {
        tasks: block.tasks,
        workers: block.workers,
    };
    match run_crew(rt, alloc, crew, entries, &body, lines, gate) {
        Ok(exits) => {
            let all = collect(alloc, body.start(), exits, emptied, back, cells, kept);
            Ok(all)
        }
        Err(entries) => {
            let all = collect(alloc, body.start(), entries, emptied, back, cells, kept);
            Err(all)
        }
    }
}
