// A block by a crew.

ghost use Rattle.std.specs.Prelude.{◌≡◌, ◌-◌, ◌<◌, ◌≤◌, [], length, All, IfOk, IfErr, OnOk, OnErr, vec_capacity, vec_len};
ghost use Rattle.fv_base.specs.declared.limits.TheConstants.{MOST_WORKERS};
ghost use Rattle.fv_outside.specs.Tasks.{task_count};
ghost use Rattle.fv_outside.specs.headline.Journal.{IsOrdered};
ghost use Rattle.fv_outside.specs.declared.gate.Line.{Line};
ghost use Rattle.fv_graph.specs.Graph.{IsGraph, edges_of};
ghost use Rattle.fv_ready.specs.Boards.{about_of, graph_of, name_of};
ghost use Rattle.fv_steal.specs.Crews.{IsCrew};
ghost use Rattle.fv_steal.specs.Parcels.{AreParcelsFrom};

use crate::lines::{copy_lines, sort_lines};
use crate::seats::seats_of;
use crate::{Body, Worker, journal_law, work};
use fv_graph::Tasks;
use fv_outside::{Gate, Line};
use fv_ready::{Board, Parcel, WorkerSeat};
use std::alloc::Global;
use std::marker::{Send, Sync};
use std::sync::Wait;
use std::thread::Threads;

/// The tasks of a block, and how many workers run them.
#[derive(Clone, Copy)]
pub struct CrewBlock<'t> {
    pub tasks: &'t Tasks,
    pub workers: u32,
}

/// Runs the tasks of a block by its workers side by side, in whatever order their steals make. `entries` has the parcel of
/// each loop's entry edge, loop by loop. Returns the parcels of the exit edges, and `lines` becomes the block's journal. Where
/// memory is refused no task is run, and the entries come back.
pub fn run_crew<
    R: Threads + Wait + Sync,
    C: Parcel + Send + Drop,
    B: Body<C> + Sync,
    G: Gate + Sync,
>(
    rt: &R,
    alloc: Global,
    block: CrewBlock<'_>,
    entries: Vec<C>,
    body: &B,
    lines: &mut Vec<Line>,
    gate: &G,
) -> Result<Vec<C>, Vec<C>>
    requires workers { (0 < block.workers) × (block.workers ≤ MOST_WORKERS) }
    requires body { B.tasks body.now ≡ block.tasks.now.tasks }
    requires entries { AreParcelsFrom C.edge_of C.key_of (B.key body.now) 0 block.tasks.now.tasks.loops entries.items }
    requires none { lines.old.items ≡ [] }
    requires room { task_count block.tasks.now.tasks ≤ vec_capacity lines.old }
    ensures exits { IfOk result (λ v. AreParcelsFrom C.edge_of C.key_of (B.key body.now)
        (edges_of block.entry.tasks.now.tasks - block.entry.tasks.now.tasks.loops) block.entry.tasks.now.tasks.loops v.items) }
    ensures journal { OnOk result (IsOrdered block.entry.tasks.now.tasks lines.new.items) }
    ensures count { OnOk result (length lines.new.items ≡ task_count block.entry.tasks.now.tasks) }
    // Each task was run by one of these workers.
    ensures who { OnOk result (All (λ (line : Line). line.worker < block.entry.workers) lines.new.items) }
    ensures entries { IfErr result (λ v. AreParcelsFrom C.edge_of C.key_of (B.key body.now) 0 block.entry.tasks.now.tasks.loops v.items) }
    ensures untold { OnErr result (lines.new.items ≡ []) }
    ensures room { vec_capacity lines.old ≤ vec_capacity lines.new }
{
    let CrewBlock { tasks, workers } = block;
    let Ok(mut exits) = Vec::with_capacity(alloc, tasks.loops() as usize) else {
        return Err(entries);
    };
    let Ok(room) = Vec::with_capacity(alloc, workers as usize) else {
        return Err(entries);
    };
    let (board, seats) = match Board::begin(alloc, tasks, workers, entries) {
        Ok(made) => made,
        Err((entries, _error)) => return Err(entries),
    };
    let crew = match Worker::crew(alloc, tasks, seats) {
        Ok(crew) => crew,
        Err((seats, _error)) => {
            board.close(seats, &mut exits);
            return Err(exits);
        }
    };
    let begun = BegunBlock {
        board,
        crew,
        room,
        exits,
    };
    let exits = work_board(rt, tasks, begun, body, lines, gate);
    Ok(exits)
}

/// A block whose tasks are about to run.
pub struct BegunBlock<'t, C: Parcel> {
    board: Board<'t, C>,
    crew: Vec<Worker<C>>,
    // Room for the crew's seats.
    room: Vec<WorkerSeat<C>>,
    // Room for the parcels of the exit edges.
    exits: Vec<C>,
}

/// Has the crew run all tasks of its board, makes its lines the journal, and closes the board. Returns the parcels of the exit edges.
fn work_board<R: Threads + Wait + Sync, C: Parcel + Send + Drop, B: Body<C> + Sync, G: Gate + Sync>(
    rt: &R,
    tasks: &Tasks,
    block: BegunBlock<'_, C>,
    body: &B,
    lines: &mut Vec<Line>,
    gate: &G,
) -> Vec<C>
    requires graph { IsGraph tasks.now.tasks }
    requires board { (graph_of block.board ≡ tasks.now) × ((about_of block.board).tasks.value ≡ tasks.now) }
    requires some { 0 < vec_len block.crew }
    requires crew { IsCrew C.edge_of C.key_of (name_of block.board) (about_of block.board) block.crew.items }
    requires body { (B.tasks body.now ≡ tasks.now.tasks) × (B.key body.now ≡ C.key_of (about_of block.board).sample.value) }
    requires seats { (vec_len block.room ≡ 0) × (vec_len block.crew ≤ vec_capacity block.room) }
    requires lines { (lines.old.items ≡ []) × (task_count tasks.now.tasks ≤ vec_capacity lines.old) }
    requires exits { (block.exits.items ≡ []) × (tasks.now.tasks.loops ≤ vec_capacity block.exits) }
    ensures exits { AreParcelsFrom C.edge_of C.key_of (B.key body.now)
        (edges_of tasks.now.tasks - tasks.now.tasks.loops) tasks.now.tasks.loops result.items }
    ensures journal { IsOrdered tasks.now.tasks lines.new.items }
    ensures count { length lines.new.items ≡ task_count tasks.now.tasks }
    // Each task was run by one of the board's workers.
    ensures who { All (λ (line : Line). line.worker < (about_of block.entry.board).workers) lines.new.items }
    ensures room { vec_capacity lines.old ≤ vec_capacity lines.new }
{
    let BegunBlock {
        board,
        mut crew,
        room,
        mut exits,
    } = block;
    journal_law::<C>();
    work(rt, tasks, &board, crew.as_mut_slice(), body, gate);
    copy_lines(crew.as_slice(), lines);
    sort_lines(lines);
    board.close(seats_of(crew, room), &mut exits);
    exits
}
