// A block by a crew, from its beginning to its end.

ghost use Rattle.std.specs.Prelude.{◌≡◌, ◌<◌, ◌≤◌, map, vec_len, vec_capacity};
ghost use Rattle.fv_base.specs.declared.limits.TheConstants.{MOST_WORKERS};
ghost use Rattle.fv_steal.specs.Crews.{seat_of};

use crate::notes::{Note, Notes, entries};
use fv_graph::Tasks;
use fv_outside::{Gate, Line};
use fv_ready::{Board, WorkerSeat};
use fv_steal::{Worker, work};
use std::alloc::{AllocError, Global};
use std::marker::Sync;
use std::sync::Wait;
use std::thread::Threads;

/// What a block leaves: whether all tasks are done, how many exits there are, and the workers' lines, worker by worker.
#[derive(Drop)]
pub struct Finished {
    pub done: bool,
    pub exits: usize,
    pub lines: Vec<Line>,
}

// Copies the lines of all workers.
fn copied<C: Drop>(workers: &[Worker<C>], lines: &mut Vec<Line>) -> Result<(), AllocError> {
    for worker in workers {
        for line in worker.lines() {
            lines.push(*line)?;
        }
    }
    Ok(())
}

// The workers' seats.
fn seats_of(workers: Vec<Worker<Note>>, mut seats: Vec<WorkerSeat<Note>>) -> Vec<WorkerSeat<Note>>
    requires room { (vec_len seats ≡ 0) × (vec_len workers ≤ vec_capacity seats) }
    ensures { result.items ≡ map seat_of workers.items }
{
    for worker in workers {
        seats.push_reserved(worker.into_seat());
    }
    seats
}

/// Runs a block of these tasks by `count` workers.
pub fn ran<R: Threads + Wait + Sync, G: Gate + Sync>(
    rt: &R,
    alloc: Global,
    tasks: &Tasks,
    count: u32,
    gate: &G,
) -> Result<Finished, AllocError>
    requires { (0 < count) × (count ≤ MOST_WORKERS) }
{
    let list = entries(alloc, tasks.loops())?;
    let mut exits = Vec::with_capacity(alloc, tasks.loops() as usize)?;
    let mut lines = Vec::new(alloc);
    let room = Vec::with_capacity(alloc, count as usize)?;
    let (board, seats) = match Board::begin(alloc, tasks, count, list) {
        Ok(made) => made,
        Err((_list, error)) => return Err(error),
    };
    let mut workers = match Worker::crew(alloc, tasks, seats) {
        Ok(workers) => workers,
        Err((seats, error)) => {
            board.close(seats, &mut exits);
            return Err(error);
        }
    };
    let body = Notes { tasks, block: 9 };
    work(rt, tasks, &board, workers.as_mut_slice(), &body, gate);
    let kept = copied(workers.as_slice(), &mut lines);
    let done = board.close(seats_of(workers, room), &mut exits);
    kept?;
    Ok(Finished {
        done,
        exits: exits.len(),
        lines,
    })
}
