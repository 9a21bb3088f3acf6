// A crew, put together from its parts.

ghost use Rattle.std.specs.Prelude.{◌≡◌, ◌<◌, ◌≤◌, ◌^◌, map, IfOk, IfErr, vec_len, vec_capacity};
ghost use Rattle.atomic_table.specs.Seated.{TableId};
ghost use Rattle.fv_ready.specs.declared.view.About.{About};
ghost use Rattle.fv_steal.specs.inner.Assembled.{AreParts, AreFrom, AreCrewParts};
ghost use Rattle.fv_steal.specs.Crews.{seat_of, AreFreshSeats, IsCrew};

use crate::crew_deques::{deal, empty_deques, holds_of_all, most_edges};
use crate::part::Part;
use crate::worker::Worker;
use crate::{TaskDeque, Victim};
use fv_graph::Tasks;
use fv_ready::{Parcel, WorkerSeat};
use std::alloc::{AllocError, Global};

// All workers without their seats, from the last on.
pub(crate) fn parts_of<C: Drop>(
    alloc: Global,
    room: usize,
    most: usize,
    mut deques: Vec<TaskDeque>,
    mut all: Vec<Vec<Victim>>,
) -> Result<Vec<Part<C>>, AllocError>
    requires long { vec_len all ≡ vec_len deques }
    ensures parts { IfOk result (λ ps. AreParts room most deques.items all.items 0 ps.items) }
{
    let mut parts = Vec::new(alloc);
    while let Some(deque) = deques.pop() {
        if let Some(victims) = all.pop() {
            let parcels = Vec::with_capacity(alloc, most)?;
            let lines = Vec::with_capacity(alloc, room)?;
            parts.push(Part {
                deque,
                victims,
                parcels,
                lines,
            })?;
        }
    }
    Ok(parts)
}

// The parts with the seats, both from the last on, as workers in the order of their numbers.
pub(crate) fn assemble<C: Drop>(
    mut parts: Vec<Part<C>>,
    mut seats: Vec<WorkerSeat<C>>,
    mut workers: Vec<Worker<C>>,
) -> Vec<Worker<C>>
    requires long { vec_len seats ≡ vec_len parts }
    requires few { vec_len parts < 2 ^ 32 }
    requires none { vec_len workers ≡ 0 }
    requires room { vec_len parts ≤ vec_capacity workers }
    ensures workers { AreFrom parts.items seats.items 0 result.items }
{
    while let Some(part) = parts.pop() {
        if let Some(seat) = seats.pop() {
            let Part {
                deque,
                victims,
                parcels,
                lines,
            } = part;
            let number = workers.len() as u32;
            workers.push_reserved(Worker {
                number,
                seat,
                deque,
                victims,
                parcels,
                lines,
            });
        }
    }
    workers
}

// The parts of a crew, from the last worker on.
fn crew_parts<C: Drop>(
    alloc: Global,
    tasks: &Tasks,
    count: usize,
) -> Result<Vec<Part<C>>, AllocError>
    requires { 0 < count }
    ensures { IfOk result (λ ps. AreCrewParts tasks.now.tasks count ps.items) }
{
    let mut deques = empty_deques(alloc, count, tasks.len())?;
    deal(tasks, &mut deques);
    let all = holds_of_all(alloc, &mut deques, count)?;
    let most = most_edges(tasks);
    parts_of(alloc, tasks.len() as usize, most, deques, all)
}

impl<C: Parcel + Drop> Worker<C> {
    /// A worker for each seat, with its deque and a hold on each deque. It has room for all parcels of a task and for all lines of
    /// a block. The tasks that read no other are dealt to the deques in turn. Want of memory hands the seats back.
    pub fn crew(
        alloc: Global,
        tasks: &Tasks,
        mut seats: Vec<WorkerSeat<C>>,
    ) -> Result<Vec<Worker<C>>, (Vec<WorkerSeat<C>>, AllocError)>
        requires some { 0 < vec_len seats }
        requires few { vec_len seats < 2 ^ 32 }
        ensures crew { IfOk result (λ ws. (id : TableId) (a : About C) → AreFreshSeats C.edge_of C.key_of tasks.now id a seats.items
            → IsCrew C.edge_of C.key_of id a ws.items) }
        ensures seats { IfOk result (λ ws. map seat_of ws.items ≡ seats.items) }
        ensures err { IfErr result (λ r. r.0.items ≡ seats.items) }
    {
        let Ok(parts) = crew_parts(alloc, tasks, seats.len()) else {
            return Err((seats, AllocError));
        };
        let Ok(workers) = Vec::with_capacity(alloc, seats.len()) else {
            return Err((seats, AllocError));
        };
        seats.reverse();
        Ok(assemble(parts, seats, workers))
    }
}
