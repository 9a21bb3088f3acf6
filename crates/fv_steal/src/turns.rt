// One turn of a worker.

ghost use Rattle.std.specs.Prelude.{◌≡◌, ℕ, ◌+◌, ◌<◌, ◌≤◌, ◌==◌, Some, None, true, false, [], ◌∷◌, ◌++◌, length, vec_capacity, vec_len};
ghost use Rattle.fv_outside.specs.headline.Tasks.{bit};
ghost use Rattle.fv_outside.specs.Tasks.{task_count};
ghost use Rattle.fv_graph.specs.Graph.{net_of, inward, outward};
ghost use Rattle.fv_graph.specs.Wires.{IsWires, wires_of};
ghost use Rattle.fv_ready.specs.Rule.{done_by, claims, noted};
ghost use Rattle.fv_ready.specs.declared.view.Deed.TheVariants.{Stamped};
ghost use Rattle.fv_ready.specs.Seats.{view_of, slots_of, hand_of};
ghost use Rattle.fv_ready.specs.Boards.{about_of, graph_of, IsSeatOf, AreTaken};
ghost use Rattle.fv_steal.specs.Crews.{did, took, IsWorkerOf, IsSame};

use crate::body::Body;
use crate::moves::{arrive_all, hand_all, look, receive_all};
use crate::worker::Worker;
use fv_graph::{Tasks, edges_meet};
use fv_outside::{Gate, Line, Task};
use fv_ready::{Board, Parcel, WorkerSeat};
use std::sync::Wait;

/// Which worker took which task.
#[derive(Clone, Copy)]
pub struct Taken {
    worker: u32,
    task: u64,
}

/// Runs the task that the seat took: it starts, its parcels come in, its body runs, its parcels go out, and it finishes. The two
/// stamps.
fn run<C: Parcel + Drop, B: Body<C>, G: Gate>(
    tasks: &Tasks,
    board: &Board<'_, C>,
    body: &B,
    gate: &G,
    seat: &mut WorkerSeat<C>,
    parcels: &mut Vec<C>,
    taken: Taken,
) -> (u64, u64)
    requires wires { IsWires (wires_of tasks.now.tasks) }
    requires tasks { graph_of board.now ≡ tasks.now }
    requires body { (B.tasks body.now ≡ tasks.now.tasks) × (B.key body.now ≡ C.key_of (about_of board.now).sample.value) }
    requires seat { IsSeatOf C.edge_of C.key_of board.now seat.old }
    requires task { taken.task < task_count tasks.now.tasks }
    requires hand { hand_of seat.old ≡ Some (record { task = taken.task; started = false }) }
    requires taken { AreTaken C.edge_of C.key_of board.now taken.task (slots_of seat.old) }
    requires none { vec_len parcels.old ≡ 0 }
    requires room { (length (inward tasks.now.tasks taken.task) ≤ vec_capacity parcels.old)
        × (length (outward tasks.now.tasks taken.task) ≤ vec_capacity parcels.old) }
    ensures list { view_of seat.new ≡ noted (noted (view_of seat.old) (Stamped result.0 taken.task true)) (Stamped result.1 taken.task false) }
    ensures spans { result.0 < result.1 }
    ensures hand { hand_of seat.new ≡ None }
    ensures seat { IsSeatOf C.edge_of C.key_of board.now seat.new }
    ensures none { vec_len parcels.new ≡ 0 }
    ensures room { vec_capacity parcels.old ≤ vec_capacity parcels.new }
{
    let task = tasks.task(taken.task);
    let start = board.stamp(seat);
    receive_all(tasks, board, seat, taken.task, parcels);
    gate.at(taken.worker, task);
    body.run(task, parcels);
    hand_all(tasks, board, seat, taken.task, parcels);
    let finish = board.stamp(seat);
    (start, finish)
}

/// Writes the line of a task that a worker ran between these stamps.
fn write_line(lines: &mut Vec<Line>, number: u32, task: Task, start: u64, finish: u64)
    requires room { vec_len lines.old < vec_capacity lines.old }
    ensures line { lines.new.items ≡ lines.old.items ++ (record { task = task; worker = number; start = start; finish = finish }) ∷ [] }
    ensures room { vec_capacity lines.new ≡ vec_capacity lines.old }
{
    lines.push_reserved(Line {
        task,
        worker: number,
        start,
        finish,
    });
}

/// Runs a task whose number the worker took, unless another seat has claimed it.
pub(crate) fn turn<R: Wait, C: Parcel + Drop, B: Body<C>, G: Gate>(
    rt: &R,
    tasks: &Tasks,
    board: &Board<'_, C>,
    body: &B,
    gate: &G,
    worker: &mut Worker<C>,
    t: u64,
)
    requires tasks { graph_of board.now ≡ tasks.now }
    requires body { (B.tasks body.now ≡ tasks.now.tasks) × (B.key body.now ≡ C.key_of (about_of board.now).sample.value) }
    requires worker { IsWorkerOf C.edge_of C.key_of board.now worker.old }
    ensures worker { IsWorkerOf C.edge_of C.key_of board.now worker.new }
    ensures same { IsSame worker.old worker.new }
    ensures took { (x : ℕ) → took worker.new x ≡ took worker.old x }
    ensures claimed { (x : ℕ) → x < task_count tasks.now.tasks → done_by (claims x) (did worker.new) ≡ done_by (claims x) (did worker.old) + bit (t == x) }
{
    // For the prover: each edge stands once among those into its reader, and once among those out of its source.
    edges_meet();
    if t >= tasks.len() {
        return;
    }
    look(rt, board, &mut worker.seat, t);
    if !board.claim(&mut worker.seat, t) {
        return;
    }
    let taken = Taken {
        worker: worker.number,
        task: t,
    };
    let (start, finish) = run(
        tasks,
        board,
        body,
        gate,
        &mut worker.seat,
        &mut worker.parcels,
        taken,
    );
    let task = tasks.task(t);
    write_line(&mut worker.lines, worker.number, task, start, finish);
    arrive_all(tasks, board, &mut worker.seat, &mut worker.deque, t);
}
