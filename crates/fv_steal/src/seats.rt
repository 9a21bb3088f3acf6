// The seats of workers that are done.

ghost use Rattle.std.specs.Prelude.{◌≡◌, ◌≤◌, map, vec_len, vec_capacity};
ghost use Rattle.fv_steal.specs.Crews.{seat_of};

use crate::Worker;
use fv_ready::WorkerSeat;

/// The workers' seats, in a list with room for them.
pub(crate) fn seats_of<C: Drop>(
    workers: Vec<Worker<C>>,
    mut seats: Vec<WorkerSeat<C>>,
) -> Vec<WorkerSeat<C>>
    requires none { vec_len seats ≡ 0 }
    requires room { vec_len workers ≤ vec_capacity seats }
    ensures { result.items ≡ map seat_of workers.items }
{
    for worker in workers {
        seats.push_reserved(worker.into_seat());
    }
    seats
}
