// Worked examples: two loops, one vector, and loop 1 reads loop 0. The edges are 0 and 1 into the loops, 2 from task 0 to task 1,
// and 3 and 4 out of the loops.

ghost use Rattle.std.specs.Prelude.{◌≡◌, ◌+◌, ◌≤◌, [], ◌∷◌, Some, None, false, IfOk, vec_len, vec_capacity};
ghost use Rattle.fv_ready.specs.Rule.{arrives, done_by};
ghost use Rattle.fv_ready.specs.Begun.{AreEntries};
ghost use Rattle.fv_ready.specs.Seats.{view_of, slots_of, hand_of};
ghost use Rattle.fv_ready.specs.Boards.{about_of, tasks_of, IsSeatOf, IsFirstSeatOf, AreFirstSeatsOf, AreTaken};
ghost use Rattle.fv_schedule_tests.specs.TwoLoops.{two_loops};

use fv_graph::Tasks;
use fv_outside::Reads;
use fv_ready::{Board, Parcel, WorkerSeat};
use std::alloc::{AllocError, Global};
use std::process::Abort;
use std::test::Fail;

// What goes over an edge: a text, in a block.
#[derive(Drop)]
pub(crate) struct Note {
    pub(crate) edge: u64,
    pub(crate) block: u64,
    pub(crate) text: u64,
}

impl Parcel for Note {
    type Key = u64;

    ghost edge_of = { λ n. n.edge };

    ghost key_of = { λ n. n.block };

    fn edge(&self) -> u64 {
        self.edge
    }
}

pub(crate) fn pair(alloc: Global) -> Result<Tasks, AllocError>
    ensures { IfOk result (λ t. t.tasks ≡ two_loops) }
{
    let reads = [Reads {
        reader: 1,
        source: 0,
    }];
    Tasks::new(alloc, 2, 1, &reads)
}

fn entries(alloc: Global) -> Result<Vec<Note>, AllocError>
    ensures len { IfOk result (λ v. vec_len v ≡ 2) }
    ensures entries { IfOk result (λ v. AreEntries (λ n. n.edge) (λ n. n.block) v.items) }
{
    let mut list = Vec::with_capacity(alloc, 2)?;
    list.push_reserved(Note {
        edge: 0,
        block: 9,
        text: 50,
    });
    list.push_reserved(Note {
        edge: 1,
        block: 9,
        text: 51,
    });
    Ok(list)
}

// A board of these tasks, and its two seats.
fn begun<'t>(
    alloc: Global,
    tasks: &'t Tasks,
) -> Result<(Board<'t, Note>, Vec<WorkerSeat<Note>>), AllocError>
    requires { tasks.now.tasks ≡ two_loops }
    ensures workers { IfOk result (λ r. (about_of r.0).workers ≡ 2) }
    ensures tasks { IfOk result (λ r. tasks_of r.0 ≡ two_loops) }
    ensures count { IfOk result (λ r. vec_len r.1 ≡ 2) }
    ensures seats { IfOk result (λ r. AreFirstSeatsOf (λ n. n.edge) (λ n. n.block) r.0 r.1.items) }
{
    let list = entries(alloc)?;
    match Board::begin(alloc, tasks, 2, list) {
        Ok(made) => Ok(made),
        Err((_list, error)) => Err(error),
    }
}

// A board of these tasks for two workers, with the two seats apart.
pub(crate) fn two_seats<'t>(
    alloc: Global,
    tasks: &'t Tasks,
) -> Result<
    (
        Board<'t, Note>,
        Vec<WorkerSeat<Note>>,
        WorkerSeat<Note>,
        WorkerSeat<Note>,
    ),
    AllocError,
>
    requires { tasks.now.tasks ≡ two_loops }
    ensures workers { IfOk result (λ r. (about_of r.0).workers ≡ 2) }
    ensures tasks { IfOk result (λ r. tasks_of r.0 ≡ two_loops) }
    ensures room { IfOk result (λ r. (vec_len r.1 ≡ 0) × (2 ≤ vec_capacity r.1)) }
    ensures first { IfOk result (λ r. IsFirstSeatOf (λ n. n.edge) (λ n. n.block) r.0 0 r.2) }
    ensures second { IfOk result (λ r. IsFirstSeatOf (λ n. n.edge) (λ n. n.block) r.0 1 r.3) }
{
    let (board, mut seats) = begun(alloc, tasks)?;
    let second = seats.pop().unwrap();
    let first = seats.pop().unwrap();
    Ok((board, seats, first, second))
}

// The end of such a board.
pub(crate) fn end(
    board: Board<'_, Note>,
    mut seats: Vec<WorkerSeat<Note>>,
    first: WorkerSeat<Note>,
    second: WorkerSeat<Note>,
    exits: &mut Vec<Note>,
) -> bool
    requires workers { (about_of board).workers ≡ 2 }
    requires tasks { tasks_of board ≡ two_loops }
    requires room { (vec_len seats ≡ 0) × (2 ≤ vec_capacity seats) × (vec_len exits.old + 2 ≤ vec_capacity exits.old) }
    requires first { IsSeatOf (λ n. n.edge) (λ n. n.block) board first }
    requires second { IsSeatOf (λ n. n.edge) (λ n. n.block) board second }
    requires numbers { ((view_of first).numbers ≡ 0 ∷ []) × ((view_of second).numbers ≡ 1 ∷ []) }
{
    seats.push_reserved(first);
    seats.push_reserved(second);
    board.close(seats, exits)
}

// Both seats see the task that is ready, and the first of them takes it.
pub(crate) fn claim_first(
    rt: &impl Abort,
    board: &Board<'_, Note>,
    a: &mut WorkerSeat<Note>,
    b: &mut WorkerSeat<Note>,
)
    requires tasks { tasks_of board.now ≡ two_loops }
    requires a { IsFirstSeatOf (λ n. n.edge) (λ n. n.block) board.now 0 a.old }
    requires b { IsFirstSeatOf (λ n. n.edge) (λ n. n.block) board.now 1 b.old }
    ensures a { IsSeatOf (λ n. n.edge) (λ n. n.block) board.now a.new }
    ensures b { IsSeatOf (λ n. n.edge) (λ n. n.block) board.now b.new }
    ensures taken { AreTaken (λ n. n.edge) (λ n. n.block) board.now 0 (slots_of a.new) }
    ensures hands { (hand_of a.new ≡ Some (record { task = 0; started = false })) × (hand_of b.new ≡ None) }
    ensures free { slots_of b.new ≡ [] }
    ensures numbers { ((view_of a.new).numbers ≡ 0 ∷ []) × ((view_of b.new).numbers ≡ 1 ∷ []) }
    ensures undone { done_by (arrives 2) (view_of a.new) ≡ 0 }
{
    let early = board.is_ready(a, 1);
    assert!(rt; !early);
    let a_ready = board.is_ready(a, 0);
    assert!(rt; a_ready);
    let b_ready = board.is_ready(b, 0);
    assert!(rt; b_ready);
    let won = board.claim(a, 0);
    assert!(rt; won);
    let late = board.claim(b, 0);
    assert!(rt; !late);
}

// One seat takes the task, and gives it back at the end.
#[test]
fn one_claim_wins(rt: HostRuntime) -> Result<(), Fail> {
    let alloc = rt.alloc();
    let tasks = pair(alloc)?;
    let mut exits = Vec::with_capacity(alloc, 2)?;
    let (board, seats, mut a, mut b) = two_seats(alloc, &tasks)?;
    claim_first(&rt, &board, &mut a, &mut b);
    let done = end(board, seats, a, b, &mut exits);
    assert!(rt; !done);
    assert_eq!(rt; exits.len(), 0);
    Ok(())
}

// Before any claim the end gives the entries back.
#[test]
fn an_end_before_any_claim(rt: HostRuntime) -> Result<(), Fail> {
    let alloc = rt.alloc();
    let tasks = pair(alloc)?;
    let mut exits = Vec::with_capacity(alloc, 2)?;
    let (board, seats, a, b) = two_seats(alloc, &tasks)?;
    let done = end(board, seats, a, b, &mut exits);
    assert!(rt; !done);
    match exits.as_slice() {
        [first, second] => {
            assert_eq!(rt; first.text, 50);
            assert_eq!(rt; second.text, 51);
        }
        _ => panic!(rt; "not two entries"),
    }
    Ok(())
}
