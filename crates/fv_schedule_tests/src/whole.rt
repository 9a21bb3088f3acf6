// The whole worked example: two seats do both tasks. Seat 0 takes task 0, and seat 1 takes task 1 once its count is 0.

ghost use Rattle.std.specs.Prelude.{◌≡◌, ℕ, [], Some, None, true, false};
ghost use Rattle.fv_ready.specs.Rule.{noted};
ghost use Rattle.fv_ready.specs.declared.view.Deed.TheVariants.{Stamped};
ghost use Rattle.fv_ready.specs.Seats.{view_of, slots_of, hand_of};
ghost use Rattle.fv_ready.specs.Boards.{tasks_of, IsSeatOf, AreTaken};
ghost use Rattle.fv_schedule_tests.specs.TwoLoops.{two_loops};

use crate::board_rows::{Note, claim_first, end, pair, two_seats};
use fv_ready::{Board, WorkerSeat};
use std::process::Abort;
use std::test::Fail;

// Task 0, by a seat that took it: its entry comes in, and two notes go out. The answer is the stamp of its finish.
fn run_first(rt: &impl Abort, board: &Board<'_, Note>, seat: &mut WorkerSeat<Note>) -> u64
    requires tasks { tasks_of board.now ≡ two_loops }
    requires seat { IsSeatOf (λ n. n.edge) (λ n. n.block) board.now seat.old }
    requires hand { hand_of seat.old ≡ Some (record { task = 0; started = false }) }
    requires slots { AreTaken (λ n. n.edge) (λ n. n.block) board.now 0 (slots_of seat.old) }
    ensures list { (m n : ℕ) × (view_of seat.new ≡ noted (noted (view_of seat.old) (Stamped m 0 true)) (Stamped n 0 false)) }
    ensures hand { hand_of seat.new ≡ None }
    ensures seat { IsSeatOf (λ n. n.edge) (λ n. n.block) board.now seat.new }
{
    let start = board.stamp(seat);
    let entry = board.receive(seat, 0);
    assert_eq!(rt; entry.text, 50);
    let block = entry.block;
    let exit = Note {
        edge: 3,
        block,
        text: 60,
    };
    board.hand(seat, 3, exit);
    let lane = Note {
        edge: 2,
        block,
        text: 61,
    };
    board.hand(seat, 2, lane);
    let finish = board.stamp(seat);
    assert!(rt; start < finish);
    finish
}

// Task 1, by a seat that took it: its entry and the note of task 0 come in, and one note goes out. The answer is the stamp of its
// start.
fn run_second(rt: &impl Abort, board: &Board<'_, Note>, seat: &mut WorkerSeat<Note>) -> u64
    requires tasks { tasks_of board.now ≡ two_loops }
    requires seat { IsSeatOf (λ n. n.edge) (λ n. n.block) board.now seat.old }
    requires hand { hand_of seat.old ≡ Some (record { task = 1; started = false }) }
    requires slots { AreTaken (λ n. n.edge) (λ n. n.block) board.now 1 (slots_of seat.old) }
    ensures list { (m n : ℕ) × (view_of seat.new ≡ noted (noted (view_of seat.old) (Stamped m 1 true)) (Stamped n 1 false)) }
    ensures seat { IsSeatOf (λ n. n.edge) (λ n. n.block) board.now seat.new }
{
    let start = board.stamp(seat);
    let handed = board.receive(seat, 2);
    assert_eq!(rt; handed.text, 61);
    let entry = board.receive(seat, 1);
    assert_eq!(rt; entry.text, 51);
    let block = entry.block;
    let exit = Note {
        edge: 4,
        block,
        text: 62,
    };
    board.hand(seat, 4, exit);
    let finish = board.stamp(seat);
    assert!(rt; start < finish);
    start
}

#[test]
fn two_seats_do_all(rt: HostRuntime) -> Result<(), Fail> {
    let alloc = rt.alloc();
    let tasks = pair(alloc)?;
    let mut exits = Vec::with_capacity(alloc, 2)?;
    let (board, seats, mut a, mut b) = two_seats(alloc, &tasks)?;
    claim_first(&rt, &board, &mut a, &mut b);
    let finish = run_first(&rt, &board, &mut a);
    let count = board.arrive(&mut a, 2);
    assert_eq!(rt; count, 0);
    let next = board.is_ready(&mut b, 1);
    assert!(rt; next);
    let taken = board.claim(&mut b, 1);
    assert!(rt; taken);
    let start = run_second(&rt, &board, &mut b);
    assert!(rt; finish < start);
    let done = end(board, seats, a, b, &mut exits);
    assert!(rt; done);
    match exits.as_slice() {
        [first, second] => {
            assert_eq!(rt; first.text, 60);
            assert_eq!(rt; second.text, 62);
        }
        _ => panic!(rt; "not two exits"),
    }
    Ok(())
}
