// A graph in which each fold makes another signal one that can be made simpler.

use crate::outputs::first_by_number;
use crate::reducible::{Rule, rules_met};
use fv_num::Op;
use fv_signal::Signal;
use fv_simplify::{are_short, simplify};
use std::process::Abort;
use std::test::Fail;
use test_graphs::{Line, graph_of};

// The input 4 samples late, of which only a difference of numbers can be made simpler at first.
const FOLDS: [Line; 14] = [
    Line::Input(0),
    Line::Control(0),
    Line::Const(1),
    // 0, the input and 0, and 0 again, and so 2
    Line::Pair(Op::Sub, 2, 2),
    Line::Pair(Op::Add, 0, 3),
    Line::Pair(Op::Mul, 4, 3),
    Line::Const(2),
    Line::Pair(Op::Add, 5, 6),
    // By a selector that comes to 0, the same signal; at once, since it is late by 0; and 2 samples later, of at most 5.
    Line::Point(Op::Select2, [5, 4, 1, 1]),
    Line::Delay(8, 5, 3),
    Line::Delay(9, 7, 5),
    // 2 samples later again, but for a 0 that is a control's samples late.
    Line::Delay(5, 1, 3),
    Line::Pair(Op::Or, 11, 10),
    Line::Delay(12, 7, 2),
];

#[test]
fn each_fold_makes_another(rt: HostRuntime) -> Result<(), Fail> {
    let graph = graph_of(rt.alloc(), &FOLDS, &[], &[13])?;
    let met = rules_met(rt.alloc(), &graph)?;
    assert!(rt; met.as_slice() == [Rule::OnNumbers].as_slice());
    assert!(rt; are_short(&graph));
    let simpler = simplify(rt.alloc(), &graph, &[])?;
    assert!(rt; rules_met(rt.alloc(), &simpler)?.is_empty());
    assert!(rt; first_by_number(&simpler) == Some((Signal::Input(0), 4)));
    Ok(())
}
