// A graph of many signals.

use fv_num::Op;
use fv_simplify::{are_short, simplify};
use std::alloc::{AllocError, Global};
use std::process::Abort;
use std::test::Fail;
use test_graphs::{Line, graph_of};

// The input, three numbers, and then `count` rounds: nothing is added, a delay by 1 and one by 2, nothing again, and the input.
fn rounds(alloc: Global, count: u64) -> Result<Vec<Line>, AllocError> {
    let first = [
        Line::Input(0),
        Line::Const(0),
        Line::Const(1),
        Line::Const(2),
    ];
    let mut lines = Vec::from_slice(alloc, &first)?;
    let mut last = 0u64;
    let mut next = 4u64;
    for _ in 0..count {
        let round = [
            Line::Pair(Op::Or, last, 1),
            Line::Delay(next, 2, 1),
            Line::Delay(next.wrapping_add(1), 3, 2),
            Line::Pair(Op::Xor, 1, next.wrapping_add(2)),
            Line::Pair(Op::Add, next.wrapping_add(3), 0),
        ];
        lines.extend_from_slice(&round)?;
        last = next.wrapping_add(4);
        next = next.wrapping_add(5);
    }
    Ok(lines)
}

// Of the five signals of a round three stay: the delay by 1, which nobody reads, the one by 3, and the sum; and five others: the
// input, and the numbers 0 to 3.
#[test]
fn many_signals(rt: HostRuntime) -> Result<(), Fail> {
    let lines = rounds(rt.alloc(), 20_000)?;
    let graph = graph_of(rt.alloc(), &lines, &[], &[100_003])?;
    assert!(rt; graph.len() == 100_004);
    assert!(rt; are_short(&graph));
    let simpler = simplify(rt.alloc(), &graph, &[])?;
    assert!(rt; simpler.len() == 60_005);
    Ok(())
}
