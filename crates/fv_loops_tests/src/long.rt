// A long graph.

use crate::graphs::plan_of;
use fv_num::Op;
use std::alloc::{AllocError, Global};
use std::process::Abort;
use std::test::Fail;
use test_graphs::{Line, graph_of};

// An input, a number, and then a chain of `count` signals: one sample earlier, or a sum with the input, in turn.
fn chain(alloc: Global, count: u64) -> Result<Vec<Line>, AllocError> {
    let mut lines = Vec::from_slice(alloc, &[Line::Input(0), Line::Const(1)])?;
    let mut last = 0;
    for k in 0..count {
        let line = if k % 4 == 3 {
            Line::Delay(last, 1, 1)
        } else {
            Line::Pair(Op::Add, last, 0)
        };
        last = lines.len() as u64;
        lines.push(line)?;
    }
    Ok(lines)
}

// Of four signals one goes back, so the one before it has a lane.
#[test]
fn a_long_chain(rt: HostRuntime) -> Result<(), Fail> {
    let lines = chain(rt.alloc(), 99_998)?;
    let graph = graph_of(rt.alloc(), &lines, &[], &[99_999])?;
    assert!(rt; graph.len() == 100_000);
    let plan = plan_of(rt.alloc(), &graph)?;
    assert!(rt;
        plan.loops() == 25_000 && plan.lanes().len() == 25_000,
        "loops"
    );
    assert!(rt; plan.reads().len() == 24_999, "reads");
    Ok(())
}
