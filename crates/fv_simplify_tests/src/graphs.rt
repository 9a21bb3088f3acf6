// Whole graphs.

use crate::outputs::first_output;
use fv_num::Op;
use fv_signal::{Graph, Signal};
use fv_simplify::{are_short, simplify};
use std::alloc::Global;
use std::process::Abort;
use std::test::Fail;
use test_graphs::{Line, graph_of};

// The simpler graph of a table.
fn simpler_of(
    rt: &impl Abort,
    alloc: Global,
    lines: &[Line],
    groups: &[&[u64]],
    output: u64,
) -> Result<Graph, Fail> {
    let graph = graph_of(alloc, lines, groups, &[output])?;
    assert!(rt; are_short(&graph));
    Ok(simplify(alloc, &graph, &[])?)
}

#[test]
fn a_product_wraps_before_it_is_divided(rt: HostRuntime) -> Result<(), Fail> {
    let rows = [
        (Line::Const(2147483647), Signal::Const(-1), true),
        (Line::Input(0), Signal::Input(0), false),
    ];
    for (first, signal, is_output) in rows {
        let lines = [
            first,
            Line::Const(2),
            Line::Pair(Op::Mul, 0, 1),
            Line::Pair(Op::Div, 2, 1),
        ];
        let simpler = simpler_of(&rt, rt.alloc(), &lines, &[], 3)?;
        assert_eq!(rt; first_output(&simpler) == Some(signal), is_output);
    }
    Ok(())
}

// A running sum after its member, which nothing else reads; a signal that no output reaches is left out.
#[test]
fn feedback_stays_and_the_rest_goes(rt: HostRuntime) -> Result<(), Fail> {
    let lines = [
        Line::Input(0),
        Line::Back(0, 0),
        Line::Pair(Op::Add, 0, 1),
        Line::Pair(Op::Mul, 0, 0),
        Line::Member(0, 0),
    ];
    let simpler = simpler_of(&rt, rt.alloc(), &lines, &[&[2, 3]], 4)?;
    // The number 0, the input, the Back and their sum.
    assert_eq!(rt; (simpler.len(), simpler.groups()), (4, 1));
    assert_eq!(rt; simpler.group(0), simpler.outputs());
    Ok(())
}
