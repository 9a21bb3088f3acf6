// Small graphs, with the rates and histories of their signals, and what these stand for.

use fv_analysis::{largest_delays, rates, stands};
use fv_num::Op;
use fv_signal::{Rate, SignalId};
use std::alloc::Global;
use std::process::Abort;
use std::test::Fail;
use test_graphs::{Line, graph_over};

// A graph as a table, and what is found of its signals.
struct Row {
    // What the row is called where it fails.
    name: &'static str,
    // The signals, in order.
    lines: &'static [Line],
    // By group: the definitions of its members.
    groups: &'static [&'static [u64]],
    // The tables, by their numbers.
    tables: &'static [&'static [i32]],
    // The signals that are outputs.
    outputs: &'static [u64],
    // By signal: its rate, its history, and for which signal it stands.
    wanted: &'static [(Rate, u32, u64)],
}

static ROWS: [Row; 5] = [
    // `_ * hslider(..)`
    Row {
        name: "an input times a control",
        lines: &[Line::Input(0), Line::Control(0), Line::Pair(Op::Mul, 0, 1)],
        groups: &[],
        tables: &[],
        outputs: &[2],
        wanted: &[
            (Rate::Sample, 0, 0),
            (Rate::Control, 0, 1),
            (Rate::Sample, 0, 2),
        ],
    },
    // `1 + 2`, and a control more
    Row {
        name: "numbers and a control",
        lines: &[
            Line::Const(1),
            Line::Const(2),
            Line::Pair(Op::Add, 0, 1),
            Line::Control(0),
            Line::Pair(Op::Add, 3, 2),
        ],
        groups: &[],
        tables: &[],
        outputs: &[2, 4],
        wanted: &[
            (Rate::Constant, 0, 0),
            (Rate::Constant, 0, 1),
            (Rate::Constant, 0, 2),
            (Rate::Control, 0, 3),
            (Rate::Control, 0, 4),
        ],
    },
    // `mem`, and a delay of at most 3 of the same input
    Row {
        name: "two delays of one input",
        lines: &[
            Line::Input(0),
            Line::Const(1),
            Line::Delay(0, 1, 1),
            Line::Delay(0, 2, 3),
        ],
        groups: &[],
        tables: &[],
        outputs: &[3],
        wanted: &[
            (Rate::Sample, 3, 0),
            (Rate::Constant, 0, 1),
            (Rate::Sample, 0, 2),
            (Rate::Sample, 0, 3),
        ],
    },
    // `+ ~ _`: the member has the history of the sum for which it stands.
    Row {
        name: "a running sum",
        lines: &[
            Line::Input(0),
            Line::Back(0, 0),
            Line::Pair(Op::Add, 1, 0),
            Line::Member(0, 0),
        ],
        groups: &[&[2]],
        tables: &[],
        outputs: &[3],
        wanted: &[
            (Rate::Sample, 0, 0),
            (Rate::Sample, 0, 1),
            (Rate::Sample, 1, 2),
            (Rate::Sample, 1, 2),
        ],
    },
    // An item of a table has the rate of its place, and one of a table that is written has the samples'.
    Row {
        name: "items of tables",
        lines: &[
            Line::Const(1),
            Line::Read(0, 0),
            Line::Control(0),
            Line::Read(0, 2),
            Line::Write(0, 0, 2, 0),
            Line::Delay(4, 0, 2),
        ],
        groups: &[],
        tables: &[&[7, 8, 9]],
        outputs: &[1, 3, 5],
        wanted: &[
            (Rate::Constant, 0, 0),
            (Rate::Constant, 0, 1),
            (Rate::Control, 0, 2),
            (Rate::Control, 0, 3),
            (Rate::Sample, 2, 4),
            (Rate::Sample, 0, 5),
        ],
    },
];

// The signals of the graph have these.
fn assert_found(rt: &impl Abort, alloc: Global, row: &Row) -> Result<(), Fail> {
    let graph = graph_over(alloc, row.lines, row.groups, row.tables, row.outputs)?;
    let rates = rates(alloc, &graph)?;
    let histories = largest_delays(alloc, &graph)?;
    let stands = stands(alloc, &graph)?;
    assert!(rt; graph.len() == row.wanted.len() as u64 && stands.len() == row.wanted.len());
    for s in 0..row.wanted.len() {
        let id = SignalId::new(s as u64);
        let (rate, history, number) = row.wanted[s];
        assert!(rt;
            rates.get(id) == rate && histories.get(id) == history && stands[s].number() == number,
            "signal {s} of {}",
            row.name
        );
    }
    Ok(())
}

#[test]
fn small_graphs(rt: HostRuntime) -> Result<(), Fail> {
    for row in &ROWS {
        assert_found(&rt, rt.alloc(), row)?;
    }
    Ok(())
}
