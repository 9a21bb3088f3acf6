// Tables that are read, and tables that are written, block by block.

use crate::engines::{Sizes, play_graph};
use fv_engine::NoMemory;
use fv_num::Op;
use fv_outside::FreeGate;
use fv_signal::Graph;
use std::alloc::Global;
use std::marker::Sync;
use std::process::Abort;
use std::sync::Wait;
use std::test::Fail;
use std::thread::Threads;
use test_graphs::{Line, graph_over};

/// Places within a list of few numbers, and places before and after it.
const INPUT: [i32; 20] = [
    0, 1, 2, 3, -1, 5, 100, -100, 2, 1, 0, 7, -3, 4, 1, 1, 2, 0, 9, -2,
];

/// How many frames a block and a vector have at most, and how many workers run a block.
const SIZES: [(u32, u32, u32); 6] = [
    (1, 1, 1),
    (7, 3, 1),
    (512, 32, 1),
    (1, 1, 2),
    (7, 3, 2),
    (512, 32, 2),
];

/// A graph as a table, and what it gives for the input.
struct Row {
    // What the row is called where it fails.
    name: &'static str,
    // The signals, in order.
    lines: &'static [Line],
    // By group: the definitions of its members.
    groups: &'static [&'static [u64]],
    // The tables, by their numbers.
    tables: &'static [&'static [i32]],
    // The signals that are outputs.
    outputs: &'static [u64],
    // The samples that it gives, one a frame.
    wanted: &'static [i32],
}

// The graph of a row gives its samples by these sizes.
fn assert_sounds<R: Abort + Threads + Wait + Sync>(
    rt: &R,
    alloc: Global,
    graph: &Graph,
    row: &Row,
    (block, vector, workers): (u32, u32, u32),
) -> Result<(), NoMemory> {
    let sizes = Sizes {
        width: 1,
        block,
        vector,
        workers,
    };
    let mut output = [0; 20];
    play_graph(
        rt,
        alloc,
        graph,
        sizes,
        20,
        &INPUT,
        &mut output,
        &mut FreeGate,
    )?;
    assert_eq!(rt;
        output.as_slice(),
        row.wanted,
        "{}: block {block}, vector {vector}, workers {workers}",
        row.name
    );
    Ok(())
}

// Each of them does by each size.
fn assert_all_sound<R: Abort + Threads + Wait + Sync>(
    rt: &R,
    alloc: Global,
    rows: &[Row],
) -> Result<(), Fail> {
    for row in rows {
        let graph = graph_over(alloc, row.lines, row.groups, row.tables, row.outputs)?;
        for sizes in &SIZES {
            assert_sounds(rt, alloc, &graph, row, *sizes)?;
        }
    }
    Ok(())
}

static READ: [Row; 3] = [
    Row {
        name: "an item at the input, clamped to the list",
        lines: &[Line::Input(0), Line::Read(0, 0)],
        groups: &[],
        tables: &[&[10, -20, 30]],
        outputs: &[1],
        wanted: &[
            10, -20, 30, 30, 10, 30, 30, 10, 30, -20, 10, 30, 10, 30, -20, -20, 30, 10, 30, 10,
        ],
    },
    Row {
        name: "the one item of the second table",
        lines: &[Line::Input(0), Line::Read(1, 0)],
        groups: &[],
        tables: &[&[10, -20, 30], &[42]],
        outputs: &[1],
        wanted: &[42; 20],
    },
    Row {
        name: "a held item, by which the input is multiplied",
        lines: &[
            Line::Input(0),
            Line::Const(1),
            Line::Read(0, 1),
            Line::Pair(Op::Mul, 0, 2),
        ],
        groups: &[],
        tables: &[&[4, 5, 6]],
        outputs: &[3],
        wanted: &[
            0, 5, 10, 15, -5, 25, 500, -500, 10, 5, 0, 35, -15, 20, 5, 5, 10, 0, 45, -10,
        ],
    },
];

#[test]
fn tables_that_are_read(rt: HostRuntime) -> Result<(), Fail> {
    assert_all_sound(&rt, rt.alloc(), &READ)
}

static WRITTEN: [Row; 3] = [
    Row {
        name: "one item that is written and read at once",
        lines: &[Line::Input(0), Line::Write(0, 0, 0, 0)],
        groups: &[],
        tables: &[&[42]],
        outputs: &[1],
        wanted: &INPUT,
    },
    Row {
        name: "a sum in a loop, which is written where it is read",
        lines: &[
            Line::Input(0),
            Line::Back(0, 0),
            Line::Const(0),
            Line::Write(0, 2, 1, 2),
            Line::Pair(Op::Add, 3, 0),
        ],
        groups: &[&[4]],
        tables: &[&[3, 3]],
        outputs: &[4],
        wanted: &[
            0, 1, 3, 6, 5, 10, 110, 10, 12, 13, 13, 20, 17, 21, 22, 23, 25, 25, 34, 32,
        ],
    },
    Row {
        name: "the number of a sample, which is written at the input and read where the input was a sample before",
        lines: &[
            Line::Input(0),
            Line::Back(0, 0),
            Line::Const(1),
            Line::Pair(Op::Add, 1, 2),
            Line::Delay(0, 2, 1),
            Line::Write(0, 0, 3, 4),
        ],
        groups: &[&[3]],
        tables: &[&[5, 5, 5, 5]],
        outputs: &[5],
        wanted: &[
            1, 1, 2, 3, 4, 5, 7, 7, 8, 9, 10, 11, 12, 13, 14, 16, 16, 17, 18, 19,
        ],
    },
];

#[test]
fn tables_that_are_written(rt: HostRuntime) -> Result<(), Fail> {
    assert_all_sound(&rt, rt.alloc(), &WRITTEN)
}

/// The lines of a list of five numbers that goes round.
const GOES_ROUND: [Line; 12] = [
    Line::Input(0),
    Line::Back(0, 0),
    Line::Const(1),
    Line::Pair(Op::Add, 1, 2),
    Line::Const(5),
    Line::Pair(Op::Rem, 3, 4),
    Line::Const(2),
    Line::Pair(Op::Add, 5, 6),
    Line::Pair(Op::Rem, 7, 4),
    Line::Write(0, 5, 0, 8),
    Line::Delay(9, 2, 1),
    Line::Pair(Op::Sub, 9, 10),
];

static ROUND: [Row; 2] = [
    Row {
        name: "each number comes back three samples later",
        lines: &GOES_ROUND,
        groups: &[&[5]],
        tables: &[&[-7; 5]],
        outputs: &[9],
        wanted: &[
            -7, -7, -7, 0, 1, 2, 3, -1, 5, 100, -100, 2, 1, 0, 7, -3, 4, 1, 1, 2,
        ],
    },
    Row {
        name: "the same less what came back a sample before, which another loop reads",
        lines: &GOES_ROUND,
        groups: &[&[5]],
        tables: &[&[-7; 5]],
        outputs: &[11],
        wanted: &[
            -7, 0, 0, 7, 1, 1, 1, -4, 6, 95, -200, 102, -1, -1, 7, -10, 7, -3, 0, 1,
        ],
    },
];

#[test]
fn a_list_that_goes_round(rt: HostRuntime) -> Result<(), Fail> {
    assert_all_sound(&rt, rt.alloc(), &ROUND)
}

static WRITTEN_TWICE: [Row; 1] = [Row {
    name: "ten times an item that stays, and one that is the input",
    lines: &[
        Line::Input(0),
        Line::Const(0),
        Line::Const(1),
        Line::Write(0, 1, 0, 2),
        Line::Write(0, 2, 0, 2),
        Line::Const(10),
        Line::Pair(Op::Mul, 3, 5),
        Line::Pair(Op::Add, 6, 4),
    ],
    groups: &[],
    tables: &[&[7, 7]],
    outputs: &[7],
    wanted: &[
        70, 71, 72, 73, 69, 75, 170, -30, 72, 71, 70, 77, 67, 74, 71, 71, 72, 70, 79, 68,
    ],
}];

// Two writes of one table, each with items of its own.
#[test]
fn one_table_that_is_written_twice(rt: HostRuntime) -> Result<(), Fail> {
    assert_all_sound(&rt, rt.alloc(), &WRITTEN_TWICE)
}
