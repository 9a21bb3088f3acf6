// Small graphs, with their loops.

use fv_analysis::{largest_delays, rates};
use fv_num::Op;
use fv_outside::Reads;
use fv_signal::Graph;
use fv_split::split;
use fv_split_plan::{CellsInfo, LaneInfo, Plan};
use std::alloc::{AllocError, Global};
use std::process::Abort;
use std::test::Fail;
use test_graphs::{Line, graph_over};

// The plan of a graph.
pub(crate) fn plan_of(alloc: Global, graph: &Graph) -> Result<Plan, AllocError> {
    let rates = rates(alloc, graph)?;
    let histories = largest_delays(alloc, graph)?;
    split(alloc, graph, &rates, &histories)
}

// A graph as a table, and what its plan has. The plan's tables are the graph's.
struct Row {
    // What the row is called where it fails.
    name: &'static str,
    // The signals, in order.
    lines: &'static [Line],
    // By group: the definitions of its members.
    groups: &'static [&'static [u64]],
    // The tables, by their numbers.
    tables: &'static [&'static [i32]],
    // The signals that are outputs.
    outputs: &'static [u64],
    // By lane: its loop and its history.
    lanes: &'static [LaneInfo],
    // By cells: the loop and the table.
    cells: &'static [CellsInfo],
    // Which loop reads which.
    reads: &'static [Reads],
    // By output: its lane.
    ends: &'static [u64],
    // By loop: how many steps its code has.
    steps: &'static [u64],
}

// Whether the plan has the row's lanes, cells, reads and outputs.
fn has_lanes(plan: &Plan, row: &Row) -> bool {
    plan.lanes() == row.lanes
        && plan.cells() == row.cells
        && plan.reads() == row.reads
        && plan.outputs() == row.ends
}

// Whether the plan has the row's tables.
fn has_tables(plan: &Plan, row: &Row) -> bool {
    if plan.tables() != row.tables.len() as u64 {
        return false;
    }
    for t in 0..plan.tables() {
        if plan.table(t) != row.tables[t as usize] {
            return false;
        }
    }
    true
}

// Whether the code of each loop of the plan has as many steps as the row says.
fn has_steps(plan: &Plan, row: &Row) -> bool {
    if plan.loops() != row.steps.len() as u64 {
        return false;
    }
    for j in 0..plan.loops() {
        if plan.code(j).len() != row.steps[j as usize] {
            return false;
        }
    }
    true
}

// The graph has this plan. Answers how many held values it has.
fn assert_plan(rt: &impl Abort, alloc: Global, row: &Row) -> Result<u64, Fail> {
    let graph = graph_over(alloc, row.lines, row.groups, row.tables, row.outputs)?;
    let plan = plan_of(alloc, &graph)?;
    assert!(rt; has_lanes(&plan, row), "lanes of {}", row.name);
    assert!(rt; has_tables(&plan, row), "tables of {}", row.name);
    assert!(rt; has_steps(&plan, row), "steps of {}", row.name);
    Ok(plan.held().len())
}

// Lanes of the first three loops, without a history, and with one of a sample.
const NOW_0: LaneInfo = LaneInfo {
    owner: 0,
    history: 0,
};

const NOW_1: LaneInfo = LaneInfo {
    owner: 1,
    history: 0,
};

const NOW_2: LaneInfo = LaneInfo {
    owner: 2,
    history: 0,
};

const LATE_0: LaneInfo = LaneInfo {
    owner: 0,
    history: 1,
};

const LATE_1: LaneInfo = LaneInfo {
    owner: 1,
    history: 1,
};

// The second loop reads the first, and the third the second.
const SECOND: Reads = Reads {
    reader: 1,
    source: 0,
};

const THIRD: Reads = Reads {
    reader: 2,
    source: 1,
};

// The cells of the first loop's table.
const CELLS_0: CellsInfo = CellsInfo { owner: 0, table: 0 };

static ROWS: [Row; 11] = [
    // A signal less its `mem`: the input and the difference, which reads the input's lane.
    // Input, append; held, load of the delay, number, load of the input, subtraction, append.
    Row {
        name: "a signal less its `mem`",
        lines: &[
            Line::Input(0),
            Line::Const(1),
            Line::Delay(0, 1, 1),
            Line::Pair(Op::Sub, 0, 2),
        ],
        groups: &[],
        tables: &[],
        outputs: &[3],
        lanes: &[LATE_0, NOW_1],
        cells: &[],
        reads: &[SECOND],
        ends: &[1],
        steps: &[2, 6],
    },
    // `_ : mem : mem`: three loops in a row.
    Row {
        name: "three loops in a row",
        lines: &[
            Line::Input(0),
            Line::Const(1),
            Line::Delay(0, 1, 1),
            Line::Delay(2, 1, 1),
        ],
        groups: &[],
        tables: &[],
        outputs: &[3],
        lanes: &[LATE_0, LATE_1, NOW_2],
        cells: &[],
        reads: &[SECOND, THIRD],
        ends: &[2],
        steps: &[2, 3, 3],
    },
    // `5 : mem`: the number has a lane, which the delay alone reads.
    Row {
        name: "a number behind `mem`",
        lines: &[Line::Const(5), Line::Const(1), Line::Delay(0, 1, 1)],
        groups: &[],
        tables: &[],
        outputs: &[2],
        lanes: &[LATE_0, NOW_1],
        cells: &[],
        reads: &[SECOND],
        ends: &[1],
        steps: &[2, 3],
    },
    // `7, 7 + _`: the number has a lane, and the sum takes it as a number.
    Row {
        name: "a number with a lane",
        lines: &[Line::Const(7), Line::Input(0), Line::Pair(Op::Add, 0, 1)],
        groups: &[],
        tables: &[],
        outputs: &[0, 2],
        lanes: &[NOW_0, NOW_1],
        cells: &[],
        reads: &[],
        ends: &[0, 1],
        steps: &[2, 4],
    },
    // A delay of at most 0 is its operand.
    Row {
        name: "a delay of at most 0",
        lines: &[Line::Input(0), Line::Const(0), Line::Delay(0, 1, 0)],
        groups: &[],
        tables: &[],
        outputs: &[2],
        lanes: &[NOW_0],
        cells: &[],
        reads: &[],
        ends: &[0],
        steps: &[3],
    },
    // `_ <: @(0), _`: the delay is in a loop of its own, which reads the input's lane now.
    // Input, append; number, load, the greater of the load and itself, append.
    Row {
        name: "a delay of at most 0 beside its operand",
        lines: &[Line::Input(0), Line::Const(0), Line::Delay(0, 1, 0)],
        groups: &[],
        tables: &[],
        outputs: &[2, 0],
        lanes: &[NOW_0, NOW_1],
        cells: &[],
        reads: &[SECOND],
        ends: &[1, 0],
        steps: &[2, 4],
    },
    // Two groups, each of which reads the other's member one sample ago, are one loop of two lanes.
    // Of each: input, number, load, operation, append.
    Row {
        name: "two groups that read one another",
        lines: &[
            Line::Input(0),
            Line::Back(0, 0),
            Line::Back(1, 0),
            Line::Pair(Op::Add, 0, 2),
            Line::Pair(Op::Mul, 0, 1),
            Line::Member(0, 0),
        ],
        groups: &[&[3], &[4]],
        tables: &[],
        outputs: &[5],
        lanes: &[LATE_0, LATE_0],
        cells: &[],
        reads: &[],
        ends: &[0],
        steps: &[10],
    },
    // A group whose member is a member of another group: the lane is that of the inner definition.
    // Input, number, load, addition, append.
    Row {
        name: "a member of a member",
        lines: &[
            Line::Input(0),
            Line::Back(1, 0),
            Line::Pair(Op::Add, 0, 1),
            Line::Member(0, 0),
            Line::Member(1, 0),
        ],
        groups: &[&[2], &[3]],
        tables: &[],
        outputs: &[4],
        lanes: &[LATE_0],
        cells: &[],
        reads: &[],
        ends: &[0],
        steps: &[5],
    },
    // `(+ ~ _) ~ (+(1))`: both groups have one definition, so there is one loop with one lane.
    // Number, load, held, addition; number, load, addition, append.
    Row {
        name: "two groups of one definition",
        lines: &[
            Line::Back(1, 0),
            Line::Const(1),
            Line::Pair(Op::Add, 0, 1),
            Line::Back(0, 0),
            Line::Pair(Op::Add, 3, 2),
            Line::Member(0, 0),
            Line::Member(1, 0),
        ],
        groups: &[&[4], &[5]],
        tables: &[],
        outputs: &[6],
        lanes: &[LATE_0],
        cells: &[],
        reads: &[],
        ends: &[0],
        steps: &[8],
    },
    // `waveform{2, 3}, _ : rdtable`: what is read is an output.
    // Input, the read, append.
    Row {
        name: "a table that is read",
        lines: &[Line::Input(0), Line::Read(0, 0)],
        groups: &[],
        tables: &[&[2, 3]],
        outputs: &[1],
        lanes: &[NOW_0],
        cells: &[],
        reads: &[],
        ends: &[0],
        steps: &[3],
    },
    // A table that is written is an operand of one sum alone, and has a lane and cells.
    // Three inputs, the write, append; number, load of its lane, input, sum, append.
    Row {
        name: "a table that is written",
        lines: &[
            Line::Input(0),
            Line::Input(1),
            Line::Write(0, 0, 1, 0),
            Line::Pair(Op::Add, 2, 1),
        ],
        groups: &[],
        tables: &[&[2, 3]],
        outputs: &[3],
        lanes: &[NOW_0, NOW_1],
        cells: &[CELLS_0],
        reads: &[SECOND],
        ends: &[1],
        steps: &[5, 5],
    },
];

#[test]
fn small_graphs(rt: HostRuntime) -> Result<(), Fail> {
    for row in &ROWS {
        let _held = assert_plan(&rt, rt.alloc(), row)?;
    }
    Ok(())
}

// `_ + 1, _ * 2`: two loops that read nothing.
// The input, the held number, the operation and its append.
static APART: Row = Row {
    name: "two loops apart",
    lines: &[
        Line::Input(0),
        Line::Const(1),
        Line::Pair(Op::Add, 0, 1),
        Line::Input(1),
        Line::Const(2),
        Line::Pair(Op::Mul, 3, 4),
    ],
    groups: &[],
    tables: &[],
    outputs: &[2, 5],
    lanes: &[NOW_0, NOW_1],
    cells: &[],
    reads: &[],
    ends: &[0, 1],
    steps: &[4, 4],
};

#[test]
fn two_loops_that_read_nothing(rt: HostRuntime) -> Result<(), Fail> {
    assert!(rt; assert_plan(&rt, rt.alloc(), &APART)? == 2);
    Ok(())
}
