// Graphs that are made at random.

ghost use Rattle.std.specs.Prelude.{◌<◌};

use fv_num::Op;
use fv_signal::Graph;
use std::alloc::{AllocError, Global};
use std::test::Fail;
use test_graphs::{Line, graph_over};

/// Numbers that follow one from another.
#[derive(Drop)]
pub(crate) struct Numbers {
    pub(crate) last: u32,
}

impl Numbers {
    /// The next number, below `count`, which is small.
    pub(crate) fn below(&mut self, count: u64) -> u64
        ensures { 0 < count → result < count }
    {
        self.last = self.last.wrapping_mul(1_103_515_245).wrapping_add(12_345);
        u64::from(self.last >> 16).checked_rem(count).unwrap_or(0)
    }
}

// All operations.
const OPERATIONS: [Op; 21] = [
    Op::Add,
    Op::Sub,
    Op::Mul,
    Op::Div,
    Op::Rem,
    Op::And,
    Op::Or,
    Op::Xor,
    Op::Shl,
    Op::Shr,
    Op::Lt,
    Op::Le,
    Op::Gt,
    Op::Ge,
    Op::Eq,
    Op::Ne,
    Op::Min,
    Op::Max,
    Op::Abs,
    Op::Select2,
    Op::Select3,
];

// The signals that stand first.
const FIRST: [Line; 11] = [
    Line::Const(0),
    Line::Const(1),
    Line::Const(-1),
    Line::Const(2),
    Line::Const(3),
    Line::Const(5),
    Line::Const(32),
    Line::Input(0),
    Line::Input(1),
    Line::Control(0),
    Line::Control(1),
];

// The lines among these that say by how many samples a signal can be late, and these samples.
const LATE: [(u64, u32); 4] = [(1, 1), (3, 2), (4, 3), (5, 5)];

// Two tables.
const TABLES: [&[i32]; 2] = [&[5, -1, 0, 700, -32], &[9, 2]];

// One of the first `count` lines: any, one of those that stand first, or one of the latest.
fn pick(numbers: &mut Numbers, count: u64) -> u64 {
    match numbers.below(4) {
        0 => numbers.below(count),
        1 => numbers.below(count.min(11)),
        _ => count.saturating_sub(numbers.below(count.min(8)).saturating_add(1)),
    }
}

// A line over the first `count`, which may be a member of this group a sample earlier.
fn any(numbers: &mut Numbers, count: u64, group: u64) -> Line {
    let kind = numbers.below(8);
    if kind == 0 {
        return Line::Back(group, numbers.below(3));
    }
    let x = pick(numbers, count);
    if kind == 1 {
        let (late, by) = LATE[numbers.below(4) as usize];
        return Line::Delay(x, late, by);
    }
    let y = pick(numbers, count);
    if kind < 4 {
        return Line::Delay(x, y, numbers.below(7) as u32);
    }
    let z = pick(numbers, count);
    if kind == 4 {
        return if numbers.below(2) == 0 {
            Line::Read(numbers.below(2), x)
        } else {
            Line::Write(numbers.below(2), x, y, z)
        };
    }
    let op = OPERATIONS[numbers.below(21) as usize];
    Line::Point(op, [x, y, z, pick(numbers, count)])
}

// A group more: `more` lines that may read its members a sample earlier, three of the lines as its members, and two of these.
fn grow(
    lines: &mut Vec<Line>,
    numbers: &mut Numbers,
    group: u64,
    more: u64,
) -> Result<[u64; 3], AllocError> {
    for _ in 0..more {
        let count = lines.len() as u64;
        lines.push(any(numbers, count, group))?;
    }
    let count = lines.len() as u64;
    let members = [
        pick(numbers, count),
        pick(numbers, count),
        pick(numbers, count),
    ];
    lines.extend_from_slice(&[Line::Member(group, 0), Line::Member(group, 2)])?;
    Ok(members)
}

/// A graph with some groups and outputs, which follows from the numbers.
pub(crate) fn random(alloc: Global, numbers: &mut Numbers) -> Result<Graph, Fail> {
    let mut lines = Vec::from_slice(alloc, &FIRST)?;
    let mut groups = [[0; 3]; 3];
    for group in 0..3 {
        let more = numbers.below(20);
        groups[group] = grow(&mut lines, numbers, group as u64, more)?;
    }
    let count = lines.len() as u64;
    let outputs = [
        pick(numbers, count),
        pick(numbers, count),
        pick(numbers, count),
        pick(numbers, count),
    ];
    graph_over(
        alloc,
        &lines,
        &[&groups[0], &groups[1], &groups[2]],
        &TABLES,
        &outputs,
    )
}
