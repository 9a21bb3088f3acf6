// Graphs of tables.

ghost use Rattle.std.specs.Prelude.{◌≡◌, ℕ, ◌<◌, ◌≤◌, All, FitsSigned, IfOk, IsTrue, [], length};
ghost use Rattle.std.specs.Int.{w32};
ghost use Rattle.fv_signal.specs.headline.Value.{HasNumber, HaveNumbers, IsGraph, NamesWithin, OperandsBelow, definition, members, table_of};
ghost use Rattle.fv_signal.specs.Rows.{graph_with};

use fv_num::Op;
use fv_signal::{Graph, Signal, SignalId};
use std::alloc::{AllocError, Global};
use std::test::Fail;

/// A line of a table: a signal, whose operands are the numbers of earlier lines.
#[derive(Clone, Copy)]
pub enum Line {
    Input(u64),
    Control(u32),
    Const(i32),
    /// An operation on lines, as many as it takes.
    Point(Op, [u64; 4]),
    /// An operation on two lines.
    Pair(Op, u64, u64),
    /// A line as many samples earlier as another one says, and at most this many.
    Delay(u64, u64, u32),
    /// A member of a group one sample earlier.
    Back(u64, u64),
    /// A member of a group.
    Member(u64, u64),
    /// The item of a table at the place that a line says.
    Read(u64, u64),
    /// The item of a table at the place that the third line says, where the second one is written at the first one.
    Write(u64, u64, u64, u64),
}

// The signal of a line.
fn signal_of(line: Line) -> Signal {
    match line {
        Line::Input(channel) => Signal::Input(channel),
        Line::Control(control) => Signal::Control(control),
        Line::Const(number) => Signal::Const(number),
        Line::Point(op, args) => Signal::Point {
            op,
            args: args.map(SignalId::new),
        },
        Line::Pair(op, x, y) => Signal::Point {
            op,
            args: [x, y, x, x].map(SignalId::new),
        },
        Line::Delay(x, d, max) => Signal::Delay {
            x: SignalId::new(x),
            d: SignalId::new(d),
            max,
        },
        Line::Back(group, i) => Signal::Back { group, i },
        Line::Member(group, i) => Signal::Member { group, i },
        Line::Read(table, r) => Signal::Read {
            table,
            r: SignalId::new(r),
        },
        Line::Write(table, w, x, r) => Signal::Write {
            table,
            w: SignalId::new(w),
            x: SignalId::new(x),
            r: SignalId::new(r),
        },
    }
}

// The signals of these lines.
fn ids_of(alloc: Global, lines: &[u64]) -> Result<Vec<SignalId>, AllocError> {
    let mut ids = Vec::new(alloc);
    for line in lines {
        ids.push(SignalId::new(*line))?;
    }
    Ok(ids)
}

// A number, which has 32 bits.
fn number(number: &i32) -> i32
    ensures fits { FitsSigned w32 result }
{
    let value = *number;
    value
}

// A list of these numbers.
fn list_of(alloc: Global, numbers: &[i32]) -> Result<Vec<i32>, AllocError>
    ensures { IfOk result (λ list. All (λ n. FitsSigned w32 n) list.items) }
{
    let mut list = Vec::new(alloc);
    for i in 0..numbers.len() {
        list.push(number(&numbers[i]))?;
    }
    Ok(list)
}

// Tables of these lists.
fn tables_of(alloc: Global, lists: &[&[i32]]) -> Result<Vec<Vec<i32>>, AllocError>
    ensures { IfOk result (λ tables. HaveNumbers (graph_with [] [] tables.items []).tables) }
{
    let mut tables = Vec::new(alloc);
    for i in 0..lists.len() {
        let list = list_of(alloc, lists[i])?;
        tables.push(list)?;
    }
    Ok(tables)
}

// Whether all of them stand before this place.
fn are_before(ids: &[SignalId], place: u64) -> bool
    ensures { IsTrue result → All (λ s. s < place) ids.now }
{
    ids.iter().all(|id| id.number() < place)
}

// Whether the groups' definitions stand among the signals.
fn are_defined(signals: &[Signal], groups: &[Vec<SignalId>]) -> bool
    ensures { IsTrue result → (group : ℕ) → group < length groups.now
        → All (λ s. s < length signals.now) (members (graph_with signals.now groups.now [] []) group) }
{
    for i in 0..groups.len() {
        if !are_before(&groups[i], signals.len() as u64) {
            return false;
        }
    }
    true
}

// Whether a group has such a member, whose definition stands before this place.
fn is_member(signals: &[Signal], groups: &[Vec<SignalId>], group: u64, i: u64, place: u64) -> bool
    ensures { IsTrue result → (group < length groups.now) × (i < length (members (graph_with signals.now groups.now [] []) group))
        × (definition (graph_with signals.now groups.now [] []) group i < place) }
{
    let g = group as usize;
    let i = i as usize;
    g < groups.len() && i < groups[g].len() && groups[g][i].number() < place
}

// Whether a table has a number.
fn has_number(tables: &[Vec<i32>], table: u64) -> bool
    ensures { IsTrue result → 0 < length (table_of (graph_with [] [] tables.now []) table) }
{
    let t = table as usize;
    t < tables.len() && !tables[t].is_empty()
}

// Whether a signal may stand at this place.
fn may_stand(
    signals: &[Signal],
    groups: &[Vec<SignalId>],
    tables: &[Vec<i32>],
    signal: Signal,
    place: u64,
) -> bool
    requires { place ≤ length signals.now }
    ensures ordered { IsTrue result → OperandsBelow (graph_with signals.now groups.now tables.now []) place signal }
    ensures closed { IsTrue result → NamesWithin (graph_with signals.now groups.now tables.now []) signal }
    ensures number { HasNumber signal }
{
    match signal {
        Signal::Input(_) | Signal::Control(_) => true,
        Signal::Const(number) => {
            // For the prover: a number has 32 bits.
            let _number = number;
            true
        }
        Signal::Point { op: _, args } => are_before(&args, place),
        Signal::Delay { x, d, max: _ } => x.number() < place && d.number() < place,
        Signal::Back { group, i } => is_member(signals, groups, group, i, signals.len() as u64),
        Signal::Member { group, i } => is_member(signals, groups, group, i, place),
        Signal::Read { table, r } => r.number() < place && has_number(tables, table),
        Signal::Write { table, w, x, r } => are_before(&[w, x, r], place)
            && has_number(tables, table),
    }
}

// Whether they are a graph.
fn are_graph(
    signals: &[Signal],
    groups: &[Vec<SignalId>],
    tables: &[Vec<i32>],
    outputs: &[SignalId],
) -> bool
    requires { HaveNumbers (graph_with [] [] tables.now []).tables }
    ensures { IsTrue result → IsGraph (graph_with signals.now groups.now tables.now outputs.now) }
{
    for place in 0..signals.len() {
        if !may_stand(signals, groups, tables, signals[place], place as u64) {
            return false;
        }
    }
    are_defined(signals, groups) && are_before(outputs, signals.len() as u64)
}

/// The graph of these lines, in which each group has the lines that define its members, over these tables.
pub fn graph_over(
    alloc: Global,
    lines: &[Line],
    groups: &[&[u64]],
    tables: &[&[i32]],
    outputs: &[u64],
) -> Result<Graph, Fail> {
    let mut signals = Vec::new(alloc);
    for line in lines {
        signals.push(signal_of(*line))?;
    }
    let mut definitions = Vec::new(alloc);
    for members in groups {
        definitions.push(ids_of(alloc, members)?)?;
    }
    let lists = tables_of(alloc, tables)?;
    let outs = ids_of(alloc, outputs)?;
    if !are_graph(&signals, &definitions, &lists, &outs) {
        return Err("no graph".into());
    }
    Ok(Graph::new(signals, definitions, lists, outs))
}

/// The graph of lines that name no table.
pub fn graph_of(
    alloc: Global,
    lines: &[Line],
    groups: &[&[u64]],
    outputs: &[u64],
) -> Result<Graph, Fail> {
    graph_over(alloc, lines, groups, &[], outputs)
}
