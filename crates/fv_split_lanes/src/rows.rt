// What each signal leads to and reads, row by row.

ghost use Rattle.std.specs.Prelude.{◌≡◌, ◌<◌, ◌++◌, ◌∷◌, [], length, map, All, IfOk, OnOk};
ghost use Rattle.fv_components.specs.headline.Reach.{at};
ghost use Rattle.fv_signal.specs.headline.Value.{NamesWithin};
ghost use Rattle.fv_analysis.specs.headline.Stands.{stands_of};
ghost use Rattle.fv_split_plan.specs.headline.Separated.{operands as operands_of, found_from, links_of};
ghost use Rattle.fv_split_plan.specs.inner.Separated.{OperandsWithin};
ghost use Rattle.fv_split_lanes.specs.inner.Rows.{reads_of, AreRows};

use fv_components::Rows;
use fv_signal::{Graph, Signal, SignalId};
use std::alloc::{AllocError, Global};

// The numbers of four signals.
fn numbers(args: [SignalId; 4]) -> [u64; 4]
    ensures { result ≡ args }
{
    [
        args[0].number(),
        args[1].number(),
        args[2].number(),
        args[3].number(),
    ]
}

// What a signal stands for.
fn stand(stands: &[SignalId], x: SignalId) -> u64
    requires { x < length stands.now }
    ensures { result ≡ at stands.now x }
{
    stands[x.number() as usize].number()
}

// What four signals stand for.
fn stood(stands: &[SignalId], args: [SignalId; 4]) -> [u64; 4]
    requires { All (λ a. a < length stands.now) args }
    ensures { result ≡ map (at stands.now) args }
{
    [
        stand(stands, args[0]),
        stand(stands, args[1]),
        stand(stands, args[2]),
        stand(stands, args[3]),
    ]
}

// Adds a row: what a node leads to.
fn add_links(rows: &mut Rows, graph: &Graph, node: Signal) -> Result<(), AllocError>
    requires { NamesWithin graph.now node }
    ensures { OnOk result (rows.new ≡ rows.old ++ found_from graph.now node ∷ []) }
{
    match node {
        Signal::Point { op, args } => rows.push(&numbers(args)[..op.inputs() as usize]),
        Signal::Delay { x, d, max: _ } => rows.push(&[x.number(), d.number()]),
        Signal::Back { group, i } => rows.push(&[graph.group(group)[i as usize].number()]),
        Signal::Member { group, i } => rows.push(&[graph.group(group)[i as usize].number()]),
        Signal::Read { table: _, r } => rows.push(&[r.number()]),
        Signal::Write { table: _, w, x, r } => rows.push(&[w.number(), x.number(), r.number()]),
        Signal::Input(_) => rows.push(&[]),
        Signal::Const(_) => rows.push(&[]),
        Signal::Control(_) => rows.push(&[]),
    }
}

// Adds a row: what a node reads.
fn add_reads(rows: &mut Rows, stands: &[SignalId], node: Signal) -> Result<(), AllocError>
    requires { OperandsWithin (length stands.now) node }
    ensures { OnOk result (rows.new ≡ rows.old ++ map (at stands.now) (operands_of node) ∷ []) }
{
    match node {
        Signal::Point { op, args } => rows.push(&stood(stands, args)[..op.inputs() as usize]),
        Signal::Delay { x, d, max: _ } => rows.push(&[stand(stands, x), stand(stands, d)]),
        Signal::Input(_) => rows.push(&[]),
        Signal::Const(_) => rows.push(&[]),
        Signal::Control(_) => rows.push(&[]),
        Signal::Back { group: _, i: _ } => rows.push(&[]),
        Signal::Member { group: _, i: _ } => rows.push(&[]),
        Signal::Read { table: _, r } => rows.push(&[stand(stands, r)]),
        Signal::Write { table: _, w, x, r } => {
            rows.push(&[stand(stands, w), stand(stands, x), stand(stands, r)])
        }
    }
}

/// What each signal leads to.
pub(crate) fn links(alloc: Global, graph: &Graph) -> Result<Rows, AllocError>
    ensures { IfOk result (λ rows. AreRows (links_of graph.now) (length graph.now.signals) rows) }
{
    let mut rows = Rows::with_capacity(alloc, graph.len())?;
    for s in 0..graph.len() {
        add_links(&mut rows, graph, graph.signal(SignalId::new(s)))?;
    }
    Ok(rows)
}

/// What each signal reads.
pub(crate) fn reads(alloc: Global, graph: &Graph, stands: &[SignalId]) -> Result<Rows, AllocError>
    requires { stands.now ≡ stands_of graph.now }
    ensures { IfOk result (λ rows. AreRows (reads_of graph.now) (length graph.now.signals) rows) }
{
    let mut rows = Rows::with_capacity(alloc, graph.len())?;
    for s in 0..graph.len() {
        add_reads(&mut rows, stands, graph.signal(SignalId::new(s)))?;
    }
    Ok(rows)
}
