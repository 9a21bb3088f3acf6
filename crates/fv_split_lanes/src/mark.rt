// Which signals are separated.

ghost use Rattle.std.specs.Prelude.{◌≡◌, ◌↔◌, ℕ, ◌<◌, length, All, IfOk, IsTrue, true, false};
ghost use Rattle.fv_signal.specs.headline.Value.{IsGraph};
ghost use Rattle.fv_signal.specs.headline.Rates.{rates as rates_of};
ghost use Rattle.fv_components.specs.headline.Reach.{at};
ghost use Rattle.fv_analysis.specs.headline.Stands.{stands_of};
ghost use Rattle.fv_analysis.specs.inner.History.{IsOver};
ghost use Rattle.fv_split_plan.specs.headline.Separated.{IsComputed};
ghost use Rattle.fv_split_plan.specs.Separated.{IsWritten};
ghost use Rattle.fv_split_lanes.specs.inner.Rows.{reads_of};
ghost use Rattle.fv_split_lanes.specs.inner.Homes.{bit_at};
ghost use Rattle.fv_split_lanes.specs.inner.Readers.{AreReaders};
ghost use Rattle.fv_split_lanes.specs.inner.Marked.{Marks, ByOne, Named, DelaysTo, Delayed, Defined, Shared, IsSharedBy, Written, AreMarked};

use crate::reader::Reader;
use fv_analysis::Rates;
use fv_signal::{Graph, Rate, Signal, SignalId};
use std::alloc::{AllocError, Global};

// Marks what a signal stands for.
fn mark(marks: &mut Vec<bool>, stands: &[SignalId], x: SignalId)
    requires signal { x < length stands.now }
    requires within { All (λ s. s < length marks.old.items) stands.now }
    ensures { Marks marks.old.items marks.new.items (λ s. at stands.now x ≡ s) }
{
    marks[stands[x.number() as usize].number() as usize] = true;
}

// Marks what these signals stand for.
fn mark_named(marks: &mut Vec<bool>, stands: &[SignalId], signals: &[SignalId])
    requires signals { All (λ x. x < length stands.now) signals.now }
    requires within { All (λ s. s < length marks.old.items) stands.now }
    ensures { Marks marks.old.items marks.new.items (ByOne (Named stands.now signals.now) (length signals.now)) }
{
    for k in 0..signals.len() {
        mark(marks, stands, signals[k]);
    }
}

// Marks what a delay reads that may go back.
fn mark_delay(marks: &mut Vec<bool>, stands: &[SignalId], node: Signal)
    requires operands { IsOver (length stands.now) node }
    requires within { All (λ s. s < length marks.old.items) stands.now }
    ensures { Marks marks.old.items marks.new.items (DelaysTo stands.now node) }
{
    match node {
        Signal::Delay { x, d: _, max } => {
            if max >= 1 {
                mark(marks, stands, x);
            }
        }
        Signal::Input(_) => {}
        Signal::Const(_) => {}
        Signal::Control(_) => {}
        Signal::Point { op: _, args: _ } => {}
        Signal::Back { group: _, i: _ } => {}
        Signal::Member { group: _, i: _ } => {}
        Signal::Read { table: _, r: _ } => {}
        Signal::Write {
            table: _,
            w: _,
            x: _,
            r: _,
        } => {}
    }
}

// Marks what delays read that may go back.
fn mark_delays(marks: &mut Vec<bool>, stands: &[SignalId], graph: &Graph)
    requires stands { length stands.now ≡ length graph.now.signals }
    requires within { All (λ s. s < length marks.old.items) stands.now }
    ensures { Marks marks.old.items marks.new.items (ByOne (Delayed graph.now stands.now) (length graph.now.signals)) }
{
    for k in 0..graph.len() {
        mark_delay(marks, stands, graph.signal(SignalId::new(k)));
    }
}

// Marks what the definitions of groups stand for.
fn mark_groups(marks: &mut Vec<bool>, stands: &[SignalId], graph: &Graph)
    requires graph { IsGraph graph.now }
    requires stands { length stands.now ≡ length graph.now.signals }
    requires within { All (λ s. s < length marks.old.items) stands.now }
    ensures { Marks marks.old.items marks.new.items (ByOne (Defined graph.now stands.now) (length graph.now.groups)) }
{
    for k in 0..graph.groups() {
        mark_named(marks, stands, graph.group(k));
    }
}

// Whether a signal is an operation, a delay or a table.
pub(crate) fn is_computed(node: Signal) -> bool
    ensures { IsTrue result ↔ IsComputed node }
{
    match node {
        Signal::Point { op: _, args: _ } => true,
        Signal::Delay { x: _, d: _, max: _ } => true,
        Signal::Input(_) => false,
        Signal::Const(_) => false,
        Signal::Control(_) => false,
        Signal::Back { group: _, i: _ } => false,
        Signal::Member { group: _, i: _ } => false,
        Signal::Read { table: _, r: _ } => true,
        Signal::Write {
            table: _,
            w: _,
            x: _,
            r: _,
        } => true,
    }
}

// Whether a signal is computed at each sample, and read by many.
fn is_shared(node: Signal, rate: Rate, reader: Reader) -> bool
    ensures { IsTrue result ↔ IsSharedBy node rate reader }
{
    is_computed(node) && matches!(rate, Rate::Sample) && matches!(reader, Reader::Many)
}

// Marks one signal, or none.
fn mark_where(marks: &mut Vec<bool>, s: u64, here: bool)
    requires signal { s < length marks.old.items }
    ensures { Marks marks.old.items marks.new.items (λ x. (s ≡ x) × IsTrue here) }
{
    if here {
        marks[s as usize] = true;
    }
}

// Marks what is computed at each sample and read by many.
fn mark_shared(marks: &mut Vec<bool>, graph: &Graph, rates: &Rates, readers: &[Reader])
    requires marks { length marks.old.items ≡ length graph.now.signals }
    requires rates { length rates.now ≡ length graph.now.signals }
    requires readers { length readers.now ≡ length graph.now.signals }
    ensures { Marks marks.old.items marks.new.items (ByOne (Shared graph.now rates.now readers.now) (length graph.now.signals)) }
{
    for k in 0..graph.len() {
        let id = SignalId::new(k);
        let shared = is_shared(graph.signal(id), rates.get(id), readers[k as usize]);
        mark_where(marks, k, shared);
    }
}

// Whether a signal is a table that is written.
fn is_written(node: Signal) -> bool
    ensures { IsTrue result ↔ IsWritten node }
{
    match node {
        Signal::Write {
            table: _,
            w: _,
            x: _,
            r: _,
        } => true,
        Signal::Input(_) => false,
        Signal::Const(_) => false,
        Signal::Control(_) => false,
        Signal::Point { op: _, args: _ } => false,
        Signal::Delay { x: _, d: _, max: _ } => false,
        Signal::Back { group: _, i: _ } => false,
        Signal::Member { group: _, i: _ } => false,
        Signal::Read { table: _, r: _ } => false,
    }
}

// Marks the tables that are written.
fn mark_written(marks: &mut Vec<bool>, graph: &Graph)
    requires { length marks.old.items ≡ length graph.now.signals }
    ensures { Marks marks.old.items marks.new.items (ByOne (Written graph.now) (length graph.now.signals)) }
{
    for k in 0..graph.len() {
        let written = is_written(graph.signal(SignalId::new(k)));
        mark_where(marks, k, written);
    }
}

/// Which signals are separated.
pub(crate) fn separated(
    alloc: Global,
    graph: &Graph,
    stands: &[SignalId],
    rates: &Rates,
    readers: &[Reader],
) -> Result<Vec<bool>, AllocError>
    requires graph { IsGraph graph.now }
    requires stands { stands.now ≡ stands_of graph.now }
    requires within { All (λ s. s < length graph.now.signals) stands.now }
    requires rates { rates.now ≡ rates_of graph.now.signals }
    requires readers { AreReaders (reads_of graph.now) (length graph.now.signals) (length graph.now.signals) readers.now }
    ensures { IfOk result (λ marks. AreMarked graph.now marks.items) }
{
    let mut marks = vec![in alloc; false; graph.len() as usize]?;
    mark_named(&mut marks, stands, graph.outputs());
    mark_delays(&mut marks, stands, graph);
    mark_groups(&mut marks, stands, graph);
    mark_shared(&mut marks, graph, rates, readers);
    mark_written(&mut marks, graph);
    Ok(marks)
}
