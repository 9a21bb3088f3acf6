// Which signals are rebuilt.

ghost use Rattle.std.specs.Prelude.{◌≡◌, ◌<◌, length, vec_len, All, IfOk, IsTrue};
ghost use Rattle.fv_signal.specs.headline.Value.{IsGraph, NamesWithin};
ghost use Rattle.fv_signal.specs.Value.{ReadsOnly, AreClosedSet};
ghost use Rattle.fv_simplify.specs.Nodes.{node};
ghost use Rattle.fv_simplify.specs.Rebuilt.{IsMarked};

use fv_signal::{Graph, Signal, SignalId};
use std::alloc::{AllocError, Global};

// How many sweeps are made at most. A sweep goes from the last signal to the first, and a Back may name a definition after it.
// Where these sweeps do not mark all that outputs reach, every signal is marked.
const SWEEPS: u32 = 8;

/// Marks of signals that read nothing but one another, the outputs among them: what outputs reach, as a rule.
pub(crate) fn marks(alloc: Global, graph: &Graph) -> Result<Vec<bool>, AllocError>
    ensures graph { IsGraph graph.now }
    ensures long { IfOk result (λ m. vec_len m ≡ length graph.now.signals) }
    ensures reads { IfOk result (λ m. AreClosedSet graph.now (IsMarked m.items)) }
    ensures outputs { IfOk result (λ m. All (IsMarked m.items) graph.now.outputs) }
{
    let _outputs = graph.outputs();
    let marks = reached(alloc, graph)?;
    if are_closed(graph, &marks) {
        Ok(marks)
    } else {
        all_marked(alloc, graph)
    }
}

// All signals are marked.
fn all_marked(alloc: Global, graph: &Graph) -> Result<Vec<bool>, AllocError>
    ensures long { IfOk result (λ m. vec_len m ≡ length graph.now.signals) }
    ensures reads { IfOk result (λ m. AreClosedSet graph.now (IsMarked m.items)) }
    ensures outputs { IfOk result (λ m. All (IsMarked m.items) graph.now.outputs) }
{
    let _outputs = graph.outputs();
    vec![in alloc; true; graph.len() as usize]
}

// Whether marked signals read nothing but one another, the outputs among them.
fn are_closed(graph: &Graph, marks: &[bool]) -> bool
    requires { length marks.now ≡ length graph.now.signals }
    ensures reads { IsTrue result → AreClosedSet graph.now (IsMarked marks.now) }
    ensures outputs { IsTrue result → All (IsMarked marks.now) graph.now.outputs }
{
    if !all_are_marked(marks, graph.outputs()) {
        return false;
    }
    for place in 0..graph.len() {
        if marks[place as usize] && !reads_marked(graph, marks, SignalId::new(place)) {
            return false;
        }
    }
    true
}

// Whether all that a signal reads is marked.
fn reads_marked(graph: &Graph, marks: &[bool], s: SignalId) -> bool
    requires s { s < length graph.now.signals }
    requires long { length marks.now ≡ length graph.now.signals }
    ensures { IsTrue result → ReadsOnly graph.now (IsMarked marks.now) (node graph.now s) }
{
    match graph.signal(s) {
        Signal::Point { op, args } => all_are_marked(marks, &args[..op.inputs() as usize]),
        Signal::Delay { x, d, max: _ } => is_marked(marks, x) && is_marked(marks, d),
        Signal::Back { group, i } => is_marked(marks, graph.group(group)[i as usize]),
        Signal::Member { group, i } => is_marked(marks, graph.group(group)[i as usize]),
        Signal::Read { table: _, r } => is_marked(marks, r),
        Signal::Write { table: _, w, x, r } => {
            is_marked(marks, w) && is_marked(marks, x) && is_marked(marks, r)
        }
        Signal::Input(_) | Signal::Const(_) | Signal::Control(_) => true,
    }
}

// Whether these signals all are marked.
fn all_are_marked(marks: &[bool], signals: &[SignalId]) -> bool
    ensures { IsTrue result → All (IsMarked marks.now) signals.now }
{
    for s in signals {
        if !is_marked(marks, *s) {
            return false;
        }
    }
    true
}

// Whether a signal is marked.
fn is_marked(marks: &[bool], s: SignalId) -> bool
    ensures { IsTrue result → IsMarked marks.now s }
{
    match marks.get(s.number() as usize) {
        Some(mark) => *mark,
        None => false,
    }
}

// Marks of what the outputs reach, as far as some sweeps find it.
fn reached(alloc: Global, graph: &Graph) -> Result<Vec<bool>, AllocError>
    ensures { IfOk result (λ m. vec_len m ≡ length graph.now.signals) }
{
    let mut marks = vec![in alloc; false; graph.len() as usize]?;
    for s in graph.outputs() {
        let _more = mark(&mut marks, *s);
    }
    for _ in 0..SWEEPS {
        if !sweep(graph, &mut marks) {
            break;
        }
    }
    Ok(marks)
}

// Marks what marked signals read, from the last one to the first. Whether any was not marked.
fn sweep(graph: &Graph, marks: &mut [bool]) -> bool
    requires { length marks.old ≡ length graph.now.signals }
    ensures { length marks.new ≡ length marks.old }
{
    let mut more = false;
    for behind in 0..graph.len() {
        let place = graph.len() - 1 - behind;
        if marks[place as usize] && mark_reads(graph, marks, graph.signal(SignalId::new(place))) {
            more = true;
        }
    }
    more
}

// Marks what a signal reads. Whether any of it was not marked.
fn mark_reads(graph: &Graph, marks: &mut [bool], signal: Signal) -> bool
    requires { NamesWithin graph.now signal }
    ensures { length marks.new ≡ length marks.old }
{
    match signal {
        Signal::Point { op, args } => mark_all(marks, &args[..op.inputs() as usize]),
        Signal::Delay { x, d, max: _ } => mark_all(marks, &[x, d]),
        Signal::Back { group, i } => mark(marks, graph.group(group)[i as usize]),
        Signal::Member { group, i } => mark(marks, graph.group(group)[i as usize]),
        Signal::Read { table: _, r } => mark(marks, r),
        Signal::Write { table: _, w, x, r } => mark_all(marks, &[w, x, r]),
        Signal::Input(_) | Signal::Const(_) | Signal::Control(_) => false,
    }
}

// Marks these signals. Whether any was not marked.
fn mark_all(marks: &mut [bool], signals: &[SignalId]) -> bool
    ensures { length marks.new ≡ length marks.old }
{
    let mut more = false;
    for s in signals {
        if mark(marks, *s) {
            more = true;
        }
    }
    more
}

// Marks a signal. Whether it is there and was not marked.
fn mark(marks: &mut [bool], s: SignalId) -> bool
    ensures { length marks.new ≡ length marks.old }
{
    let place = s.number() as usize;
    if place < marks.len() && !marks[place] {
        marks[place] = true;
        true
    } else {
        false
    }
}
