// Graphs that read images.

ghost use Rattle.std.specs.Prelude.{◌≡◌, map, IfOk};
ghost use Rattle.fv_base.specs.headline.Lists.{at};
ghost use Rattle.fv_share.specs.Drafts.{lists_in};
ghost use Rattle.fv_simplify.specs.Folding.{IsFolding};
ghost use Rattle.fv_simplify.specs.Folded.{with_images as with_images_of, redirected};

use crate::read::image_of;
use fv_signal::{Graph, Signal, SignalId};
use std::alloc::{AllocError, Global};

/// The graph whose nodes, definitions and outputs read the images, one for each signal. All signals stay at their places, so
/// nothing has to be numbered anew.
pub fn redirect(alloc: Global, graph: &Graph, images: &[SignalId]) -> Result<Graph, AllocError>
    requires { IsFolding graph.now (at images.now) }
    ensures { IfOk result (λ h. h ≡ redirected graph.now (at images.now)) }
{
    let signals = signals(alloc, graph, images)?;
    let groups = groups(alloc, graph, images)?;
    let tables = tables(alloc, graph)?;
    // For the prover: the graph is finished.
    let outputs = images_of(alloc, graph.outputs(), images)?;
    Ok(Graph::new(signals, groups, tables, outputs))
}

// The signals with the images of their operands.
fn signals(alloc: Global, graph: &Graph, images: &[SignalId]) -> Result<Vec<Signal>, AllocError>
    ensures { IfOk result (λ v. v.items ≡ map (with_images_of (at images.now)) graph.now.signals) }
{
    let mut list = Vec::with_capacity(alloc, graph.len() as usize)?;
    for place in 0..graph.len() {
        let signal = graph.signal(SignalId::new(place));
        list.push(with_images(images, signal))?;
    }
    Ok(list)
}

// A signal with the images of its operands.
fn with_images(images: &[SignalId], signal: Signal) -> Signal
    ensures { result ≡ with_images_of (at images.now) signal }
{
    match signal {
        Signal::Point { op, args } => Signal::Point {
            op,
            args: [
                image_of(images, args[0]),
                image_of(images, args[1]),
                image_of(images, args[2]),
                image_of(images, args[3]),
            ],
        },
        Signal::Delay { x, d, max } => Signal::Delay {
            x: image_of(images, x),
            d: image_of(images, d),
            max,
        },
        Signal::Read { table, r } => Signal::Read {
            table,
            r: image_of(images, r),
        },
        Signal::Write { table, w, x, r } => Signal::Write {
            table,
            w: image_of(images, w),
            x: image_of(images, x),
            r: image_of(images, r),
        },
        Signal::Input(_)
        | Signal::Const(_)
        | Signal::Control(_)
        | Signal::Back { .. }
        | Signal::Member { .. } => signal,
    }
}

// The images of the definitions of each group.
fn groups(
    alloc: Global,
    graph: &Graph,
    images: &[SignalId],
) -> Result<Vec<Vec<SignalId>>, AllocError>
    ensures { IfOk result (λ v. lists_in v.items ≡ map (map (at images.now)) graph.now.groups) }
{
    let mut lists = Vec::with_capacity(alloc, graph.groups() as usize)?;
    for group in 0..graph.groups() {
        lists.push(images_of(alloc, graph.group(group), images)?)?;
    }
    Ok(lists)
}

// The tables.
fn tables(alloc: Global, graph: &Graph) -> Result<Vec<Vec<i32>>, AllocError>
    ensures { IfOk result (λ v. lists_in v.items ≡ graph.now.tables) }
{
    let mut lists = Vec::with_capacity(alloc, graph.tables() as usize)?;
    for table in 0..graph.tables() {
        lists.push(Vec::from_slice(alloc, graph.table(table))?)?;
    }
    Ok(lists)
}

// The images of these signals.
fn images_of(
    alloc: Global,
    signals: &[SignalId],
    images: &[SignalId],
) -> Result<Vec<SignalId>, AllocError>
    ensures { IfOk result (λ v. v.items ≡ map (at images.now) signals.now) }
{
    let mut list = Vec::with_capacity(alloc, signals.len())?;
    for s in signals {
        list.push(image_of(images, *s))?;
    }
    Ok(list)
}
