// A graph that is copied into a builder, after others.

ghost use Rattle.std.specs.Prelude.{◌≡◌, ◌+◌, ◌<◌, ◌^◌, length, map, All, IfOk, ℕ, slice_index_or};
ghost use Rattle.fv_analysis.specs.headline.Stands.{node};
ghost use Rattle.fv_signal.specs.headline.Value.{members};
ghost use Rattle.fv_share.specs.Drafts.{IsPending, OperandsThere, lists_in};
ghost use Rattle.fv_base.specs.headline.Lists.{at};
ghost use Rattle.fv_compile.specs.Jobs.{ReadsWithin};
ghost use Rattle.fv_compile.specs.inner.Copied.{renumbered as renumbered_of, copy_of, definitions_of, NumbersFit, HaveRoom};
ghost use Rattle.fv_compile.specs.inner.Copied.{IsValid, IsUnderWay, IsAppended, AreListed};

use crate::job::Job;
use fv_share::Builder;
use fv_signal::{Graph, Signal, SignalId};
use std::alloc::{AllocError, Global};

/// How many inputs, controls, groups and tables stand before those of a graph.
#[derive(Clone, Copy)]
pub(crate) struct Offsets {
    pub(crate) inputs: u32,
    pub(crate) controls: u32,
    pub(crate) groups: u64,
    pub(crate) tables: u64,
}

/// Puts a copy of a job's graph after what is there. Returns the images of its outputs.
pub(crate) fn append(
    alloc: Global,
    builder: &mut Builder,
    job: &Job,
    inputs: u32,
    controls: u32,
) -> Result<Vec<SignalId>, AllocError>
    requires reads { ReadsWithin job.now.inputs job.now.controls job.now.graph }
    requires inputs { inputs + job.now.inputs < 2 ^ 32 }
    requires controls { controls + job.now.controls < 2 ^ 32 }
    requires valid { IsValid builder.old }
    ensures { IfOk result (λ outs. IsAppended job.now.graph inputs controls builder.old builder.new outs.items) }
{
    let graph = &job.graph;
    let outputs = graph.outputs();
    let first = builder.open_groups(graph.groups())?;
    let tables = builder.add_tables(graph)?;
    // No group more: this counts them, so each of their numbers fits, as does each of the tables.
    let _end = builder.open_groups(0)?;
    let _tables = builder.tables();
    let offsets = Offsets {
        inputs,
        controls,
        groups: first,
        tables,
    };
    let images = images(alloc, builder, graph, offsets)?;
    let lists = definitions(alloc, graph, &images)?;
    builder.close_groups(first, lists);
    images_of(alloc, outputs, &images)
}

// Puts the images of all signals, one after another.
fn images(
    alloc: Global,
    builder: &mut Builder,
    graph: &Graph,
    offsets: Offsets,
) -> Result<Vec<SignalId>, AllocError>
    requires room { HaveRoom offsets graph.now }
    requires open { (g : ℕ) → g < length graph.now.groups → IsPending builder.old (offsets.groups + g) }
    requires tables { AreListed graph.now offsets.tables builder.old.tables }
    ensures { IfOk result (λ v. IsUnderWay graph.now offsets (length graph.now.signals) builder.old builder.new v.items) }
{
    // This reads what holds of all graphs.
    let _outputs = graph.outputs();
    let mut images = Vec::with_capacity(alloc, graph.len() as usize)?;
    for _ in 0..graph.len() {
        let id = image(builder, graph, &images, offsets)?;
        images.push(id)?;
    }
    Ok(images)
}

// Puts the image of the first signal that has none yet. A member's is that of its definition.
fn image(
    builder: &mut Builder,
    graph: &Graph,
    images: &[SignalId],
    offsets: Offsets,
) -> Result<SignalId, AllocError>
    requires more { length images.now < length graph.now.signals }
    requires room { HaveRoom offsets graph.now }
    requires there { All (λ a. a < length builder.old.signals) images.now }
    requires open { (g : ℕ) → g < length graph.now.groups → IsPending builder.old (offsets.groups + g) }
    requires tables { AreListed graph.now offsets.tables builder.old.tables }
    ensures { IfOk result (λ id. (id, builder.new) ≡ copy_of graph.now (at images.now) offsets builder.old (node graph.now (length images.now))) }
{
    let signal = graph.signal(SignalId::new(images.len() as u64));
    if let Signal::Member { group, i } = signal {
        return Ok(image_at(images, graph.group(group)[i as usize]));
    }
    builder.node(renumbered(signal, images, offsets))
}

// A signal over the images of its operands, with its numbers after those that stand before.
fn renumbered(signal: Signal, images: &[SignalId], offsets: Offsets) -> Signal
    requires operands { OperandsThere (length images.now) signal }
    requires fits { NumbersFit offsets signal }
    ensures { result ≡ renumbered_of (at images.now) offsets signal }
{
    match signal {
        Signal::Input(k) => Signal::Input(u64::from(offsets.inputs) + k),
        Signal::Const(n) => Signal::Const(n),
        Signal::Control(k) => Signal::Control(offsets.controls + k),
        Signal::Point { op, args } => Signal::Point {
            op,
            args: [
                image_at(images, args[0]),
                image_at(images, args[1]),
                image_at(images, args[2]),
                image_at(images, args[3]),
            ],
        },
        Signal::Delay { x, d, max } => Signal::Delay {
            x: image_at(images, x),
            d: image_at(images, d),
            max,
        },
        Signal::Back { group, i } => Signal::Back {
            group: offsets.groups + group,
            i,
        },
        Signal::Member { group, i } => Signal::Member {
            group: offsets.groups + group,
            i,
        },
        Signal::Read { table, r } => Signal::Read {
            table: offsets.tables + table,
            r: image_at(images, r),
        },
        Signal::Write { table, w, x, r } => Signal::Write {
            table: offsets.tables + table,
            w: image_at(images, w),
            x: image_at(images, x),
            r: image_at(images, r),
        },
    }
}

// The image of a signal.
fn image_at(images: &[SignalId], s: SignalId) -> SignalId
    requires { s < length images.now }
    ensures { result ≡ at images.now s }
{
    images[s.number() as usize]
}

// The images of the definitions of each group's members.
fn definitions(
    alloc: Global,
    graph: &Graph,
    images: &[SignalId],
) -> Result<Vec<Vec<SignalId>>, AllocError>
    requires { (g : ℕ) → g < length graph.now.groups → All (λ s. s < length images.now) (members graph.now g) }
    ensures { IfOk result (λ lists. lists_in lists.items ≡ definitions_of graph.now (at images.now)) }
{
    let mut lists = Vec::new(alloc);
    for group in 0..graph.groups() {
        let list = images_of(alloc, graph.group(group), images)?;
        lists.push(list)?;
    }
    Ok(lists)
}

// The images of these signals.
fn images_of(
    alloc: Global,
    signals: &[SignalId],
    images: &[SignalId],
) -> Result<Vec<SignalId>, AllocError>
    requires { All (λ s. s < length images.now) signals.now }
    ensures { IfOk result (λ v. v.items ≡ map (at images.now) signals.now) }
{
    let mut list = Vec::with_capacity(alloc, signals.len())?;
    for s in signals {
        list.push(image_at(images, *s))?;
    }
    Ok(list)
}
