// A pass over a graph.

ghost use Rattle.std.specs.Prelude.{◌≡◌, ℕ, ◌+◌, ◌<◌, [], ◌∷◌, ◌++◌, length, take, map, All, IfOk, OnOk, slice_index_or, List, Bool, false};
ghost use Rattle.fv_signal.specs.headline.Value.{members, IsGraph, AreAtMost};
ghost use Rattle.fv_share.specs.Drafts.{AreClosed, AreDistinct, IsPending, graph_of, lists_in};
ghost use Rattle.fv_simplify.specs.Nodes.{node};
ghost use Rattle.fv_simplify.specs.Reducible.{limit};
ghost use Rattle.fv_simplify.specs.Rebuilt.{IsMarked, IsRebuilt};
ghost use Rattle.fv_simplify.specs.Passing.{room_in};
ghost use Rattle.fv_simplify.specs.Runs.{step, begun as begun_of, passed as passed_of, definitions as definitions_of, AreGood};

use crate::image::image;
use crate::late::put_number;
use fv_share::Builder;
use fv_signal::{Graph, SignalId};
use std::alloc::{AllocError, Global};

/// The graph rebuilt: the signals that are marked, of each group as many members as its width says, and delays joined where
/// there is room.
pub(crate) fn rebuild(
    alloc: Global,
    graph: &Graph,
    marks: &[bool],
    widths: &[u64],
    rooms: &[Option<u32>],
) -> Result<Graph, AllocError>
    requires short { AreAtMost limit graph.now }
    requires marks { length marks.now ≡ length graph.now.signals }
    requires widths { length widths.now ≡ length graph.now.groups }
    requires good { AreGood graph.now marks.now widths.now }
    ensures rebuilt { IfOk result (λ h. (p : ℕ → ℕ) × IsRebuilt graph.now h p (room_in rooms.now) (IsMarked marks.now)) }
    ensures shared { IfOk result (λ h. AreDistinct h.signals) }
{
    let mut builder = begun(alloc, graph)?;
    let outputs = fill(alloc, &mut builder, graph, marks, widths, rooms)?;
    builder.finish(&outputs)
}

// A builder with the number 0, all groups open, and the tables.
fn begun(alloc: Global, graph: &Graph) -> Result<Builder, AllocError>
    ensures { IfOk result (λ b. b ≡ (begun_of graph.now).draft) }
{
    let mut builder = Builder::new(alloc);
    begin(&mut builder, graph)?;
    Ok(builder)
}

// Opens all groups, adds the tables and the number 0, in a builder that has nothing.
fn begin(builder: &mut Builder, graph: &Graph) -> Result<(), AllocError>
    requires { builder.old ≡ record { signals = []; groups = []; closed = []; tables = [] } }
    ensures { OnOk result (builder.new ≡ (begun_of graph.now).draft) }
{
    let _first = builder.open_groups(graph.groups())?;
    let _tables = builder.add_tables(graph)?;
    let _zero = put_number(builder, 0)?;
    Ok(())
}

// Puts all signals and the definitions of all groups, in a builder that has begun. Returns the images of the outputs.
fn fill(
    alloc: Global,
    builder: &mut Builder,
    graph: &Graph,
    marks: &[bool],
    widths: &[u64],
    rooms: &[Option<u32>],
) -> Result<Vec<SignalId>, AllocError>
    requires begun { builder.old ≡ (begun_of graph.now).draft }
    requires short { AreAtMost limit graph.now }
    requires marks { length marks.now ≡ length graph.now.signals }
    requires widths { length widths.now ≡ length graph.now.groups }
    requires good { AreGood graph.now marks.now widths.now }
    ensures closed { OnOk result (AreClosed builder.new) }
    ensures outputs { IfOk result (λ v. All (λ s. s < length builder.new.signals) v.items) }
    ensures rebuilt { IfOk result (λ v. IsGraph (graph_of builder.new v.items)
        → (p : ℕ → ℕ) × IsRebuilt graph.now (graph_of builder.new v.items) p (room_in rooms.now) (IsMarked marks.now)) }
{
    let images = passed(alloc, builder, graph, marks, rooms)?;
    let outputs = images_of(alloc, graph.outputs(), &images)?;
    let groups = definitions(alloc, graph, widths, &images)?;
    builder.close_groups(0, groups);
    Ok(outputs)
}

// Puts the images of all signals, one after another.
fn passed(
    alloc: Global,
    builder: &mut Builder,
    graph: &Graph,
    marks: &[bool],
    rooms: &[Option<u32>],
) -> Result<Vec<SignalId>, AllocError>
    requires begun { builder.old ≡ (begun_of graph.now).draft }
    requires short { AreAtMost limit graph.now }
    requires marks { length marks.now ≡ length graph.now.signals }
    ensures images { IfOk result (λ v. passed_of graph.now marks.now (room_in rooms.now) ≡ record { draft = builder.new; images = v.items }) }
    ensures there { IfOk result (λ v. All (λ a. a < length builder.new.signals) v.items) }
{
    let mut images = Vec::with_capacity(alloc, graph.len() as usize)?;
    for place in 0..graph.len() {
        let id = next(builder, graph, &images, marks[place as usize], rooms)?;
        images.push(id)?;
    }
    Ok(images)
}

// Puts the image of the next signal; 0 where it is not marked.
fn next(
    builder: &mut Builder,
    graph: &Graph,
    images: &[SignalId],
    is_marked: bool,
    rooms: &[Option<u32>],
) -> Result<SignalId, AllocError>
    requires more { length images.now < length graph.now.signals }
    requires short { AreAtMost limit graph.now }
    requires some { 0 < length builder.old.signals }
    requires there { All (λ a. a < length builder.old.signals) images.now }
    requires open { (g : ℕ) → g < length graph.now.groups → IsPending builder.old g }
    requires tables { builder.old.tables ≡ graph.now.tables }
    ensures step { IfOk result (λ id. (marks : List Bool) → slice_index_or marks (length images.now) false ≡ is_marked →
        step graph.now marks (room_in rooms.now) (record { draft = builder.old; images = images.now }) (node graph.now (length images.now))
        ≡ record { draft = builder.new; images = images.now ++ id ∷ [] }) }
    ensures there { IfOk result (λ id. id < length builder.new.signals) }
{
    if is_marked {
        image(builder, graph, images, rooms)
    } else {
        Ok(SignalId::new(0))
    }
}

// The definitions of the members of each group: their images.
fn definitions(
    alloc: Global,
    graph: &Graph,
    widths: &[u64],
    images: &[SignalId],
) -> Result<Vec<Vec<SignalId>>, AllocError>
    requires widths { length widths.now ≡ length graph.now.groups }
    requires there { (g : ℕ) → g < length graph.now.groups → All (λ s. s < length images.now) (members graph.now g) }
    ensures { IfOk result (λ lists. lists_in lists.items ≡ definitions_of graph.now widths.now images.now) }
{
    let mut lists = Vec::with_capacity(alloc, graph.groups() as usize)?;
    for group in 0..graph.groups() {
        let list = first_images(alloc, graph.group(group), widths[group as usize], images)?;
        lists.push(list)?;
    }
    Ok(lists)
}

// The images of the first `count` signals.
fn first_images(
    alloc: Global,
    signals: &[SignalId],
    count: u64,
    images: &[SignalId],
) -> Result<Vec<SignalId>, AllocError>
    requires { All (λ s. s < length images.now) signals.now }
    ensures { IfOk result (λ v. v.items ≡ map (λ r. slice_index_or images.now r 0) (take count signals.now)) }
{
    let long = signals.len().min(count as usize);
    images_of(alloc, &signals[..long], images)
}

// The images of these signals.
fn images_of(
    alloc: Global,
    signals: &[SignalId],
    images: &[SignalId],
) -> Result<Vec<SignalId>, AllocError>
    requires { All (λ s. s < length images.now) signals.now }
    ensures { IfOk result (λ v. v.items ≡ map (λ r. slice_index_or images.now r 0) signals.now) }
{
    let mut list = Vec::with_capacity(alloc, signals.len())?;
    for s in signals {
        list.push(images[s.number() as usize])?;
    }
    Ok(list)
}
