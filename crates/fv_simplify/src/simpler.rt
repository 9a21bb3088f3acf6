// A simpler graph.

ghost use Rattle.std.specs.Prelude.{List, ℕ, IfOk};
ghost use Rattle.fv_num.specs.headline.Frames.{Frame, Stream};
ghost use Rattle.fv_share.specs.Drafts.{AreDistinct};
ghost use Rattle.fv_signal.specs.headline.Value.{AreAtMost};
ghost use Rattle.fv_signal.specs.Value.{StayWithin};
ghost use Rattle.fv_simplify.specs.Reducible.{IsSimpler, limit};
ghost use Rattle.fv_simplify.specs.Kept.{KeepsAll};
ghost use Rattle.fv_simplify.specs.Simplified.{AreSmallIn};
ghost use Rattle.fv_simplify.specs.inner.Once.{Folds, Joins};

use crate::fold;
use crate::marks::marks;
use crate::pass::rebuild;
use crate::rooms::rooms;
use crate::widths::widths;
use fv_num::Span;
use fv_signal::Graph;
use std::alloc::{AllocError, Global};

/// A graph with as many outputs and their values at every sample, in which nothing is reducible: what numbers decide is folded,
/// and delays of delays are joined where no signal is read further back. `controls` has the span of each control.
pub fn simplify(alloc: Global, graph: &Graph, controls: &[Span]) -> Result<Graph, AllocError>
    requires short { AreAtMost limit graph.now }
    ensures simpler { IfOk result (IsSimpler graph.now) }
    // Where the controls are in their spans, and no delay went further than its greatest number, none does.
    ensures within { IfOk result (λ h. (X : List Frame) (c : ℕ → Stream) → AreSmallIn controls.now X c → StayWithin graph.now X c → StayWithin h X c) }
    // Equal nodes share a number.
    ensures shared { IfOk result (λ h. AreDistinct h.signals) }
{
    let _spans = controls;
    let first = folded(alloc, graph)?;
    let one = one_of_each(alloc, &first)?;
    joined(alloc, &one)
}

// The graph in which what numbers decide is folded.
fn folded(alloc: Global, graph: &Graph) -> Result<Graph, AllocError>
    requires { AreAtMost limit graph.now }
    ensures folds { IfOk result (Folds graph.now) }
    ensures short { IfOk result (AreAtMost limit) }
{
    let marks = marks(alloc, graph)?;
    let widths = widths(alloc, graph, &marks)?;
    rebuild(alloc, graph, &marks, &widths, &[])
}

// The graph in which equal signals are read as one.
fn one_of_each(alloc: Global, graph: &Graph) -> Result<Graph, AllocError>
    requires { AreAtMost limit graph.now }
    ensures keeps { IfOk result (KeepsAll graph.now) }
    ensures short { IfOk result (AreAtMost limit) }
{
    fold(alloc, graph)
}

// The graph in which, moreover, delays are joined.
fn joined(alloc: Global, graph: &Graph) -> Result<Graph, AllocError>
    requires { AreAtMost limit graph.now }
    ensures joins { IfOk result (Joins graph.now) }
    ensures shared { IfOk result (λ h. AreDistinct h.signals) }
{
    let marks = marks(alloc, graph)?;
    let widths = widths(alloc, graph, &marks)?;
    let rooms = rooms(alloc, graph, &marks)?;
    rebuild(alloc, graph, &marks, &widths, &rooms)
}
