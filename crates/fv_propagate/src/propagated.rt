// The graph of a diagram.

ghost use Rattle.std.specs.Prelude.{◌≡◌, ℕ, ◌<◌, List, length, IfOk};
ghost use Rattle.fv_base.specs.declared.limits.TheConstants.{DELAY_LIMIT};
ghost use Rattle.fv_num.specs.headline.Frames.{Frame, Stream};
ghost use Rattle.fv_num.specs.headline.Interval.{Interval};
ghost use Rattle.fv_num.specs.SpanLaws.{AreSpans};
ghost use Rattle.fv_diagram.specs.headline.Diagram.{inputs, outputs};
ghost use Rattle.fv_diagram.specs.Diagram.{IsWellFormed, HasNoFreeSlot};
ghost use Rattle.fv_diagram.specs.Arena.{count_of, tree_of};
ghost use Rattle.fv_interval.specs.headline.Delays.{delays_of};
ghost use Rattle.fv_interval.specs.Delays.{AreAccepted};
ghost use Rattle.fv_signal.specs.headline.Value.{AreAtMost};
ghost use Rattle.fv_signal.specs.Value.{StayWithin};
ghost use Rattle.fv_share.specs.Drafts.{AreDistinct};
ghost use Rattle.fv_propagate.specs.headline.Propagated.{AreTaken, Propagates, NamesWithin};
ghost use Rattle.fv_propagate.specs.Propagated.{DelaysAreAmong};

use crate::progress::Progress;
use fv_diagram::{DiagramId, Diagrams, walk};
use fv_interval::Delays;
use fv_signal::{Graph, SignalId};
use std::alloc::{AllocError, Global};

/// The graph of signals of a diagram, where `delays` are those that `spans` answered for it.
pub fn propagate(
    alloc: Global,
    diagrams: &Diagrams,
    root: DiagramId,
    delays: &Delays,
) -> Result<Graph, AllocError>
    requires root { root < count_of diagrams.now }
    requires well { IsWellFormed (tree_of diagrams.now root) }
    requires closed { HasNoFreeSlot (tree_of diagrams.now root) }
    // Each output is that of the diagram, where the controls lie in the spans of which the delays are.
    ensures values { IfOk result (λ g. (spans : List Interval) → AreAccepted (delays_of (tree_of diagrams.now root) spans) delays.now
        → Propagates (tree_of diagrams.now root) spans g) }
    // No delay goes back further than its greatest number.
    ensures delays { IfOk result (λ g. (spans : List Interval) → AreAccepted (delays_of (tree_of diagrams.now root) spans) delays.now
        → (X : List Frame) (c : ℕ → Stream) → AreTaken (tree_of diagrams.now root) spans X c → StayWithin g X c) }
    ensures short { IfOk result (λ g. (spans : List Interval) → AreSpans spans → AreAccepted (delays_of (tree_of diagrams.now root) spans) delays.now
        → AreAtMost DELAY_LIMIT g) }
    // The greatest number of each delay is 1 at most, or one of those that the spans gave.
    ensures longest { IfOk result (DelaysAreAmong delays.now) }
    // Equal nodes share a number.
    ensures shared { IfOk result (λ g. AreDistinct g.signals) }
    ensures width { IfOk result (λ g. length g.outputs ≡ outputs (tree_of diagrams.now root)) }
    ensures names { IfOk result (λ g. NamesWithin (tree_of diagrams.now root) g) }
{
    let count = u64::from(diagrams.arity(root).inputs);
    let mut progress = Progress::new(alloc, delays)?;
    let ins = progress.inputs(alloc, count)?;
    let outs = walk(&mut progress, alloc, diagrams, root, ins, SignalId::new(0))?;
    let graph = progress.finish(&outs)?;
    Ok(graph)
}
