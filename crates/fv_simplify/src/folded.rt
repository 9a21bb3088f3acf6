// Equal signals as one.

ghost use Rattle.std.specs.Prelude.{◌≡◌, ◌<◌, length, ℕ, IfOk};
ghost use Rattle.fv_base.specs.headline.Lists.{at};
ghost use Rattle.fv_simplify.specs.Folding.{IsFolding};
ghost use Rattle.fv_simplify.specs.Folded.{IsFoldedOf};
ghost use Rattle.fv_simplify.specs.Kept.{KeepsAll};

use crate::finder::find;
use crate::foldings::folds;
use crate::redirected::redirect;
use fv_signal::{Graph, SignalId};
use std::alloc::{AllocError, Global};

/// The graph in which signals that are found equal are read as one, also where they feed back. It has as many signals, groups and
/// tables; the ones that nothing reads any more are for a rebuilding to leave out. Where the images that were found do not pass
/// the test, the graph stays as it is.
pub fn fold(alloc: Global, graph: &Graph) -> Result<Graph, AllocError>
    ensures folded { IfOk result (IsFoldedOf graph.now) }
    ensures keeps { IfOk result (KeepsAll graph.now) }
{
    let images = images(alloc, graph)?;
    // For the prover: the graph is finished.
    let _outputs = graph.outputs();
    redirect(alloc, graph, &images)
}

// The images that are found, or each signal itself where these are no folding.
fn images(alloc: Global, graph: &Graph) -> Result<Vec<SignalId>, AllocError>
    ensures { IfOk result (λ v. IsFolding graph.now (at v.items)) }
{
    let found = find(alloc, graph)?;
    if folds(graph, &found) {
        Ok(found)
    } else {
        themselves(alloc, graph)
    }
}

// Each signal.
fn themselves(alloc: Global, graph: &Graph) -> Result<Vec<SignalId>, AllocError>
    ensures { IfOk result (λ v. (s : ℕ) → s < length graph.now.signals → at v.items s ≡ s) }
{
    let mut all = Vec::with_capacity(alloc, graph.len() as usize)?;
    for place in 0..graph.len() {
        all.push(SignalId::new(place))?;
    }
    Ok(all)
}
