// Whether a map from signals to signals is a folding: whether it may be read in the place of the signals.

ghost use Rattle.std.specs.Prelude.{◌↔◌, ◌<◌, length, IsTrue};
ghost use Rattle.fv_base.specs.headline.Lists.{at};
ghost use Rattle.fv_simplify.specs.Folding.{IsFolding};
ghost use Rattle.fv_simplify.specs.inner.Alike.{IsAlike};

use crate::read::{image_of, read};
use fv_signal::{Graph, SignalId};

/// Whether these images, one for each signal, may be read in the place of the signals: each is that signal or an earlier one, and
/// reads what the signal reads, both over the images. The test is exact, so it does not matter who found the images.
pub fn folds(graph: &Graph, images: &[SignalId]) -> bool
    ensures { IsTrue result ↔ IsFolding graph.now (at images.now) }
{
    for place in 0..graph.len() {
        if !is_alike(graph, images, SignalId::new(place)) {
            return false;
        }
    }
    true
}

// Whether a signal's image is no later one, and reads what the signal reads.
fn is_alike(graph: &Graph, images: &[SignalId], s: SignalId) -> bool
    requires { s < length graph.now.signals }
    ensures { IsTrue result ↔ IsAlike graph.now (at images.now) s }
{
    let image = image_of(images, s);
    image.number() <= s.number()
        && read(graph, images, images, image) == read(graph, images, images, s)
}
