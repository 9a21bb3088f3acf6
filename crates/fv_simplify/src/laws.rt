// Laws of a pass over a graph.

ghost use Rattle.fv_signal.specs.headline.Value.{Graph};
ghost use Rattle.fv_simplify.specs.Passing.{PutsImages};
ghost use Rattle.fv_simplify.specs.Runs.{PassRebuilds};

/// What is put for a signal is its image.
pub fn images_are_put()
    ensures { (f : Graph) → PutsImages f }
{}

/// A pass over a graph rebuilds it.
pub fn a_pass_rebuilds()
    ensures { (g : Graph) → PassRebuilds g }
{}
