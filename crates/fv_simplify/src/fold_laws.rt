// The laws of foldings.

ghost use Rattle.fv_signal.specs.headline.Value.{Graph};
ghost use Rattle.fv_simplify.specs.Kept.{RedirectedKeepsAll};
ghost use Rattle.fv_simplify.specs.Folded.{FoldedValues, RedirectedIsGraph, RedirectedKeepsValues};

/// The image of a signal has its value.
pub fn folded_values()
    ensures { (g : Graph) → FoldedValues g }
{}

/// A graph that reads images is a graph.
pub fn redirected_is_graph()
    ensures { (g : Graph) → RedirectedIsGraph g }
{}

/// A graph that reads images keeps the values of its signals.
pub fn redirected_keeps_values()
    ensures { (g : Graph) → RedirectedKeepsValues g }
{}

/// A graph that reads images keeps all that matters.
pub fn redirected_keeps_all()
    ensures { (g : Graph) → RedirectedKeepsAll g }
{}
