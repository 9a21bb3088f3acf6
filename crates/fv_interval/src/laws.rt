// Laws on the spans of wires.

ghost use Rattle.fv_diagram.specs.headline.Diagram.{Diagram};
ghost use Rattle.fv_interval.specs.Laws.{AnswersHold, AllDelaysHold};

/// No answer ever leaves its span while no input, control or slot leaves its own.
pub fn answers_hold()
    ensures { (d : Diagram) → AnswersHold d }
{}

/// At each `@` the second input lies in its span while no input, control or slot leaves its own.
pub fn delays_hold()
    ensures { (d : Diagram) → AllDelaysHold d }
{}
