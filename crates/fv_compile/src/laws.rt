// Laws of diagrams side by side.

ghost use Rattle.fv_propagate.specs.Value.{Graph};
ghost use Rattle.fv_diagram.specs.headline.Diagram.{Diagram};
ghost use Rattle.fv_compile.specs.Parts.{ShiftedAnswers, PartsAreWhole, PartsAnswer, PartsAnswerAlike};
ghost use Rattle.fv_compile.specs.OfParts.{JoinedPropagates, JoinedAreWide, JoinedNames};

/// A diagram whose controls are numbered after others answers what it does on its own controls.
pub fn shifted_answers()
    ensures { (d : Diagram) → ShiftedAnswers d }
{}

/// Parts side by side are well formed where each is, and have the inputs and outputs of all.
pub fn parts_are_whole()
    ensures { PartsAreWhole }
{}

/// The outputs of a part are those of its own diagram, on its columns and its controls.
pub fn parts_answer()
    ensures { PartsAnswer }
{}

/// Two answers that agree on a part's diagram, columns and controls agree on its outputs.
pub fn parts_answer_alike()
    ensures { PartsAnswerAlike }
{}

/// Where each job's graph gives what a diagram gives, all of them joined give what the diagrams side by side give.
pub fn joined_propagates()
    ensures { (f : Graph) → JoinedPropagates f }
{}

/// All joined graphs have as many outputs as the diagrams side by side.
pub fn joined_are_wide()
    ensures { (f : Graph) → JoinedAreWide f }
{}

/// Where each job's graph names only inputs and controls of its diagram, all of them joined name only those of the diagrams side by
/// side.
pub fn joined_names()
    ensures { (f : Graph) → JoinedNames f }
{}
