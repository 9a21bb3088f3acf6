// The laws of what members stand for, of rates and of histories.

ghost use Rattle.fv_signal.specs.headline.Value.{Graph};
ghost use Rattle.fv_analysis.specs.Stands.{StandsAlike, DelaysAreSample};
ghost use Rattle.fv_analysis.specs.History.{HistoriesCover};

/// What a member stands for has its values.
pub fn stands_alike()
    ensures { (g : Graph) → StandsAlike g }
{}

/// What passes through a delay, a group or a table that is written is of rate sample.
pub fn delays_are_sample()
    ensures { (g : Graph) → DelaysAreSample g }
{}

/// No signal is read further back than its history, and no history is longer than it has to be.
pub fn histories_cover()
    ensures { (g : Graph) → HistoriesCover g }
{}
