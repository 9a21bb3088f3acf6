// Laws of the words.

ghost use Rattle.fv_top_words.specs.Pieces.{AreCut};
ghost use Rattle.fv_top_words.specs.Runs.{KeepRanges};

/// Words are cut into just the pieces that the rules of options give.
pub fn words_are_cut()
    ensures { AreCut }
{}

/// The settings of a run keep their ranges.
pub fn settings_keep_ranges()
    ensures { KeepRanges }
{}
