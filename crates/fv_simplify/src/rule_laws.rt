// Laws of graphs that are rebuilt.

ghost use Rattle.fv_signal.specs.headline.Value.{Graph};
ghost use Rattle.fv_simplify.specs.Choices.{ChoicesKeepValues};
ghost use Rattle.fv_simplify.specs.Simpler.{RebuiltTwiceIsSimpler};
ghost use Rattle.fv_simplify.specs.Rebuilt.{RebuiltKeepsValues, RebuiltKeepsRest, RebuiltReadsNoFurther, RebuiltIsFolded, NoDelayIsTakenOver};

/// The operand that is chosen has the operation's value.
pub fn choices_keep_values()
    ensures { ChoicesKeepValues }
{}

/// The outputs of a rebuilt graph have their values.
pub fn values_are_kept()
    ensures { (g f : Graph) → RebuiltKeepsValues g f }
{}

/// Nothing else that matters of a rebuilt graph changes.
pub fn the_rest_is_kept()
    ensures { (g f : Graph) → RebuiltKeepsRest g f }
{}

/// A rebuilt graph reads no further back.
pub fn reads_no_further()
    ensures { (g f : Graph) → RebuiltReadsNoFurther g f }
{}

/// What is rebuilt is folded.
pub fn rebuilt_is_folded()
    ensures { (g f : Graph) → RebuiltIsFolded g f }
{}

/// No delay of a delay is reducible in a graph that is rebuilt from a folded one.
pub fn no_delay_is_taken_over()
    ensures { (g f : Graph) → NoDelayIsTakenOver g f }
{}

/// Two rebuildings make a graph that can not be made simpler.
pub fn twice_is_simpler()
    ensures { (g f h : Graph) → RebuiltTwiceIsSimpler g f h }
{}
