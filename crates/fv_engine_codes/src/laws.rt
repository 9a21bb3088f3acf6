// The law of numbers of lanes.

ghost use Rattle.fv_engine_codes.specs.Renumbered.{RenumberedCodeObeys};

/// Code that obeys does so with its lanes' new numbers, over the lanes that it sees.
pub fn renumbered_code_obeys()
    ensures { RenumberedCodeObeys }
{}
