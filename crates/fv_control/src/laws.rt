// Laws of the control streams.

ghost use Rattle.fv_control.specs.Laws.{Hold, Held, IsLawful, IsReadAsSpelled};

/// Between two changes a control is constant.
pub fn controls_hold()
    ensures { Hold }
{}

/// What a script spells is in order, and of its controls.
pub fn scripts_are_lawful()
    ensures { IsLawful }
{}

/// The numbers after the changes up to a frame are those of the streams at that frame.
pub fn values_held()
    ensures { Held }
{}

/// A line is read as just the request that it spells.
pub fn lines_are_spelled()
    ensures { IsReadAsSpelled }
{}
