// What holds of the lists, whichever block it is.

ghost use Rattle.fv_engine_crew.specs.Opening.{DealtRoomsEnter};

/// Where a block begins, its loops enter with the lists that their lanes are dealt to.
pub fn dealt_rooms_enter()
    ensures { DealtRoomsEnter }
{}
