// What a table's head is, and what fixed diagrams are.

ghost use Rattle.fv_diagram_numbers.specs.HeadLaws.{CutsAreFewest, FixedDependsOnNothing};

/// `cut` takes the fewest first parts that have the wanted outputs together, and all parts where they have fewer.
pub fn cuts_are_fewest()
    ensures { CutsAreFewest }
{}

/// A diagram is fixed exactly where it has no inputs, no free slot, no control and no table primitive.
pub fn fixed_depends_on_nothing()
    ensures { FixedDependsOnNothing }
{}
