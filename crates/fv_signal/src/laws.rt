// The laws of a graph's values and rates.

ghost use Rattle.fv_signal.specs.headline.Value.{Graph};
ghost use Rattle.fv_signal.specs.Value.{ValuesAreGiven, DelaysAreClamped, SolutionsAreValues, SolutionsAreValuesOn, ValuesLookBack, GrowthKeepsValues};
ghost use Rattle.fv_signal.specs.Rates.{ConstantsStay, ControlsDecide};

/// The value of each signal is what its node gives.
pub fn values_are_given()
    ensures { (g : Graph) → ValuesAreGiven g }
{}

/// A delay goes back as its number says, or to the end of its range beyond which that lies.
pub fn delays_are_clamped()
    ensures { DelaysAreClamped }
{}

/// There are no other streams that the nodes give.
pub fn solutions_are_values()
    ensures { (g : Graph) → SolutionsAreValues g }
{}

/// So it is with signals that read nothing but one another, whatever the others are.
pub fn solutions_are_values_on()
    ensures { (g : Graph) → SolutionsAreValuesOn g }
{}

/// A constant has one value.
pub fn constants_stay()
    ensures { (g : Graph) → ConstantsStay g }
{}

/// A signal slower than the samples is the same wherever the controls are.
pub fn controls_decide()
    ensures { (g : Graph) → ControlsDecide g }
{}

/// A value at a time depends on no later frame and no later control.
pub fn values_look_back()
    ensures { (g : Graph) → ValuesLookBack g }
{}

/// Where a graph grows, its signals keep their values.
pub fn growth_keeps_values()
    ensures { (g h : Graph) → GrowthKeepsValues g h }
{}
