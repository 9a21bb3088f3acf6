// The numbers of the controls and of the input.

ghost use Rattle.std.specs.Prelude.{◌≡◌, All, FitsSigned, IfOk};
ghost use Rattle.std.specs.Int.{w32};
ghost use Rattle.fv_num.specs.SpanLaws.{AreSpans};
ghost use Rattle.fv_diagram.specs.Controls.{IsBounded};
ghost use Rattle.fv_engine_render.specs.inner.Plans.{AreNumbers};
ghost use Rattle.fv_interval.specs.headline.Controls.{spans_of};
ghost use Rattle.fv_engine_render.specs.headline.Render.{initial_of};

use fv_diagram::ControlInfo;
use std::alloc::{AllocError, Global};

/// The numbers with which the controls begin.
pub fn initial_of(alloc: Global, controls: &[ControlInfo]) -> Result<Vec<i32>, AllocError>
    ensures { IfOk result (λ v. v.items ≡ initial_of controls.now) }
{
    controls.iter().map(|c| c.init).collect(alloc)
}

// For the prover: the bounds have 32 bits.
fn bounds_fit(control: &ControlInfo)
    ensures least { FitsSigned w32 control.now.min }
    ensures greatest { FitsSigned w32 control.now.max }
{
    let _least = control.min;
    let _greatest = control.max;
}

/// For the prover: the controls' bounds are spans.
pub(crate) fn spans_fit(controls: &[ControlInfo])
    requires { All IsBounded controls.now }
    ensures { AreSpans (spans_of controls.now) }
{
    for control in controls {
        bounds_fit(control);
    }
}

// For the prover: the number has 32 bits.
fn number_fits(number: &i32)
    ensures { FitsSigned w32 number.now }
{
    let _number = *number;
}

/// For the prover: the numbers have 32 bits.
pub(crate) fn numbers_fit(numbers: &[i32])
    ensures { AreNumbers numbers.now }
{
    for number in numbers {
        number_fits(number);
    }
}
