// The spans of a program's controls.

ghost use Rattle.std.specs.Prelude.{◌≡◌, All, IfOk};
ghost use Rattle.fv_diagram.specs.Controls.{IsBounded};
ghost use Rattle.fv_interval.specs.headline.Controls.{spans_of};

use fv_diagram::ControlInfo;
use fv_num::Span;
use std::alloc::{AllocError, Global};

/// The numbers that the controls may have.
pub fn spans_of(alloc: Global, controls: &[ControlInfo]) -> Result<Vec<Span>, AllocError>
    requires { All IsBounded controls.now }
    ensures { IfOk result (λ v. v.items ≡ spans_of controls.now) }
{
    let mut all = Vec::new(alloc);
    for i in 0..controls.len() {
        all.push(Span {
            lo: controls[i].min,
            hi: controls[i].max,
        })?;
    }
    Ok(all)
}
