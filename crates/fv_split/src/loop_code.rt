// The code of each loop from its steps.

ghost use Rattle.std.specs.Prelude.{◌≡◌, ◌<◌, ◌≤◌, ℕ, length, IfOk};
ghost use Rattle.fv_loopcode.specs.Code.{AreValid};
ghost use Rattle.fv_split_code.specs.Emitted.{code_in};
ghost use Rattle.fv_split.specs.inner.Lists.{AreCoded};

use fv_loopcode::{Counts, Step};
use fv_loopcode_machine::Code;
use std::alloc::{AllocError, Global};

/// The code of valid steps.
pub(crate) fn code(alloc: Global, steps: &[Step], counts: Counts) -> Result<Code, AllocError>
    requires { AreValid counts steps.now }
    ensures { IfOk result (λ code. code ≡ steps.now) }
{
    match Code::new(alloc, steps, counts)? {
        Some(code) => Ok(code),
        None => unreachable!(),
    }
}

/// The code of each loop. The list of a loop's steps is let go once its code is made, so that its room serves the codes that
/// follow.
pub(crate) fn all_code(
    alloc: Global,
    codes: Vec<Vec<Step>>,
    counts: Counts,
) -> Result<Vec<Code>, AllocError>
    requires { (j : ℕ) → AreValid counts (code_in codes.items j) }
    ensures { IfOk result (λ all. AreCoded codes.items (length codes.items) all.items) }
{
    let mut all = Vec::with_capacity(alloc, codes.len())?;
    for steps in codes {
        all.push(code(alloc, &steps, counts)?)?;
    }
    Ok(all)
}
