// The scratch that loops' codes work in, kept from block to block.

ghost use Rattle.std.specs.Prelude.{◌≡◌, ◌*◌, IfOk};
ghost use Rattle.fv_loopcode_machine.specs.Scratches.{IsNew};

use crate::Writers;
use fv_loopcode_machine::Scratch;
use std::alloc::{AllocError, Global};
use std::mem::replace;

// The product of two counts; where a `u64` cannot hold it, that is want of memory.
pub(crate) fn times(a: u64, b: u64) -> Result<u64, AllocError>
    ensures { IfOk result (λ n. n ≡ a * b) }
{
    match a.checked_mul(b) {
        Some(n) => Ok(n),
        None => Err(AllocError),
    }
}

// Scratch for `steps` steps: the last that was kept, if it is for as many, or else new. It is not settled, since the held values
// may be others now.
pub(crate) fn scratch_for(
    alloc: Global,
    kept: &mut Vec<Scratch>,
    steps: u64,
) -> Result<Scratch, AllocError>
    ensures { IfOk result (λ s. IsNew steps s) }
{
    let numbers = times(steps, 128)?;
    let Some(mut scratch) = kept.pop() else {
        return Scratch::new(alloc, steps);
    };
    if scratch.regs.len() as u64 != steps || scratch.rows.len() as u64 != numbers {
        return Scratch::new(alloc, steps);
    }
    scratch.settled = false;
    scratch.last = 0;
    Ok(scratch)
}

// Keeps the scratch of all loops for the next block, that of the first loop last, so that it is the first to be taken. Where there is no
// room to keep some, the next block makes it anew.
pub(crate) fn keep<'a, 'b>(
    alloc: Global,
    mut writers: Vec<Box<Writers<'a, 'b>>>,
    kept: &mut Vec<Scratch>,
) {
    kept.clear();
    while let Some(mut one) = writers.pop() {
        let _ = kept.push(replace(&mut one.scratch, Scratch::empty(alloc)));
    }
}
