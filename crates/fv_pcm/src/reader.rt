// Samples out of an input.

ghost use Rattle.std.specs.Prelude.{◌≡◌, ◌*◌, ◌/◌, ◌≤◌, length, true, IsTrue, IsOk, IfOk, OnErr};
ghost use Rattle.fv_base.specs.declared.role.Role.TheVariants.{Input};
ghost use Rattle.fv_num.specs.headline.Words.{is_sample_width};
ghost use Rattle.fv_outside.specs.headline.Desk.{HasFault, IsUnfailing};
ghost use Rattle.fv_outside.specs.Desk.{TakesSome};
ghost use Rattle.fv_pcm.specs.Reads.{HasRead};

use crate::coding::Coding;
use crate::decoder::decode;
use fv_outside::{Desk, Failed, Role, fill};

/// Fills `to` with the next samples of the input through `bytes`, which has just their length, and says how many bytes were taken:
/// fewer where the input ends before the last of them.
pub fn read_samples<D: Desk>(
    desk: &mut D,
    coding: Coding,
    bits: u32,
    bytes: &mut [u8],
    to: &mut [i32],
) -> Result<usize, Failed>
    requires bits { is_sample_width bits ≡ true }
    requires room { length bytes.old ≡ length to.old * (bits / 8) }
    ensures few { IfOk result (λ n. n ≤ length to.new * (bits / 8)) }
    ensures read { IfOk result (λ n. HasRead coding bits n to.new (D.state desk.old) (D.state desk.new)) }
    ensures err { OnErr result (TakesSome Input (D.state desk.old) (D.state desk.new)) }
    ensures failed { OnErr result (HasFault Input (D.state desk.old) (D.state desk.new)) }
    ensures answers { IsTrue (D.state desk.old).tells → IsUnfailing Input (D.state desk.old) → IsOk result }
{
    let n = fill(desk, Role::Input, bytes)?;
    if n < bytes.len() {
        return Ok(n);
    }
    decode(coding, bits, bytes, to);
    Ok(n)
}
