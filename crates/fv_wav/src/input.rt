// The next bytes of the input. A place is how many bytes of the file are before them.

ghost use Rattle.std.specs.Prelude.{◌≡◌, ◌+◌, ◌^◌, ◌<◌, length, Ok, Err, IfOk, IfErr};
ghost use Rattle.fv_base.specs.declared.role.Role.TheVariants.{Input};
ghost use Rattle.fv_wav.specs.headline.Reading.{rest_of, past, next, number};
ghost use Rattle.fv_wav.specs.Stopping.{Passes, Stops};

use crate::refusal::WaveRefusal;
use byteorder::{ByteOrder, LittleEndian};
use fv_outside::{Desk, Role, fill, skip};

/// Fills `to` with the next bytes.
#[tactic(auto, unfolding(crate::specs::headline::Reading::next, crate::specs::headline::Reading::past))]
pub fn take_all<D: Desk>(desk: &mut D, place: u64, to: &mut [u8]) -> Result<(), WaveRefusal>
    requires { place + length to.old < 2 ^ 64 }
    ensures ok { IfOk result (λ _. Passes (length to.new)
        (next (length to.new) (rest_of place ((D.state desk.old).left Input)) ≡ Ok (to.new, rest_of (place + length to.new) ((D.state desk.new).left Input)))
        (D.state desk.old) (D.state desk.new)) }
    ensures err { IfErr result
        (λ e. Stops (next (length to.new) (rest_of place ((D.state desk.old).left Input)) ≡ Err e) (D.state desk.old) (D.state desk.new) e) }
{
    let n = fill(desk, Role::Input, to)?;
    if n < to.len() {
        return Err(WaveRefusal::WaveTruncated {
            place: place + n as u64,
        });
    }
    Ok(())
}

/// Passes over the next `count` bytes.
#[tactic(auto, unfolding(crate::specs::headline::Reading::past))]
pub fn pass<D: Desk>(desk: &mut D, place: u64, count: u64) -> Result<(), WaveRefusal>
    requires { place + count < 2 ^ 64 }
    ensures ok { IfOk result (λ _. Passes count
        (past count (rest_of place ((D.state desk.old).left Input)) ≡ Ok (rest_of (place + count) ((D.state desk.new).left Input)))
        (D.state desk.old) (D.state desk.new)) }
    ensures err { IfErr result (λ e. Stops (past count (rest_of place ((D.state desk.old).left Input)) ≡ Err e) (D.state desk.old) (D.state desk.new) e) }
{
    let n = skip(desk, Role::Input, count)?;
    if n < count {
        return Err(WaveRefusal::WaveTruncated { place: place + n });
    }
    Ok(())
}

/// Reads the number in the next two bytes.
#[tactic(auto, unfolding(crate::specs::headline::Reading::number, crate::specs::headline::Reading::next, crate::specs::headline::Reading::past))]
pub fn read_u16<D: Desk>(desk: &mut D, place: u64) -> Result<u16, WaveRefusal>
    requires { place + 2 < 2 ^ 64 }
    ensures ok { IfOk result (λ n. Passes 2
        (number 2 (rest_of place ((D.state desk.old).left Input)) ≡ Ok (n, rest_of (place + 2) ((D.state desk.new).left Input)))
        (D.state desk.old) (D.state desk.new)) }
    ensures err { IfErr result (λ e. Stops (number 2 (rest_of place ((D.state desk.old).left Input)) ≡ Err e) (D.state desk.old) (D.state desk.new) e) }
{
    let mut bytes = [0u8; 2];
    take_all(desk, place, &mut bytes)?;
    Ok(LittleEndian::read_u16(&bytes))
}

/// Reads the number in the next four bytes.
#[tactic(auto, unfolding(crate::specs::headline::Reading::number, crate::specs::headline::Reading::next, crate::specs::headline::Reading::past))]
pub fn read_u32<D: Desk>(desk: &mut D, place: u64) -> Result<u32, WaveRefusal>
    requires { place + 4 < 2 ^ 64 }
    ensures ok { IfOk result (λ n. Passes 4
        (number 4 (rest_of place ((D.state desk.old).left Input)) ≡ Ok (n, rest_of (place + 4) ((D.state desk.new).left Input)))
        (D.state desk.old) (D.state desk.new)) }
    ensures err { IfErr result (λ e. Stops (number 4 (rest_of place ((D.state desk.old).left Input)) ≡ Err e) (D.state desk.old) (D.state desk.new) e) }
{
    let mut bytes = [0u8; 4];
    take_all(desk, place, &mut bytes)?;
    Ok(LittleEndian::read_u32(&bytes))
}
