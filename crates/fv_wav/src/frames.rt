// Reading frames.

ghost use Rattle.std.specs.Prelude.{◌≡◌, ◌+◌, ◌-◌, ◌*◌, ◌/◌, ◌%◌, ◌^◌, ◌<◌, ◌≤◌, length, true, IfErr, OnOk};
ghost use Rattle.fv_base.specs.declared.limits.TheConstants.{MOST_CHANNELS};
ghost use Rattle.fv_base.specs.declared.role.Role.TheVariants.{Input};
ghost use Rattle.fv_pcm.specs.Words.{is_sample_width};
ghost use Rattle.fv_wav.specs.declared.refusal.WaveRefusal.TheVariants.{WaveTruncated};
ghost use Rattle.fv_wav.specs.Stopping.{Passes, Stops};
ghost use Rattle.fv_wav.specs.Samples.{samples_in, whole_bytes};

use crate::head::Head;
use crate::refusal::WaveRefusal;
use fv_outside::Desk;
use fv_pcm::{Coding, read_samples};

/// Fills `to` with the next whole frames of the input, through `bytes`. A place is how many bytes of the file were taken.
pub fn read_frames<D: Desk>(
    desk: &mut D,
    head: &Head,
    place: u64,
    bytes: &mut [u8],
    to: &mut [i32],
) -> Result<(), WaveRefusal>
    requires some { 1 ≤ head.now.channels }
    requires few { head.now.channels ≤ MOST_CHANNELS }
    requires bits { is_sample_width head.now.bits ≡ true }
    requires low { head.now.place ≤ place }
    requires high { place < 2 ^ 63 }
    requires frames { length to.old % head.now.channels ≡ 0 }
    requires within { (place - head.now.place) + length to.old * (head.now.bits / 8) ≤ whole_bytes head.now }
    requires room { length to.old * (head.now.bits / 8) ≤ length bytes.old }
    ensures ok { OnOk result (Passes (length to.new * (head.now.bits / 8))
        (to.new ≡ samples_in head.now.bits (length to.new) ((D.state desk.old).left Input)) (D.state desk.old) (D.state desk.new)) }
    ensures err { IfErr result (λ e. Stops ((length ((D.state desk.old).left Input) < length to.new * (head.now.bits / 8))
        × (e ≡ WaveTruncated (place + length ((D.state desk.old).left Input)))) (D.state desk.old) (D.state desk.new) e) }
{
    let count = to.len() * (head.bits / 8) as usize;
    let n = read_samples(desk, Coding::Wave, head.bits, &mut bytes[..count], to)?;
    if n < count {
        return Err(WaveRefusal::WaveTruncated {
            place: place + n as u64,
        });
    }
    Ok(())
}

/// Fills `to` with the samples in the bytes, which have bits / 8 for each place of `to`.
pub fn decode(bits: u32, bytes: &[u8], to: &mut [i32])
    requires bits { is_sample_width bits ≡ true }
    requires room { length bytes.now ≡ length to.old * (bits / 8) }
    ensures { to.new ≡ samples_in bits (length to.new) bytes.now }
{
    fv_pcm::decode(Coding::Wave, bits, bytes, to);
}
