// Reading frames.

ghost use Rattle.std.specs.Prelude.{◌≡◌, ◌+◌, ◌-◌, ◌*◌, ◌/◌, ◌%◌, ◌^◌, ◌<◌, ◌≤◌, length, true, IfErr, IsSome, OnOk};
ghost use Rattle.fv_base.specs.declared.limits.TheConstants.{MOST_CHANNELS};
ghost use Rattle.fv_base.specs.declared.role.Role.TheVariants.{Input};
ghost use Rattle.fv_pcm.specs.Words.{is_sample_width};
ghost use Rattle.fv_pcm.specs.declared.coding.Coding.TheVariants.{Au};
ghost use Rattle.fv_pcm.specs.Coded.{samples_in};
ghost use Rattle.fv_wav.specs.Stopping.{Passes};
ghost use Rattle.fv_au.specs.declared.refusal.AuRefusal.TheVariants.{AuTruncated};
ghost use Rattle.fv_au.specs.Reading.{stated_bytes};
ghost use Rattle.fv_au.specs.Stopping.{AuStops};

use crate::head::AuHead;
use crate::refusal::AuRefusal;
use fv_outside::Desk;
use fv_pcm::{Coding, read_samples};

/// Fills `to` with the next whole frames of the input, through `bytes`. A place is how many bytes of the file were taken.
pub fn read_au_frames<D: Desk>(
    desk: &mut D,
    head: &AuHead,
    place: u64,
    bytes: &mut [u8],
    to: &mut [i32],
) -> Result<(), AuRefusal>
    requires known { IsSome head.now.data_bytes }
    requires some { 1 ≤ head.now.channels }
    requires few { head.now.channels ≤ MOST_CHANNELS }
    requires bits { is_sample_width head.now.bits ≡ true }
    requires low { head.now.offset ≤ place }
    requires high { place < 2 ^ 63 }
    requires frames { length to.old % head.now.channels ≡ 0 }
    requires within { (place - head.now.offset) + length to.old * (head.now.bits / 8) ≤ stated_bytes head.now }
    requires room { length to.old * (head.now.bits / 8) ≤ length bytes.old }
    ensures ok { OnOk result (Passes (length to.new * (head.now.bits / 8))
        (to.new ≡ samples_in Au head.now.bits (length to.new) ((D.state desk.old).left Input)) (D.state desk.old) (D.state desk.new)) }
    ensures err { IfErr result (λ e. AuStops ((length ((D.state desk.old).left Input) < length to.new * (head.now.bits / 8))
        × (e ≡ AuTruncated (place + length ((D.state desk.old).left Input)))) (D.state desk.old) (D.state desk.new) e) }
{
    let count = to.len() * (head.bits / 8) as usize;
    let n = read_samples(desk, Coding::Au, head.bits, &mut bytes[..count], to)?;
    if n < count {
        return Err(AuRefusal::AuTruncated {
            place: place + n as u64,
        });
    }
    Ok(())
}
