// The samples of an input and of an output.

ghost use Rattle.std.specs.Prelude.{◌≡◌, ◌+◌, ◌*◌, ◌/◌, ◌^◌, ◌<◌, ◌≤◌, List, ℕ, length, drop, true, flat_map, IsTrue, IsOk, IfErr, OnOk, OnErr};
ghost use Rattle.fv_base.specs.declared.limits.TheConstants.{MOST_CHANNELS};
ghost use Rattle.fv_base.specs.declared.role.Role.TheVariants.{Input, Output};
ghost use Rattle.fv_base.specs.headline.Lists.{IsPrefixOf};
ghost use Rattle.fv_pcm.specs.Words.{is_sample_width};
ghost use Rattle.fv_outside.specs.headline.Desk.{HasFault, KeepsFaults, IsUnfailing};
ghost use Rattle.fv_outside.specs.Desk.{Appends};
ghost use Rattle.fv_pcm.specs.headline.Coded.{sample_bytes};
ghost use Rattle.fv_pcm.specs.Coded.{samples_in};
ghost use Rattle.fv_pcm.specs.headline.Sizes.{data_limit, frame_size};
ghost use Rattle.fv_wav.specs.Stopping.{Passes};
ghost use Rattle.fv_file_tape.specs.Tapes.{IsInput, head_of};
ghost use Rattle.fv_file_tape.specs.inner.Tapes.{Misses};

use crate::file_tape::{OutputHead, Stop};
use crate::incoming::Incoming;
use fv_au::{write_au_frames, write_au_head};
use fv_outside::Desk;
use fv_pcm::{Coding, decode, frame_size};
use fv_wav::{WriteRefusal, write_frames, write_head};

/// Fills `to` with the samples that follow the first `frames` frames of these bytes.
pub(crate) fn decode_behind(input: &Incoming, frames: u32, bytes: &[u8], to: &mut [i32])
    requires input { IsInput input.now }
    requires there { frames * frame_size input.now.channels input.now.bits + length to.old * (input.now.bits / 8) ≤ length bytes.now }
    ensures { to.new ≡ samples_in input.now.coding input.now.bits (length to.new) (drop (frames * frame_size input.now.channels input.now.bits) bytes.now) }
{
    let start = frames as usize * frame_size(input.channels, input.bits) as usize;
    let end = start + to.len() * (input.bits / 8) as usize;
    decode(input.coding, input.bits, &bytes[start..end], to);
}

/// Fills `to` with the next samples of the input, through `bytes`, which has just their length. `place` is how many bytes of the
/// file were taken before.
pub(crate) fn read_samples<D: Desk>(
    desk: &mut D,
    coding: Coding,
    bits: u32,
    place: u64,
    bytes: &mut [u8],
    to: &mut [i32],
) -> Result<(), Stop>
    requires bits { is_sample_width bits ≡ true }
    requires high { place < 2 ^ 63 }
    requires room { length bytes.old ≡ length to.old * (bits / 8) }
    ensures ok { OnOk result (Passes (length to.new * (bits / 8))
        (to.new ≡ samples_in coding bits (length to.new) ((D.state desk.old).left Input)) (D.state desk.old) (D.state desk.new)) }
    ensures err { IfErr result (Misses (length to.new * (bits / 8)) place (D.state desk.old) (D.state desk.new)) }
{
    let n = match fv_pcm::read_samples(desk, coding, bits, bytes, to) {
        Ok(n) => n,
        Err(_) => return Err(Stop::Read),
    };
    if n < bytes.len() {
        return Err(Stop::End {
            place: place + n as u64,
        });
    }
    Ok(())
}

/// Writes the head of an output.
pub(crate) fn write_output_head<D: Desk>(
    desk: &mut D,
    head: &OutputHead,
) -> Result<(), WriteRefusal>
    requires some { 1 ≤ head.now.channels }
    requires few { head.now.channels ≤ MOST_CHANNELS }
    requires bits { is_sample_width head.now.bits ≡ true }
    requires size { head.now.size ≤ data_limit }
    ensures ok { OnOk result (Appends Output (head_of head.now) (D.state desk.old) (D.state desk.new)) }
    ensures err { OnErr result ((part : List ℕ) × IsPrefixOf part (head_of head.now) × Appends Output part (D.state desk.old) (D.state desk.new)) }
    ensures failed { OnErr result (HasFault Output (D.state desk.old) (D.state desk.new)) }
    ensures steady { OnOk result (KeepsFaults (D.state desk.old) (D.state desk.new)) }
    ensures answers { IsTrue (D.state desk.old).tells → IsUnfailing Output (D.state desk.old) →
        length ((D.state desk.old).written Output) + length (head_of head.now) ≤ (D.state desk.old).room Output → IsOk result }
{
    match head.coding {
        Coding::Wave => write_head(desk, head.channels, head.rate, head.bits, head.size),
        Coding::Au => write_au_head(desk, head.channels, head.rate, head.bits, head.size),
    }
}

/// Writes samples, each clamped to the width, through `bytes`.
pub(crate) fn write_samples<D: Desk>(
    desk: &mut D,
    coding: Coding,
    bits: u32,
    samples: &[i32],
    bytes: &mut [u8],
) -> Result<(), WriteRefusal>
    requires bits { is_sample_width bits ≡ true }
    requires room { length samples.now * (bits / 8) ≤ length bytes.old }
    ensures ok { OnOk result (Appends Output (flat_map (sample_bytes coding bits) samples.now) (D.state desk.old) (D.state desk.new)) }
    ensures err { OnErr result ((part : List ℕ) × IsPrefixOf part (flat_map (sample_bytes coding bits) samples.now)
        × Appends Output part (D.state desk.old) (D.state desk.new)) }
    ensures failed { OnErr result (HasFault Output (D.state desk.old) (D.state desk.new)) }
    ensures steady { OnOk result (KeepsFaults (D.state desk.old) (D.state desk.new)) }
    ensures answers { IsTrue (D.state desk.old).tells → IsUnfailing Output (D.state desk.old) → length ((D.state desk.old).written Output)
        + length (flat_map (sample_bytes coding bits) samples.now) ≤ (D.state desk.old).room Output → IsOk result }
{
    match coding {
        Coding::Wave => write_frames(desk, bits, samples, bytes),
        Coding::Au => write_au_frames(desk, bits, samples, bytes),
    }
}
