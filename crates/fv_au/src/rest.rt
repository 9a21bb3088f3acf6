// Samples of a size that is not known, which go up to the file's end.

ghost use Rattle.std.specs.Prelude.{◌≡◌, ℕ, [], ◌≤◌, length, true, IfErr, IfOk, IsNone, OnOk};
ghost use Rattle.fv_base.specs.declared.limits.TheConstants.{MOST_CHANNELS};
ghost use Rattle.fv_base.specs.declared.role.Role.TheVariants.{Input};
ghost use Rattle.fv_pcm.specs.Words.{is_sample_width};
ghost use Rattle.fv_pcm.specs.declared.coding.Coding.TheVariants.{Au};
ghost use Rattle.fv_pcm.specs.Coded.{samples_in};
ghost use Rattle.fv_pcm.specs.headline.Sizes.{data_limit};
ghost use Rattle.fv_wav.specs.Stopping.{Passes};
ghost use Rattle.fv_au.specs.Reading.{whole_samples};
ghost use Rattle.fv_au.specs.Stopping.{RestStops};

use crate::head::AuHead;
use crate::refusal::AuRefusal;
use fv_base::limits::DATA_LIMIT;
use fv_outside::{Desk, Role, read_up_to};
use fv_pcm::{Coding, decoded};
use std::alloc::{AllocError, Global};

/// The place of a head's size.
const SIZE_PLACE: u64 = 8;

/// Reads the bytes that are left of the input, up to the file's end, if a head can state their number.
pub fn read_au_bytes<D: Desk>(alloc: Global, desk: &mut D) -> Result<Vec<u8>, AuRefusal>
    ensures ok { IfOk result (λ v. Passes (length v.items) ((v.items ≡ (D.state desk.old).left Input) × ((D.state desk.new).left Input ≡ []))
        (D.state desk.old) (D.state desk.new)) }
    ensures few { IfOk result (λ v. length v.items ≤ data_limit) }
    ensures err { IfErr result (RestStops (D.state desk.old) (D.state desk.new)) }
{
    let most = DATA_LIMIT as usize;
    let bytes = read_up_to(alloc, desk, Role::Input, most + 1)?;
    if bytes.len() > most {
        return Err(AuRefusal::AuFormat { place: SIZE_PLACE });
    }
    Ok(bytes)
}

/// Reads the samples of the whole frames that are left of the input, up to the file's end.
pub fn read_au_rest<D: Desk>(
    alloc: Global,
    desk: &mut D,
    head: &AuHead,
) -> Result<Vec<i32>, AuRefusal>
    requires unknown { IsNone head.now.data_bytes }
    requires some { 1 ≤ head.now.channels }
    requires few { head.now.channels ≤ MOST_CHANNELS }
    requires bits { is_sample_width head.now.bits ≡ true }
    ensures ok { IfOk result (λ v. (n : ℕ) × Passes n ((n ≡ length ((D.state desk.old).left Input)) × (n ≤ data_limit)
        × (v.items ≡ samples_in Au head.now.bits (whole_samples head.now n) ((D.state desk.old).left Input)))
        (D.state desk.old) (D.state desk.new)) }
    ensures err { IfErr result (RestStops (D.state desk.old) (D.state desk.new)) }
{
    let bytes = read_au_bytes(alloc, desk)?;
    let samples = whole_frames(alloc, head, &bytes)?;
    Ok(samples)
}

// The samples of the whole frames in these bytes.
fn whole_frames(alloc: Global, head: &AuHead, bytes: &[u8]) -> Result<Vec<i32>, AllocError>
    requires some { 1 ≤ head.now.channels }
    requires few { head.now.channels ≤ MOST_CHANNELS }
    requires bits { is_sample_width head.now.bits ≡ true }
    ensures { IfOk result (λ v. v.items ≡ samples_in Au head.now.bits (whole_samples head.now (length bytes.now)) bytes.now) }
{
    let size = (head.bits / 8) as usize;
    let channels = head.channels as usize;
    let count = bytes.len() / (channels * size) * channels;
    decoded(alloc, Coding::Au, head.bits, &bytes[..count * size], count)
}
