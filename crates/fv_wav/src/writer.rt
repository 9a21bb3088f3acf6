// Writing a WAV file.

ghost use Rattle.std.specs.Prelude.{◌≡◌, ◌+◌, ◌*◌, ◌/◌, ◌≤◌, List, ℕ, length, true, IfErr, IsOk, IsTrue, OnOk, OnErr, flat_map};
ghost use Rattle.fv_base.specs.declared.limits.TheConstants.{MOST_CHANNELS};
ghost use Rattle.byteorder.specs.Endian.{little_bytes};
ghost use Rattle.fv_base.specs.declared.role.Role.TheVariants.{Output};
ghost use Rattle.fv_base.specs.headline.Lists.{IsPrefixOf};
ghost use Rattle.fv_outside.specs.headline.Desk.{HasFault, KeepsFaults, IsUnfailing};
ghost use Rattle.fv_outside.specs.Desk.{Appends};
ghost use Rattle.fv_pcm.specs.Words.{is_sample_width};
ghost use Rattle.fv_wav.specs.declared.refusal.WriteRefusal.TheVariants.{WriteFault};
ghost use Rattle.fv_wav.specs.headline.Samples.{head_bytes, pad_bytes, data_limit};
ghost use Rattle.fv_wav.specs.Samples.{sample_bytes};

use crate::refusal::WriteRefusal;
use byteorder::{ByteOrder, LittleEndian};
use fv_outside::{Desk, Role, write_all, write_pieces};
use fv_pcm::{Coding, encode};

/// Writes the 44 bytes that stand before `size` bytes of samples.
pub fn write_head<D: Desk>(
    desk: &mut D,
    channels: u32,
    rate: u32,
    bits: u32,
    data_bytes: u32,
) -> Result<(), WriteRefusal>
    requires some { 1 ≤ channels }
    requires few { channels ≤ MOST_CHANNELS }
    requires bits { is_sample_width bits ≡ true }
    requires size { data_bytes ≤ data_limit }
    ensures ok { OnOk result (Appends Output (head_bytes channels rate bits data_bytes) (D.state desk.old) (D.state desk.new)) }
    ensures err { OnErr result ((part : List ℕ) × IsPrefixOf part (head_bytes channels rate bits data_bytes)
        × Appends Output part (D.state desk.old) (D.state desk.new)) }
    ensures failed { IfErr result (λ e. (e ≡ WriteFault Output) × HasFault Output (D.state desk.old) (D.state desk.new)) }
    ensures steady { OnOk result (KeepsFaults (D.state desk.old) (D.state desk.new)) }
    ensures answers { IsTrue (D.state desk.old).tells → IsUnfailing Output (D.state desk.old) →
        length ((D.state desk.old).written Output) + length (head_bytes channels rate bits data_bytes) ≤ (D.state desk.old).room Output → IsOk result }
{
    let align = channels * (bits / 8);
    let pieces = [
        b"RIFF".as_slice(),
        &four(36 + data_bytes + data_bytes % 2),
        b"WAVEfmt \x10\0\0\0\x01\0".as_slice(),
        &two(channels as u16),
        &four(rate),
        &four(rate.wrapping_mul(align)),
        &two(align as u16),
        &two(bits as u16),
        b"data".as_slice(),
        &four(data_bytes),
    ];
    write_pieces(desk, Role::Output, &pieces)?;
    Ok(())
}

// A number in two bytes, and in four, the lowest first.
fn two(n: u16) -> [u8; 2]
    ensures { result ≡ little_bytes 2 n }
{
    let mut bytes = [0; 2];
    LittleEndian::write_u16(&mut bytes, n);
    bytes
}

fn four(n: u32) -> [u8; 4]
    ensures { result ≡ little_bytes 4 n }
{
    let mut bytes = [0; 4];
    LittleEndian::write_u32(&mut bytes, n);
    bytes
}

/// Writes the samples, each clamped to the width, through `bytes`.
pub fn write_frames<D: Desk>(
    desk: &mut D,
    bits: u32,
    samples: &[i32],
    bytes: &mut [u8],
) -> Result<(), WriteRefusal>
    requires bits { is_sample_width bits ≡ true }
    requires room { length samples.now * (bits / 8) ≤ length bytes.old }
    ensures ok { OnOk result (Appends Output (flat_map (sample_bytes bits) samples.now) (D.state desk.old) (D.state desk.new)) }
    ensures err { OnErr result ((part : List ℕ) × IsPrefixOf part (flat_map (sample_bytes bits) samples.now)
        × Appends Output part (D.state desk.old) (D.state desk.new)) }
    ensures failed { IfErr result (λ e. (e ≡ WriteFault Output) × HasFault Output (D.state desk.old) (D.state desk.new)) }
    ensures steady { OnOk result (KeepsFaults (D.state desk.old) (D.state desk.new)) }
    ensures answers { IsTrue (D.state desk.old).tells → IsUnfailing Output (D.state desk.old) →
        length ((D.state desk.old).written Output) + length (flat_map (sample_bytes bits) samples.now) ≤ (D.state desk.old).room Output → IsOk result }
{
    encode(Coding::Wave, bits, samples, bytes);
    let n = samples.len() * (bits / 8) as usize;
    write_all(desk, Role::Output, &bytes[..n])?;
    Ok(())
}

/// Writes one zero byte where the number of bytes of samples is odd.
pub fn write_pad<D: Desk>(desk: &mut D, data_bytes: u32) -> Result<(), WriteRefusal>
    ensures ok { OnOk result (Appends Output (pad_bytes data_bytes) (D.state desk.old) (D.state desk.new)) }
    ensures err { OnErr result ((part : List ℕ) × IsPrefixOf part (pad_bytes data_bytes) × Appends Output part (D.state desk.old) (D.state desk.new)) }
    ensures failed { IfErr result (λ e. (e ≡ WriteFault Output) × HasFault Output (D.state desk.old) (D.state desk.new)) }
    ensures steady { OnOk result (KeepsFaults (D.state desk.old) (D.state desk.new)) }
    ensures answers { IsTrue (D.state desk.old).tells → IsUnfailing Output (D.state desk.old) →
        length ((D.state desk.old).written Output) + length (pad_bytes data_bytes) ≤ (D.state desk.old).room Output → IsOk result }
{
    let zero = [0u8];
    write_all(desk, Role::Output, &zero[..(data_bytes % 2) as usize])?;
    Ok(())
}
