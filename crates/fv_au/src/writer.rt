// Writing an AU file.

ghost use Rattle.std.specs.Prelude.{◌≡◌, ◌+◌, ◌*◌, ◌/◌, ◌≤◌, List, ℕ, length, true, IfErr, IsOk, IsTrue, OnOk, OnErr, flat_map};
ghost use Rattle.fv_base.specs.declared.limits.TheConstants.{MOST_CHANNELS};
ghost use Rattle.byteorder.specs.Endian.{big_bytes};
ghost use Rattle.fv_base.specs.declared.role.Role.TheVariants.{Output};
ghost use Rattle.fv_base.specs.headline.Lists.{IsPrefixOf};
ghost use Rattle.fv_outside.specs.headline.Desk.{HasFault, KeepsFaults, IsUnfailing};
ghost use Rattle.fv_outside.specs.Desk.{Appends};
ghost use Rattle.fv_pcm.specs.Words.{is_sample_width};
ghost use Rattle.fv_pcm.specs.declared.coding.Coding.TheVariants.{Au};
ghost use Rattle.fv_pcm.specs.headline.Coded.{sample_bytes};
ghost use Rattle.fv_pcm.specs.headline.Sizes.{data_limit};
ghost use Rattle.fv_wav.specs.declared.refusal.WriteRefusal.TheVariants.{WriteFault};
ghost use Rattle.fv_au.specs.headline.Reading.{head_bytes};

use byteorder::{BigEndian, ByteOrder};
use fv_outside::{Desk, Role, write_all, write_pieces};
use fv_pcm::{Coding, encode};
use fv_wav::WriteRefusal;

/// Writes the 24 bytes that stand before `size` bytes of samples.
pub fn write_au_head<D: Desk>(
    desk: &mut D,
    channels: u32,
    rate: u32,
    bits: u32,
    data_bytes: u32,
) -> Result<(), WriteRefusal>
    requires some { 1 ≤ channels }
    requires few { channels ≤ MOST_CHANNELS }
    requires bits { is_sample_width bits ≡ true }
    requires size { data_bytes ≤ data_limit }
    ensures ok { OnOk result (Appends Output (head_bytes channels rate bits data_bytes) (D.state desk.old) (D.state desk.new)) }
    ensures err { OnErr result ((part : List ℕ) × IsPrefixOf part (head_bytes channels rate bits data_bytes)
        × Appends Output part (D.state desk.old) (D.state desk.new)) }
    ensures failed { IfErr result (λ e. (e ≡ WriteFault Output) × HasFault Output (D.state desk.old) (D.state desk.new)) }
    ensures steady { OnOk result (KeepsFaults (D.state desk.old) (D.state desk.new)) }
    ensures answers { IsTrue (D.state desk.old).tells → IsUnfailing Output (D.state desk.old) →
        length ((D.state desk.old).written Output) + length (head_bytes channels rate bits data_bytes) ≤ (D.state desk.old).room Output → IsOk result }
{
    let pieces = [
        b".snd".as_slice(),
        &four(24),
        &four(data_bytes),
        &four(bits / 8 + 1),
        &four(rate),
        &four(channels),
    ];
    write_pieces(desk, Role::Output, &pieces)?;
    Ok(())
}

// A number in four bytes, the highest first.
fn four(n: u32) -> [u8; 4]
    ensures { result ≡ big_bytes 4 n }
{
    let mut bytes = [0; 4];
    BigEndian::write_u32(&mut bytes, n);
    bytes
}

/// Writes the samples, each clamped to the width, through `bytes`.
pub fn write_au_frames<D: Desk>(
    desk: &mut D,
    bits: u32,
    samples: &[i32],
    bytes: &mut [u8],
) -> Result<(), WriteRefusal>
    requires bits { is_sample_width bits ≡ true }
    requires room { length samples.now * (bits / 8) ≤ length bytes.old }
    ensures ok { OnOk result (Appends Output (flat_map (sample_bytes Au bits) samples.now) (D.state desk.old) (D.state desk.new)) }
    ensures err { OnErr result ((part : List ℕ) × IsPrefixOf part (flat_map (sample_bytes Au bits) samples.now)
        × Appends Output part (D.state desk.old) (D.state desk.new)) }
    ensures failed { IfErr result (λ e. (e ≡ WriteFault Output) × HasFault Output (D.state desk.old) (D.state desk.new)) }
    ensures steady { OnOk result (KeepsFaults (D.state desk.old) (D.state desk.new)) }
    ensures answers { IsTrue (D.state desk.old).tells → IsUnfailing Output (D.state desk.old) →
        length ((D.state desk.old).written Output) + length (flat_map (sample_bytes Au bits) samples.now) ≤ (D.state desk.old).room Output → IsOk result }
{
    encode(Coding::Au, bits, samples, bytes);
    let n = samples.len() * (bits / 8) as usize;
    write_all(desk, Role::Output, &bytes[..n])?;
    Ok(())
}
