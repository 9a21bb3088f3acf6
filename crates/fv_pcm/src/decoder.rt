// Samples out of their bytes.

ghost use Rattle.std.specs.Prelude.{◌≡◌, ◌*◌, ◌/◌, ◌≤◌, length, true, IfOk};
ghost use Rattle.fv_num.specs.headline.Words.{is_sample_width};
ghost use Rattle.fv_pcm.specs.declared.coding.Coding.TheVariants as coding_is;
ghost use Rattle.fv_pcm.specs.headline.Coded.{sample_of};
ghost use Rattle.fv_pcm.specs.Coded.{samples_in};

use crate::coding::Coding;
use byteorder::{BigEndian, ByteOrder, LittleEndian};
use std::alloc::{AllocError, Global};

/// Fills `to` with the samples in the bytes, which have bits / 8 for each place of `to`.
pub fn decode(coding: Coding, bits: u32, bytes: &[u8], to: &mut [i32])
    requires bits { is_sample_width bits ≡ true }
    requires room { length bytes.now ≡ length to.old * (bits / 8) }
    ensures { to.new ≡ samples_in coding bits (length to.new) bytes.now }
{
    let size = (bits / 8) as usize;
    for i in 0..to.len() {
        to[i] = sample(coding, bits, &bytes[i * size..]);
    }
}

/// The first `count` samples of the bytes.
pub fn decoded(
    alloc: Global,
    coding: Coding,
    bits: u32,
    bytes: &[u8],
    count: usize,
) -> Result<Vec<i32>, AllocError>
    requires bits { is_sample_width bits ≡ true }
    requires room { length bytes.now ≡ count * (bits / 8) }
    ensures { IfOk result (λ v. v.items ≡ samples_in coding bits count bytes.now) }
{
    let mut samples = vec![in alloc; 0i32; count]?;
    decode(coding, bits, bytes, &mut samples);
    Ok(samples)
}

// The sample in the first bytes.
fn sample(coding: Coding, bits: u32, bytes: &[u8]) -> i32
    requires bits { is_sample_width bits ≡ true }
    requires room { bits / 8 ≤ length bytes.now }
    ensures { result ≡ sample_of coding bits bytes.now }
{
    match coding {
        Coding::Wave => wave_sample(bits, bytes),
        Coding::Au => au_sample(bits, bytes),
    }
}

fn wave_sample(bits: u32, bytes: &[u8]) -> i32
    requires bits { is_sample_width bits ≡ true }
    requires room { bits / 8 ≤ length bytes.now }
    ensures { result ≡ sample_of coding_is.Wave bits bytes.now }
{
    match bits {
        8 => i32::from(bytes[0]) - 128,
        16 => i32::from(LittleEndian::read_i16(bytes)),
        24 => LittleEndian::read_i24(bytes),
        _ => LittleEndian::read_i32(bytes),
    }
}

fn au_sample(bits: u32, bytes: &[u8]) -> i32
    requires bits { is_sample_width bits ≡ true }
    requires room { bits / 8 ≤ length bytes.now }
    ensures { result ≡ sample_of coding_is.Au bits bytes.now }
{
    match bits {
        8 => i32::from(bytes[0].cast_signed()),
        16 => i32::from(BigEndian::read_i16(bytes)),
        24 => BigEndian::read_i24(bytes),
        _ => BigEndian::read_i32(bytes),
    }
}
