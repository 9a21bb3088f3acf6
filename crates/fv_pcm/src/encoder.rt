// Samples into their bytes.

ghost use Rattle.std.specs.Prelude.{◌≡◌, ◌*◌, ◌/◌, ◌<◌, ◌≤◌, ◌++◌, length, take, drop, true, slice_index_or, flat_map, pos};
ghost use Rattle.fv_num.specs.headline.Words.{is_sample_width};
ghost use Rattle.fv_pcm.specs.declared.coding.Coding.TheVariants as coding_is;
ghost use Rattle.fv_pcm.specs.headline.Coded.{stored_of, low_bytes, sample_bytes};
ghost use Rattle.fv_pcm.specs.Sizes.{data_length_of};

use crate::coding::Coding;
use byteorder::{BigEndian, ByteOrder, LittleEndian};
use fv_base::limits::DATA_LIMIT;
use fv_num::clamp;

/// How many bytes the samples of `frames` frames have; `None` where they are more than a head can state.
pub fn data_length(channels: u32, bits: u32, frames: u32) -> Option<u32>
    requires { is_sample_width bits ≡ true }
    ensures { result ≡ data_length_of channels bits frames }
{
    let size = u128::from(frames) * (u128::from(channels) * u128::from(bits / 8));
    if size > u128::from(DATA_LIMIT) {
        return None;
    }
    Some(size as u32)
}

/// Puts the samples' bytes, each clamped to the width, into the front of `bytes`. The width is chosen once.
pub fn encode(coding: Coding, bits: u32, samples: &[i32], bytes: &mut [u8])
    requires bits { is_sample_width bits ≡ true }
    requires room { length samples.now * (bits / 8) ≤ length bytes.old }
    ensures { take (length samples.now * (bits / 8)) bytes.new ≡ flat_map (sample_bytes coding bits) samples.now }
{
    match bits {
        8 => encode_all(coding, 8, samples, bytes),
        16 => encode_all(coding, 16, samples, bytes),
        24 => encode_all(coding, 24, samples, bytes),
        _ => encode_all(coding, 32, samples, bytes),
    }
}

// Puts the samples' bytes, each clamped to the width, into the front of `bytes`. It is inlined, so that each width has a loop of
// its own.
#[inline(always)]
fn encode_all(coding: Coding, bits: u32, samples: &[i32], bytes: &mut [u8])
    requires bits { is_sample_width bits ≡ true }
    requires room { length samples.now * (bits / 8) ≤ length bytes.old }
    ensures { take (length samples.now * (bits / 8)) bytes.new ≡ flat_map (sample_bytes coding bits) samples.now }
{
    let size = (bits / 8) as usize;
    for i in 0..samples.len() {
        put_sample(coding, bits, number_at(samples, i), &mut bytes[i * size..]);
    }
}

// Number i of the samples.
#[inline(always)]
fn number_at(samples: &[i32], i: usize) -> i32
    requires { i < length samples.now }
    ensures { result ≡ slice_index_or samples.now i (pos 0) }
{
    samples[i]
}

// Puts a sample's bytes into the front of `to`.
#[inline(always)]
fn put_sample(coding: Coding, bits: u32, x: i32, to: &mut [u8])
    requires bits { is_sample_width bits ≡ true }
    requires room { bits / 8 ≤ length to.old }
    ensures { to.new ≡ sample_bytes coding bits x ++ drop (bits / 8) to.old }
{
    let stored = stored(coding, bits, x).cast_unsigned();
    let size = (bits / 8) as usize;
    match coding {
        Coding::Wave => put_lowest_first(size, stored, to),
        Coding::Au => put_highest_first(size, stored, to),
    }
}

// Puts the lowest bytes of a number into the front of `to`.
#[inline(always)]
fn put_lowest_first(size: usize, n: u32, to: &mut [u8])
    requires few { size ≤ 4 }
    requires room { size ≤ length to.old }
    ensures { to.new ≡ low_bytes coding_is.Wave size n ++ drop size to.old }
{
    let mut all = [0; 4];
    LittleEndian::write_u32(&mut all, n);
    to[..size].copy_from_slice(&all[..size]);
}

#[inline(always)]
fn put_highest_first(size: usize, n: u32, to: &mut [u8])
    requires few { size ≤ 4 }
    requires room { size ≤ length to.old }
    ensures { to.new ≡ low_bytes coding_is.Au size n ++ drop size to.old }
{
    let mut all = [0; 4];
    BigEndian::write_u32(&mut all, n);
    to[..size].copy_from_slice(&all[4 - size..]);
}

// The number that is stored for a sample.
#[inline(always)]
fn stored(coding: Coding, bits: u32, x: i32) -> i32
    requires { is_sample_width bits ≡ true }
    ensures { result ≡ stored_of coding bits x }
{
    let x = clamp(x, bits);
    match coding {
        Coding::Wave => if bits == 8 { x + 128 } else { x },
        Coding::Au => x,
    }
}
