//! What `make` runs: the text of a program of N voices, its noise, and the sum of its output. Promises that the text of 1 to 64 voices
//! is a program (`voices_are_a_program`), and the exact sum.
#![tactic(auto)]

ghost use Rattle.std.specs.Prelude.{◌≡◌, pos, ◌+ℤ◌, ◌*ℤ◌, IfOk};
ghost use Rattle.fv_num.specs.headline.Words.{wrap};
ghost use Rattle.fv_top_make.specs.headline.Made.{next_state, text_of};
ghost use Rattle.fv_top_make.specs.Made.{SumsAddUp};

mod noise_tape;
mod voices;

use fv_num::{Op, apply};
use itoa::Buffer;
pub use noise_tape::{Noise, NoiseTape};
use std::alloc::{AllocError, Global};
pub use voices::voices_are_a_program;

/// The text of a program of `voices` voices: two lines.
pub fn text_of(alloc: Global, voices: u32) -> Result<Vec<u8>, AllocError>
    ensures { IfOk result (λ v. v.items ≡ text_of voices) }
{
    let mut buffer = Buffer::new();
    let mut text = Vec::from_slice(alloc, b"v(i) = + ~ (@(i*37+1) : *(i+3) : /(8));\n")?;
    text.extend_from_slice(b"process = _ <: par(i,")?;
    text.extend_from_slice(buffer.format(voices).as_bytes())?;
    text.extend_from_slice(b",v(i)) :> _;\n")?;
    Ok(text)
}

// The state of the noise after this one.
pub(crate) fn next_state(state: i32) -> i32
    ensures { result ≡ next_state state }
{
    added(apply(Op::Mul, &[state, 1_103_515_245]), 12_345)
}

/// The law of sums: samples that are added one by one, each time with a wrap, come to their sum.
pub fn sums_add_up()
    ensures { SumsAddUp }
{}

// Two numbers added.
pub(crate) fn added(x: i32, y: i32) -> i32
    ensures { result ≡ wrap (x +ℤ y) }
{
    apply(Op::Add, &[x, y])
}
