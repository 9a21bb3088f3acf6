// The noise as a tape, and the sum of what it is given.

ghost use Rattle.std.specs.Prelude.{◌≡◌, ℕ, ℤ, pos, ◌+ℤ◌, ◌*◌, ◌+◌, ◌≤◌, List, length};
ghost use Rattle.fv_num.specs.headline.Words.{wrap, shifted_right};
ghost use Rattle.fv_outside.specs.Acts.{Act};
ghost use Rattle.fv_top_make.specs.headline.Made.{noise_behind};
ghost use Rattle.fv_top_make.specs.Made.{state_behind, sum_from};
ghost use Rattle.fv_top_make.specs.Noises.{Sounds};

use crate::{added, next_state};
use fv_num::{Op, apply};
use fv_outside::Tape;
use std::convert::Infallible;

/// A noise that goes on, and the sum of what was given for it.
#[derive(Clone, Copy)]
pub struct Noise {
    pub state: i32,
    pub sum: i32,
}

/// A tape of noise, which never stops.
#[derive(Clone, Copy)]
pub struct NoiseTape {
    /// The frames that are left.
    pub left: u32,
    /// The most frames at once.
    pub most: u32,
    /// How many samples a frame has that is given for it.
    pub outputs: u32,
}

impl Tape<Noise> for NoiseTape {
    type Stop = Infallible;

    ghost ears = { λ t. 1 };

    ghost mouth = { λ t. t.outputs };

    ghost most = { λ t. t.most };

    ghost left = { λ t. t.left };

    ghost is_valid = { λ t. Unit {0} };

    ghost is_fresh = { λ t. Unit {0} };

    ghost Went = { λ first t start now h s. Sounds start now h s };

    ghost Stopped = { λ first t start now h s act e. ⊥ };

    fn begin(&mut self, noise: &mut Noise) -> Result<(), Infallible> {
        Ok(())
    }

    fn hear(&mut self, noise: &mut Noise, frames: u32, to: &mut [i32]) -> Result<(), Infallible> {
        sound(noise, to);
        self.left -= frames;
        Ok(())
    }

    fn say(&mut self, noise: &mut Noise, _frames: u32, samples: &[i32]) -> Result<(), Infallible> {
        give(noise, samples);
        Ok(())
    }
}

// Fills with the next samples of the noise.
fn sound(noise: &mut Noise, to: &mut [i32])
    ensures heard { to.new ≡ noise_behind noise.old.state (length to.old) }
    ensures state { noise.new.state ≡ state_behind noise.old.state (length to.old) }
    ensures sum { noise.new.sum ≡ noise.old.sum }
{
    let mut state = noise.state;
    let mut i = 0;
    'sounding: while i < to.len() {
        state = next_state(state);
        to[i] = apply(Op::Shr, &[state, 16]);
        i += 1;
    }
    noise.state = state;
}

// Adds these samples to the sum.
fn give(noise: &mut Noise, samples: &[i32])
    ensures state { noise.new.state ≡ noise.old.state }
    ensures sum { noise.new.sum ≡ sum_from noise.old.sum samples.now }
{
    let mut sum = noise.sum;
    'adding: for sample in samples {
        sum = added(sum, *sample);
    }
    noise.sum = sum;
}
