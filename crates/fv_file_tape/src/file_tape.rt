// An input and an output, as a tape.

ghost use Rattle.std.specs.Prelude.{◌≡◌, ◌+◌, ◌*◌, ◌/◌, ◌-◌, ◌≤◌, ℕ, ℤ, List, [], ◌++◌, length, OnOk, IfErr};
ghost use Rattle.fv_outside.specs.Acts.{Act, Beginning, Hearing, Saying};
ghost use Rattle.fv_file_tape.specs.Tapes.{IsTape, Streamed, StopsIn, channels_of, files_of};

use crate::incoming::Incoming;
use crate::samples::{decode_behind, read_samples, write_output_head, write_samples};
use fv_outside::{Desk, Role, Tape};
use fv_pcm::{Coding, frame_size};

/// Why it stops.
#[derive(Clone, Copy)]
pub enum Stop {
    /// The input cannot be read.
    Read,
    /// The input ends within the frames that are stated. The file has `place` bytes.
    End { place: u64 },
    /// The output cannot be written.
    Write,
}

/// What the head of an output says.
#[derive(Clone, Copy)]
pub struct OutputHead {
    /// How samples are stored: as in WAV or in AU files.
    pub coding: Coding,
    /// How many samples a frame has.
    pub channels: u32,
    /// Frames a second.
    pub rate: u32,
    /// Bits of a sample.
    pub bits: u32,
    /// Bytes of samples.
    pub size: u32,
}

/// An input, if there is one, and an output, as a tape.
#[derive(Drop)]
pub struct FileTape<'a> {
    /// The output's name.
    pub output: &'a str,
    /// What the output's head says.
    pub head: OutputHead,
    /// What the head of the input says, if there is one.
    pub input: Option<Incoming>,
    /// The bytes of the input's samples, where they were read before.
    pub held: Option<Vec<u8>>,
    /// How many frames were heard so far.
    pub done: u32,
    /// How many frames there are to hear in all.
    pub stated: u32,
    /// The most frames that are heard or said at once.
    pub most: u32,
    /// A buffer of at least as many bytes as the most frames take, both of the input and of the output.
    pub bytes: Vec<u8>,
}

impl<D: Desk> Tape<D> for FileTape<'_> {
    type Stop = Stop;

    ghost ears = { λ t. channels_of t.input };

    ghost mouth = { λ t. t.head.channels };

    ghost most = { λ t. t.most };

    ghost left = { λ t. t.stated - t.done };

    ghost is_valid = { IsTape };

    ghost is_fresh = { λ t. t.done ≡ 0 };

    ghost Went = { λ first t start now h s. (files_of t ≡ files_of first) × Streamed (files_of first) t.done (D.state start) (D.state now) h s };

    ghost Stopped = { λ first t start now h s act stop. StopsIn (files_of first) (D.state start) (D.state now) h s act stop };

    fn begin(&mut self, desk: &mut D) -> Result<(), Stop> {
        match desk.begin_write(Role::Output, self.output) {
            Ok(()) => {}
            Err(_) => return Err(Stop::Write),
        }
        match write_output_head(desk, &self.head) {
            Ok(()) => Ok(()),
            Err(_) => Err(Stop::Write),
        }
    }

    fn hear(&mut self, desk: &mut D, frames: u32, to: &mut [i32]) -> Result<(), Stop> {
        let input = match self.input {
            Some(input) => input,
            None => {
                self.done += frames;
                return Ok(());
            }
        };
        match &self.held {
            Some(held) => {
                decode_behind(&input, self.done, held, to);
                self.done += frames;
                Ok(())
            }
            None => {
                let place = input.place
                    + u64::from(self.done) * u64::from(frame_size(input.channels, input.bits));
                let count = to.len() * (input.bits / 8) as usize;
                match read_samples(
                    desk,
                    input.coding,
                    input.bits,
                    place,
                    &mut self.bytes[..count],
                    to,
                ) {
                    Ok(()) => {
                        self.done += frames;
                        Ok(())
                    }
                    Err(stop) => Err(stop),
                }
            }
        }
    }

    fn say(&mut self, desk: &mut D, _frames: u32, samples: &[i32]) -> Result<(), Stop> {
        match write_samples(
            desk,
            self.head.coding,
            self.head.bits,
            samples,
            &mut self.bytes,
        ) {
            Ok(()) => Ok(()),
            Err(_) => Err(Stop::Write),
        }
    }
}
