// The format of the output that a program makes on an input.

ghost use Rattle.std.specs.Prelude.{◌≡◌, ◌≤◌, true, IfOk};
ghost use Rattle.std.specs.Option.{ForSome};
ghost use Rattle.fv_diagram.specs.Words.{is_sample_width};
ghost use Rattle.fv_diagram.specs.Limits.TheConstants.{MOST_CHANNELS};
ghost use Rattle.fv_top_words.specs.Views.{settings_in};
ghost use Rattle.fv_pcm.specs.headline.Sizes.{data_size, data_limit};
ghost use Rattle.fv_top_files.specs.Inputs.{IsIncoming};
ghost use Rattle.fv_top_files.specs.headline.Output.{coding_of, format_for, channels_in, rate_in, bits_in, frames_in};
ghost use Rattle.fv_top_files.specs.Formats.{format_answered};

use fv_diagram::Arity;
use fv_file_tape::Incoming;
use fv_pcm::{Coding, data_length, frame_size};
use fv_top_report::Refusal;
use fv_top_words::{OutputKind, Settings};

/// The format of an output.
#[derive(Clone, Copy)]
pub struct OutputFormat {
    /// How its samples are stored.
    pub coding: Coding,
    /// Frames a second.
    pub rate: u32,
    /// Bits of a sample.
    pub bits: u32,
    /// The number of frames.
    pub frames: u32,
    /// The bytes of their samples.
    pub size: u32,
}

/// The frames a second where neither an input nor a word says so.
const USUAL_RATE: u32 = 44100;

/// The bits of a sample where neither an input nor a word says so.
const USUAL_BITS: u32 = 16;

/// The format of the output that a program of this arity makes on an input with this head, as a file of this kind; or why it does
/// not fit.
pub fn fit(
    arity: Arity,
    head: Option<Incoming>,
    settings: &Settings,
    output: OutputKind,
) -> Result<OutputFormat, Refusal>
    requires some { 1 ≤ arity.outputs }
    requires few { arity.outputs ≤ MOST_CHANNELS }
    requires head { ForSome head IsIncoming }
    ensures format { format_answered result ≡ format_for (coding_of output) (settings_in settings.now) arity.inputs arity.outputs head }
    ensures bits { IfOk result (λ s. is_sample_width s.bits ≡ true) }
    ensures size { IfOk result (λ s. (s.size ≡ data_size arity.outputs s.bits s.frames) × (s.size ≤ data_limit)) }
    ensures channels { IfOk result (λ _. channels_in head ≡ arity.inputs) }
{
    let channels = channels_in(head);
    if channels != arity.inputs {
        return Err(Refusal::Channels {
            have: channels,
            want: arity.inputs,
        });
    }
    let Some(frames) = frames_in(settings, head) else {
        return Err(Refusal::FramesNeeded);
    };
    let rate = rate_in(settings, head);
    let bits = bits_in(settings, head);
    match data_length(arity.outputs, bits, frames) {
        Some(size) => Ok(OutputFormat {
            coding: coding_of(output),
            rate,
            bits,
            frames,
            size,
        }),
        None => Err(Refusal::OutputTooLong {
            bytes: u64::from(frames) * (u64::from(arity.outputs) * u64::from(bits / 8)),
        }),
    }
}

// How the samples of an output of this kind are stored.
fn coding_of(output: OutputKind) -> Coding
    ensures { result ≡ coding_of output }
{
    match output {
        OutputKind::Wave => Coding::Wave,
        OutputKind::Au => Coding::Au,
    }
}

fn channels_in(head: Option<Incoming>) -> u32
    ensures { result ≡ channels_in head }
{
    match head {
        Some(head) => head.channels,
        None => 0,
    }
}

// The number of frames, if it is said.
#[tactic(auto, using(fv_pcm::proofs::lemmas::Widths::some_frame))]
fn frames_in(settings: &Settings, head: Option<Incoming>) -> Option<u32>
    requires { ForSome head IsIncoming }
    ensures { result ≡ frames_in (settings_in settings.now) head }
{
    match head {
        Some(head) => Some(head.data_bytes / frame_size(head.channels, head.bits)),
        None => settings.frames,
    }
}

fn rate_in(settings: &Settings, head: Option<Incoming>) -> u32
    ensures { result ≡ rate_in (settings_in settings.now) head }
{
    match head {
        Some(head) => head.rate,
        None => settings.rate.unwrap_or(USUAL_RATE),
    }
}

fn bits_in(settings: &Settings, head: Option<Incoming>) -> u32
    requires { ForSome head IsIncoming }
    ensures bits { result ≡ bits_in (settings_in settings.now) head }
    ensures is_width { is_sample_width result ≡ true }
{
    match head {
        Some(head) => settings.bits.unwrap_or(head.bits),
        None => settings.bits.unwrap_or(USUAL_BITS),
    }
}
