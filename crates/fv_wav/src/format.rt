// The `fmt ` chunk.

ghost use Rattle.std.specs.Prelude.{◌≡◌, ℕ, ◌+◌, ◌^◌, ◌<◌, ◌≤◌, ◌==◌, Ok, Err, IfOk, IfErr, true, bytes_eq};
ghost use Rattle.fv_base.specs.declared.limits.TheConstants.{MOST_CHANNELS};
ghost use Rattle.fv_base.specs.declared.role.Role.TheVariants.{Input};
ghost use Rattle.fv_pcm.specs.Words.{is_sample_width};
ghost use Rattle.fv_wav.specs.headline.Reading.{rest_of, tag_at, shape_at, sound_at, extension, fields, format_chunk, is_tag, is_channels};
ghost use Rattle.fv_wav.specs.headline.Reading.{frame_size, least_size, extensible_tag, plain_samples};
ghost use Rattle.fv_wav.specs.Stopping.{Passes, Stops, IsFormat};

use crate::head::Format;
use crate::input::{pass, read_u16, read_u32, take_all};
use crate::refusal::WaveRefusal;
use fv_base::limits::MOST_CHANNELS;
use fv_outside::Desk;

/// The tag of plain samples.
const PLAIN: u16 = 1;

/// The tag of samples whose format is named by a sub-format.
const EXTENSIBLE: u16 = 65534;

/// The sub-format of plain samples.
const PLAIN_SAMPLES: [u8; 16] = [1, 0, 0, 0, 0, 0, 16, 0, 128, 0, 0, 170, 0, 56, 155, 113];

// Reads the tag of a format of this size, whose body begins here.
#[tactic(auto, unfolding(crate::specs::headline::Reading::tag_at))]
fn read_tag<D: Desk>(desk: &mut D, place: u64, size: u32) -> Result<u16, WaveRefusal>
    requires low { 4 ≤ place }
    requires high { place < 2 ^ 62 }
    ensures ok { IfOk result (λ tag. Passes 2
        (tag_at size (rest_of place ((D.state desk.old).left Input)) ≡ Ok (tag, rest_of (place + 2) ((D.state desk.new).left Input)))
        (D.state desk.old) (D.state desk.new)) }
    ensures size { IfOk result (λ tag. least_size tag ≤ size) }
    ensures err { IfErr result (λ e. Stops (tag_at size (rest_of place ((D.state desk.old).left Input)) ≡ Err e) (D.state desk.old) (D.state desk.new) e) }
{
    if size < 16 {
        return Err(WaveRefusal::WaveFormat { place: place - 4 });
    }
    let tag = read_u16(desk, place)?;
    if tag != PLAIN && tag != EXTENSIBLE {
        return Err(WaveRefusal::WaveFormat { place });
    }
    if tag == EXTENSIBLE && size < 40 {
        return Err(WaveRefusal::WaveFormat { place: place - 4 });
    }
    Ok(tag)
}

// Reads the fields after the tag.
fn read_sound<D: Desk>(desk: &mut D, place: u64) -> Result<Format, WaveRefusal>
    requires { place < 2 ^ 62 }
    ensures ok { IfOk result (λ format. Passes 14
        (sound_at (rest_of place ((D.state desk.old).left Input)) ≡ Ok (format, rest_of (place + 14) ((D.state desk.new).left Input)))
        (D.state desk.old) (D.state desk.new)) }
    ensures format { IfOk result IsFormat }
    ensures err { IfErr result (λ e. Stops (sound_at (rest_of place ((D.state desk.old).left Input)) ≡ Err e) (D.state desk.old) (D.state desk.new) e) }
{
    let channels = read_u16(desk, place)?;
    if !is_channel_count(channels) {
        return Err(WaveRefusal::WaveFormat { place });
    }
    let rate = read_u32(desk, place + 2)?;
    let bits = read_shape(desk, place + 2 + 4, channels)?;
    Ok(Format {
        channels: u32::from(channels),
        rate,
        bits: u32::from(bits),
    })
}

// Reads the fields after the rate: the bits of a sample.
fn read_shape<D: Desk>(desk: &mut D, place: u64, channels: u16) -> Result<u16, WaveRefusal>
    requires place { place < 2 ^ 63 }
    requires channels { channels ≤ MOST_CHANNELS }
    ensures ok { IfOk result (λ bits. Passes 8
        (shape_at channels (rest_of place ((D.state desk.old).left Input)) ≡ Ok (bits, rest_of (place + 8) ((D.state desk.new).left Input)))
        (D.state desk.old) (D.state desk.new)) }
    ensures width { IfOk result (λ bits. is_sample_width bits ≡ true) }
    ensures err { IfErr result
        (λ e. Stops (shape_at channels (rest_of place ((D.state desk.old).left Input)) ≡ Err e) (D.state desk.old) (D.state desk.new) e) }
{
    pass(desk, place, 4)?;
    let align = read_u16(desk, place + 4)?;
    let bits = read_u16(desk, place + 4 + 2)?;
    if !is_width(bits) {
        return Err(WaveRefusal::WaveFormat { place: place + 6 });
    }
    if align != channels * (bits / 8) {
        return Err(WaveRefusal::WaveFormat { place: place + 4 });
    }
    Ok(bits)
}

// Whether a frame may have `channels` samples.
fn is_channel_count(channels: u16) -> bool
    ensures { result ≡ is_channels channels }
{
    1 <= channels && u32::from(channels) <= MOST_CHANNELS
}

// Whether samples may have `bits` bits.
fn is_width(bits: u16) -> bool
    ensures { result ≡ is_sample_width bits }
{
    bits == 8 || bits == 16 || bits == 24 || bits == 32
}

// Reads what only an extensible format has.
fn read_extension<D: Desk>(desk: &mut D, place: u64) -> Result<(), WaveRefusal>
    requires { place < 2 ^ 62 }
    ensures ok { IfOk result (λ _. Passes 24
        (extension true (rest_of place ((D.state desk.old).left Input)) ≡ Ok (rest_of (place + 24) ((D.state desk.new).left Input)))
        (D.state desk.old) (D.state desk.new)) }
    ensures err { IfErr result (λ e. Stops (extension true (rest_of place ((D.state desk.old).left Input)) ≡ Err e) (D.state desk.old) (D.state desk.new) e) }
{
    pass(desk, place, 8)?;
    let mut sub = [0u8; 16];
    take_all(desk, place + 8, &mut sub)?;
    if !is_plain(&sub) {
        return Err(WaveRefusal::WaveFormat { place: place + 8 });
    }
    Ok(())
}

// Whether the sub-format is that of plain samples.
fn is_plain(sub: &[u8]) -> bool
    ensures { result ≡ bytes_eq sub.now plain_samples }
{
    sub == PLAIN_SAMPLES.as_slice()
}

// Reads the body of a `fmt ` chunk of this size, up to the last field that is needed: the format, and how many bytes that is.
fn read_fields<D: Desk>(desk: &mut D, place: u64, size: u32) -> Result<(Format, u64), WaveRefusal>
    requires low { 4 ≤ place }
    requires high { place < 2 ^ 61 }
    ensures ok { IfOk result (λ x. Passes x.1
        (fields size (rest_of place ((D.state desk.old).left Input)) ≡ Ok (x.0, rest_of (place + x.1) ((D.state desk.new).left Input)))
        (D.state desk.old) (D.state desk.new)) }
    ensures within { IfOk result (λ x. x.1 ≤ size) }
    ensures format { IfOk result (λ x. IsFormat x.0) }
    ensures err { IfErr result (λ e. Stops (fields size (rest_of place ((D.state desk.old).left Input)) ≡ Err e) (D.state desk.old) (D.state desk.new) e) }
{
    let tag = read_tag(desk, place, size)?;
    let format = read_sound(desk, place + 2)?;
    if tag != EXTENSIBLE {
        return Ok((format, 16));
    }
    read_extension(desk, place + 2 + 14)?;
    Ok((format, 40))
}

/// Reads a `fmt ` chunk, after its name: the format, and the place after the chunk.
pub fn read_format<D: Desk>(desk: &mut D, place: u64) -> Result<(Format, u64), WaveRefusal>
    requires { place < 2 ^ 60 }
    ensures ok { IfOk result (λ x. (n : ℕ) × (n ≤ 2 ^ 32 + 4) × (x.1 ≡ place + n) × Passes n
        (format_chunk (rest_of place ((D.state desk.old).left Input)) ≡ Ok (x.0, rest_of x.1 ((D.state desk.new).left Input)))
        (D.state desk.old) (D.state desk.new)) }
    ensures format { IfOk result (λ x. IsFormat x.0) }
    ensures err { IfErr result (λ e. Stops (format_chunk (rest_of place ((D.state desk.old).left Input)) ≡ Err e) (D.state desk.old) (D.state desk.new) e) }
{
    let size = read_u32(desk, place)?;
    let (format, taken) = read_fields(desk, place + 4, size)?;
    let all = u64::from(size) + u64::from(size % 2);
    pass(desk, place + 4 + taken, all - taken)?;
    Ok((format, place + 4 + all))
}
