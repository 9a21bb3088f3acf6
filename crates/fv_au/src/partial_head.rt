// The head of an AU file, as far as its bytes are there.

ghost use Rattle.std.specs.Prelude.{◌≡◌, ◌≤◌, ◌+◌, length, true, IfOk, IfErr};
ghost use Rattle.fv_pcm.specs.Words.{is_sample_width};
ghost use Rattle.fv_au.specs.headline.Reading.{head_of, field as field_of, is_encoding as is_encoding_of, is_channels as is_channels_of};
ghost use Rattle.fv_au.specs.headline.Reading.{bits_of as bits_of_encoding, stated as stated_of};
ghost use Rattle.fv_au.specs.Stopping.{IsAuHead, IsOfBytes};

use crate::head::AuHead;
use crate::refusal::AuRefusal;
use byteorder::{BigEndian, ByteOrder};
use fv_base::limits::MOST_CHANNELS;

/// The size that says that the length was not known.
const UNKNOWN: u32 = 4294967295;

/// The head in these bytes, which are the first 24 of a file or all that it has.
pub fn judge(bytes: &[u8]) -> Result<AuHead, AuRefusal>
    ensures head { result ≡ head_of bytes.now }
    ensures long { IfOk result (λ _. 24 ≤ length bytes.now) }
    ensures ranges { IfOk result IsAuHead }
    ensures kind { IfErr result IsOfBytes }
{
    let cut = AuRefusal::AuTruncated {
        place: bytes.len() as u64,
    };
    if bytes.len() < 8 {
        return Err(cut);
    }
    let offset = field(bytes, 4);
    if offset < 24 {
        return Err(AuRefusal::AuFormat { place: 4 });
    }
    if bytes.len() < 16 {
        return Err(cut);
    }
    let encoding = field(bytes, 12);
    if !is_encoding(encoding) {
        return Err(AuRefusal::AuFormat { place: 12 });
    }
    if bytes.len() < 24 {
        return Err(cut);
    }
    let channels = field(bytes, 20);
    if !is_channels(channels) {
        return Err(AuRefusal::AuFormat { place: 20 });
    }
    Ok(AuHead {
        channels,
        rate: field(bytes, 16),
        bits: bits_of(encoding),
        data_bytes: stated(field(bytes, 8)),
        offset,
    })
}

// The number in the four bytes at this place.
fn field(bytes: &[u8], place: usize) -> u32
    requires { place + 4 ≤ length bytes.now }
    ensures { result ≡ field_of place bytes.now }
{
    BigEndian::read_u32(&bytes[place..])
}

fn is_encoding(encoding: u32) -> bool
    ensures { result ≡ is_encoding_of encoding }
{
    2 <= encoding && encoding <= 5
}

// The bits of a sample of this encoding.
fn bits_of(encoding: u32) -> u32
    requires { is_encoding_of encoding ≡ true }
    ensures bits { result ≡ bits_of_encoding encoding }
    ensures width { is_sample_width result ≡ true }
{
    match encoding {
        2 => 8,
        3 => 16,
        4 => 24,
        _ => 32,
    }
}

fn is_channels(channels: u32) -> bool
    ensures { result ≡ is_channels_of channels }
{
    1 <= channels && channels <= MOST_CHANNELS
}

// The bytes of samples, if they are stated.
fn stated(size: u32) -> Option<u32>
    ensures { result ≡ stated_of size }
{
    if size == UNKNOWN { None } else { Some(size) }
}
