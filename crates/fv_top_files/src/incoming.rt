// What the head of a WAV or an AU file says of an input.

ghost use Rattle.std.specs.Prelude.{◌≡◌};
ghost use Rattle.fv_top_files.specs.headline.Inputs.{wave_incoming, au_incoming};

use fv_au::AuHead;
use fv_file_tape::Incoming;
use fv_pcm::Coding;
use fv_wav::Head;

/// An input with the head of a WAV file.
pub fn wave_incoming(head: Head) -> Incoming
    ensures { result ≡ wave_incoming head }
{
    Incoming {
        coding: Coding::Wave,
        channels: head.channels,
        rate: head.rate,
        bits: head.bits,
        data_bytes: head.data_bytes,
        is_open: false,
        place: head.place,
    }
}

/// An input with the head of an AU file and `data_bytes` bytes of samples, which the head may not state.
pub fn au_incoming(head: AuHead, data_bytes: u32) -> Incoming
    ensures { result ≡ au_incoming head data_bytes }
{
    Incoming {
        coding: Coding::Au,
        channels: head.channels,
        rate: head.rate,
        bits: head.bits,
        data_bytes,
        is_open: head.data_bytes.is_none(),
        place: u64::from(head.offset),
    }
}
