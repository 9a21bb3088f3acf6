// How samples are stored.

ghost use Rattle.std.specs.Prelude.{◌≡◌, ◌≤◌, true};
ghost use Rattle.fv_base.specs.declared.limits.TheConstants.{MOST_CHANNELS};
ghost use Rattle.fv_num.specs.headline.Words.{is_sample_width};
ghost use Rattle.fv_pcm.specs.headline.Sizes.{frame_size};

/// How the samples of a file are stored.
#[derive(Clone, Copy, PartialEq, Eq, Debug)]
pub enum Coding {
    /// The lowest byte first, in two's complement; 8 bits 128 higher.
    Wave,
    /// The highest byte first, in two's complement.
    Au,
}

/// The bytes of a frame.
pub fn frame_size(channels: u32, bits: u32) -> u32
    requires few { channels ≤ MOST_CHANNELS }
    requires bits { is_sample_width bits ≡ true }
    ensures size { result ≡ frame_size channels bits }
    ensures most { result ≤ 1024 }
{
    channels * (bits / 8)
}
