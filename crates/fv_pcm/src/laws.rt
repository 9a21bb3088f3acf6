// Laws of samples.

ghost use Rattle.fv_pcm.specs.ReadAgain.{SampleIsReadAgain, SamplesAreReadAgain};
ghost use Rattle.fv_pcm.specs.Sizes.{SamplesFollow};

/// A sample that is written is read again, clamped to the width, in each coding.
pub fn sample_is_read_again()
    ensures { SampleIsReadAgain }
{}

/// Frames of samples that stand in a file are read again, each sample clamped to the width.
pub fn samples_are_read_again()
    ensures { SamplesAreReadAgain }
{}

/// The samples after some frames are the next frames that are present.
pub fn samples_follow()
    ensures { SamplesFollow }
{}
