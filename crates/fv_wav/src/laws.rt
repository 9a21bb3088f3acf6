// Laws of WAV files.

ghost use Rattle.fv_wav.specs.Files.{HasOneOutcome, EndsAtItsLength};
ghost use Rattle.fv_wav.specs.Written.{IsReadBack};
ghost use Rattle.fv_wav.specs.Samples.{Follow};

/// Each file has one outcome: a head, or one refusal at one place.
pub fn one_outcome()
    ensures { HasOneOutcome }
{}

/// A file that ends too early is refused at its length.
pub fn ends_at_its_length()
    ensures { EndsAtItsLength }
{}

/// What is written is read again: the head, and the samples, clamped to the width.
pub fn written_is_read()
    ensures { IsReadBack }
{}

/// The samples after some frames are the next frames that are present.
pub fn samples_follow()
    ensures { Follow }
{}
