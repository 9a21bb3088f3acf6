// Laws of AU files.

ghost use Rattle.fv_au.specs.Cases.{HasOneAuOutcome, AuEndsAtItsLength};
ghost use Rattle.fv_au.specs.Written.{IsAuReadBack};

/// Each file has one outcome: a head, or one refusal at one place.
pub fn one_au_outcome()
    ensures { HasOneAuOutcome }
{}

/// A file that ends too early is refused at its length.
pub fn au_ends_at_its_length()
    ensures { AuEndsAtItsLength }
{}

/// What is written is read again: the head, and the samples, clamped to the width.
pub fn au_written_is_read()
    ensures { IsAuReadBack }
{}
