// Rates.

/// How often a signal may change.
#[derive(Clone, Copy, PartialEq, Eq, Debug)]
pub enum Rate {
    /// Never.
    Constant,
    /// Where a control changes.
    Control,
    /// At each sample.
    Sample,
}
