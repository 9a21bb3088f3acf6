// The forms of a tree.

use fv_num::Primitive;

/// What joins two parts: an infix operator, or one of the five compositions.
#[derive(Clone, Copy, Debug, PartialEq, Eq)]
pub enum Operator {
    Infix(Primitive),
    Recursion,
    Parallel,
    Sequence,
    Split,
    Merge,
}

/// A number of a waveform, as it is spelled.
#[derive(Clone, Copy, Debug, PartialEq, Eq)]
pub enum Literal {
    /// With or without `+`.
    Plain(u32),
    /// After `-`.
    Negative(u32),
}
