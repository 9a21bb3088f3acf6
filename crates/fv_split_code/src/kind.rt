// What a signal is to the loops.

/// What a signal is to the code that reads it.
#[derive(Clone, Copy, PartialEq, Eq, Debug)]
pub enum Kind {
    /// This number, always.
    Number(i32),
    /// A held value, by its number.
    Held(u64),
    /// It has this lane.
    Lane(u64),
    /// An input without a lane.
    Input(u64),
    /// A `Back` without a lane, of a signal with this lane.
    Back(u64),
    /// Computed inside the one code that reads it.
    Inner,
}
