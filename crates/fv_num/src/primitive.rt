// The primitives of a program.

use crate::op::Op;

/// A primitive: what a sign or a word of a program stands for, and a diagram that has no parts.
#[derive(Clone, Copy, PartialEq, Eq, Debug)]
pub enum Primitive {
    /// `_`: its input.
    Wire,
    /// `!`: takes one stream, and gives none.
    Cut,
    /// `mem`: its input one sample later, 0 at the first sample.
    Mem,
    /// `prefix`: the first sample of its first input, and then its second input one sample later.
    Prefix,
    /// `@`: its first input, as many samples ago as its second input says, 0 where that is before the first sample or
    /// negative.
    Delay,
    /// `int`: its input, since every sample is an integer.
    Int,
    /// `attach`: the first of its two inputs.
    Attach,
    /// The operation on its inputs, at each sample.
    Point(Op),
    /// `rdtable`, which no diagram has that runs: after a table's size and numbers it becomes a table.
    ReadTable,
    /// `rwtable`, likewise.
    WriteTable,
}

impl Primitive {
    ghost use Rattle.std.specs.Prelude.{◌≡◌};
    ghost use Rattle.fv_num.specs.headline.Primitives.{is_table_primitive};

    /// Whether it is `rdtable` or `rwtable`.
    pub fn is_table(self) -> bool
        ensures { result ≡ is_table_primitive self }
    {
        match self {
            Primitive::ReadTable => true,
            Primitive::WriteTable => true,
            _ => false,
        }
    }
}
