// Signals.

use fv_num::Op;
use std::marker::Model;

/// The number of a signal in its graph.
#[derive(Clone, Copy, PartialEq, Eq, Hash, Debug)]
pub struct SignalId {
    number: u64,
}

impl Model for SignalId {
    ghost use Rattle.std.specs.Prelude.{ℕ};

    ghost Value = { ℕ };

    ghost view = { λ a. a.number };

    ghost inverse = { λ n. record { number = n } };
}

impl SignalId {
    ghost use Rattle.std.specs.Prelude.{◌≡◌};

    /// The id with this number.
    pub fn new(number: u64) -> SignalId
        ensures { result ≡ number }
    {
        SignalId { number }
    }

    /// Its number.
    pub fn number(self) -> u64
        ensures { result ≡ self }
    {
        self.number
    }
}

/// A node of a graph. Its operands are numbers of earlier signals; a `Back` may name any.
#[derive(Clone, Copy, PartialEq, Eq, Hash, Debug)]
pub enum Signal {
    /// An input channel.
    Input(u64),
    /// This number, at each sample.
    Const(i32),
    /// The value of the control with this number.
    Control(u32),
    /// An operation on the first of its operands, as many as it takes.
    Point {
        op: Op,
        args: [SignalId; 4],
    },
    /// x as many samples earlier as d says, from 0 to the greatest; 0 before time 0.
    Delay {
        x: SignalId,
        d: SignalId,
        max: u32,
    },
    /// A member of a group one sample earlier, 0 at time 0.
    Back {
        group: u64,
        i: u64,
    },
    /// A member of a group.
    Member {
        group: u64,
        i: u64,
    },
    /// The item of a table at r, clamped to the table.
    Read {
        table: u64,
        r: SignalId,
    },
    /// The item at r of a table in which x is put at w at each time, this one too. Both places are clamped to the table.
    Write {
        table: u64,
        w: SignalId,
        x: SignalId,
        r: SignalId,
    },
}
