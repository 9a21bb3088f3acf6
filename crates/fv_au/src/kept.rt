// A few bytes that were read and are still to be given.

ghost use Rattle.std.specs.Prelude.{◌≡◌, ◌+◌, ◌<◌, ◌≤◌, ◌++◌, [], length, take, drop, min};

use std::marker::Model;

/// How many bytes are kept at most.
pub const MOST_KEPT: usize = 4;

/// Bytes that were read and are still to be given, four at most, in their order.
#[derive(Drop)]
pub struct Kept {
    bytes: [u8; 4],
    count: usize,
}

impl Model for Kept {
    ghost use Rattle.std.specs.Prelude.{ℕ, List, ◌≤◌, take};

    ghost Value = { List ℕ };

    ghost view = { λ k. take k.count k.bytes };

    ghost invariant = { λ k. k.count ≤ 4 };
}

impl Kept {
    /// None.
    pub fn new() -> Kept
        ensures { result ≡ [] }
    {
        Kept {
            bytes: [0; 4],
            count: 0,
        }
    }

    /// How many they are.
    pub fn len(&self) -> usize
        ensures count { result ≡ length self.now }
        ensures few { result ≤ 4 }
    {
        self.count
    }

    /// Keeps these too.
    pub fn extend(&mut self, bytes: &[u8])
        requires { length self.old + length bytes.now ≤ 4 }
        ensures { self.new ≡ self.old ++ bytes.now }
    {
        let end = self.count + bytes.len();
        self.bytes[self.count..end].copy_from_slice(bytes);
        self.count = end;
    }

    /// Gives as many as there is room for, from the front, and says how many.
    pub fn give(&mut self, to: &mut [u8]) -> usize
        ensures count { result ≡ min (length self.old) (length to.new) }
        ensures given { take result to.new ≡ take result self.old }
        ensures rest { self.new ≡ drop result self.old }
        ensures behind { drop result to.new ≡ drop result to.old }
    {
        let n = self.count.min(to.len());
        to[..n].copy_from_slice(&self.bytes[..n]);
        self.bytes.copy_within(n..self.count, 0);
        self.count -= n;
        n
    }

    /// All four.
    pub fn four(&self) -> [u8; 4]
        requires { length self.now ≡ 4 }
        ensures { result ≡ self.now }
    {
        self.bytes
    }
}
