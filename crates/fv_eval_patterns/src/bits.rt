// Sets of indices of a list, with a bit for each.

ghost use Rattle.std.specs.Prelude.{ℕ, ◌≡◌, ◌<◌, ◌≤◌, true, false, IfOk, IsTrue, slice_index_or};
ghost use Rattle.fv_eval_patterns.specs.Bits.{has};

use std::alloc::{AllocError, Global};
use std::marker::Model;

/// How many indices a word has.
pub const WORD: u64 = 64;

/// A set of indices of a list.
#[derive(Drop)]
pub struct Bits {
    words: Vec<u64>,
}

impl Model for Bits {
    ghost use Rattle.std.specs.Prelude.{List, ℕ};

    ghost Value = { List ℕ };

    ghost view = { λ b. b.words.items };
}

impl Bits {
    /// No index.
    pub fn new(alloc: Global) -> Bits {
        Bits {
            words: Vec::new(alloc),
        }
    }

    /// The first `count` indices.
    pub fn first(alloc: Global, count: u64) -> Result<Bits, AllocError>
        ensures { IfOk result (λ b. (j : ℕ) → j < count → has b j ≡ true) }
    {
        let mut all = Bits::new(alloc);
        for i in 0..count {
            all.add(i)?;
        }
        Ok(all)
    }

    /// Whether an index is in the set.
    pub fn has(&self, place: u64) -> bool
        ensures { result ≡ has self.now place }
    {
        (self.word(place / WORD) >> (place % WORD)) % 2 == 1
    }

    /// Whether they are the same indices; it may say no of those that are.
    pub fn is_same(&self, others: &Bits) -> bool
        ensures { IsTrue result → self.now ≡ others.now }
    {
        self.words == others.words
    }

    /// A hash of the set: equal sets have the same one.
    pub fn mixed(&self) -> u64 {
        let mut mixed = 0u64;
        for word in &self.words {
            mixed = (mixed ^ *word)
                .wrapping_mul(0x9e37_79b9_7f4a_7c15)
                .rotate_left(29);
        }
        mixed
    }

    /// A copy of the set.
    pub fn copy(&self, alloc: Global) -> Result<Bits, AllocError>
        ensures { IfOk result (λ b. b ≡ self.now) }
    {
        let words = Vec::from_slice(alloc, self.words.as_slice())?;
        Ok(Bits { words })
    }

    /// Adds an index.
    pub fn add(&mut self, place: u64) -> Result<(), AllocError>
        ensures keeps { (j : ℕ) → has self.old j ≡ true → has self.new j ≡ true }
        ensures added { IfOk result (λ _. has self.new place ≡ true) }
    {
        let i = (place / WORD) as usize;
        'grow: while self.words.len() <= i {
            self.words.push(0)?;
        }
        let word = self.words[i];
        self.words[i] = word | (1 << (place % WORD));
        Ok(())
    }

    /// Keeps only the indices that are among others too.
    pub fn keep(&mut self, others: &Bits)
        ensures { (j : ℕ) → has self.old j ≡ true → has others.now j ≡ true → has self.new j ≡ true }
    {
        let count = others.words.len();
        self.words.truncate(count);
        for i in 0..self.words.len() {
            let word = self.words[i];
            self.words[i] = word & others.words[i];
        }
    }

    // A word; there is nothing after the last one.
    fn word(&self, i: u64) -> u64
        ensures { result ≡ slice_index_or self.now i 0 }
    {
        let place = i as usize;
        if place < self.words.len() {
            self.words[place]
        } else {
            0
        }
    }

    /// The first index from one on that is in the set, if it is before an end; else the end.
    pub fn next(&self, from: u64, end: u64) -> u64
        ensures from { from ≤ end → from ≤ result }
        ensures within { result ≤ end }
        ensures skipped { (j : ℕ) → from ≤ j → j < result → has self.now j ≡ false }
    {
        let mut at = from;
        'words: while at < end {
            let rest = self.word(at / WORD) >> (at % WORD);
            if rest != 0 {
                let found = at.saturating_add(u64::from(rest.trailing_zeros()));
                return if found < end { found } else { end };
            }
            at = at.saturating_add(WORD - at % WORD);
        }
        end
    }
}
