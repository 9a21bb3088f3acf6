// Binary tries with shared nodes, in which a number is found by its lowest bits.

ghost use Rattle.std.specs.Prelude.{ℕ, ◌≡◌, ◌⊎◌, ◌<◌, ◌-◌, [], Some, IfOk};
ghost use Rattle.fv_eval_scopes.specs.Tries.{child, child_of, found, AreThere, IsGrown, IsWith};

use std::alloc::{AllocError, Global};
use std::marker::Model;

/// Where each bit leads from a node.
#[derive(Clone, Copy, Debug)]
pub struct Fork {
    zero: u64,
    one: u64,
}

/// The nodes of all tries. Node 0 is a trie in which every number has the value 0; the others are numbered from 1 on. No node is
/// ever changed: a trie with one value more shares the rest with the one that it was made of.
#[derive(Drop)]
pub struct Tries {
    forks: Vec<Fork>,
}

impl Model for Tries {
    ghost use Rattle.std.specs.Prelude.{List};
    ghost use Rattle.fv_eval_scopes.specs.declared.tries.Fork.{Fork};

    ghost Value = { List Fork };

    ghost view = { λ t. t.forks.items };
}

impl Tries {
    /// No node but 0.
    pub fn new(alloc: Global) -> Tries
        ensures { result ≡ [] }
    {
        Tries {
            forks: Vec::new(alloc),
        }
    }

    // Where a bit leads from a node.
    fn child(&self, node: u64, bit: u64) -> u64
        ensures { result ≡ child self.now node bit }
    {
        if node == 0 {
            return 0;
        }
        match self.forks.get((node - 1) as usize) {
            None => 0,
            Some(fork) => side(fork, bit),
        }
    }

    /// The value of a number in the trie of `levels` levels with this root. It goes by the `levels` lowest bits: numbers with the
    /// same ones have one value.
    pub fn find(&self, root: u64, levels: u64, number: u64) -> u64
        ensures { result ≡ found self.now levels root number }
    {
        let mut node = root;
        let mut rest = number;
        let mut left = levels;
        'down: while left > 0 {
            node = self.child(node, rest % 2);
            rest /= 2;
            left -= 1;
        }
        node
    }

    /// Makes a trie of `levels` levels in which this number has this value, and each other one what it has in the trie with this
    /// root. Returns its root.
    pub fn with(
        &mut self,
        root: u64,
        levels: u64,
        number: u64,
        value: u64,
    ) -> Result<u64, AllocError>
        ensures grown { IsGrown self.old self.new }
        ensures with { IfOk result (λ r. AreThere self.old levels root → IsWith self.old self.new levels root number value r) }
    {
        if levels == 0 {
            return Ok(value);
        }
        let bit = number % 2;
        let other = self.child(root, 1 - bit);
        let next = self.child(root, bit);
        let below = self.with(next, levels - 1, number / 2, value)?;
        let fork = forked(bit, below, other);
        self.forks.push(fork)?;
        Ok(self.forks.len() as u64)
    }
}

// Where a bit leads from a fork.
fn side(fork: &Fork, bit: u64) -> u64
    ensures { result ≡ child_of (Some fork.now) bit }
{
    match bit {
        0 => fork.zero,
        _ => fork.one,
    }
}

// A bit leads one way, and the other one the other way.
fn forked(bit: u64, there: u64, other: u64) -> Fork
    requires { bit < 2 }
    ensures there { child_of (Some result) bit ≡ there }
    ensures other { child_of (Some result) (1 - bit) ≡ other }
    ensures either { (b : ℕ) → (child_of (Some result) b ≡ there) ⊎ (child_of (Some result) b ≡ other) }
{
    if bit == 0 {
        Fork {
            zero: there,
            one: other,
        }
    } else {
        Fork {
            zero: other,
            one: there,
        }
    }
}
