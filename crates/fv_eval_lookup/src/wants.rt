// What rules want at one position, sorted by key.

ghost use Rattle.std.specs.Prelude.{ℕ, ◌≡◌, IfOk, filter};
ghost use Rattle.fv_eval_lookup.specs.declared.wants.Wanted.{Wanted as AWant};
ghost use Rattle.fv_eval_lookup.specs.Positions.{HasBoth, is_for};

use fv_eval_patterns::Bits;
use std::alloc::{AllocError, Global};
use std::marker::Model;

/// The key that a rule wants, and the index of the rule among the rules.
#[derive(Clone, Copy)]
pub(crate) struct Wanted {
    pub(crate) key: u64,
    pub(crate) rule: u64,
}

/// What rules want, sorted by key. Those of one key keep their order.
#[derive(Drop)]
pub(crate) struct Wants {
    sorted: Vec<Wanted>,
}

impl Model for Wants {
    ghost use Rattle.std.specs.Prelude.{List};
    ghost use Rattle.std.specs.List.Sorted.{IsNonDecreasingBy};
    ghost use Rattle.fv_eval_lookup.specs.declared.wants.Wanted.{Wanted};

    ghost Value = { List Wanted };

    ghost view = { λ w. w.sorted.items };

    ghost invariant = { λ w. IsNonDecreasingBy (λ (x : Wanted). x.key) w.sorted.items };
}

impl Wants {
    /// What rules want, once it is sorted.
    pub(crate) fn sort(mut wants: Vec<Wanted>) -> Result<Wants, AllocError>
        ensures { IfOk result (λ w. (key : ℕ) → filter (is_for key) w ≡ filter (is_for key) wants.items) }
    {
        wants.sort_by_key(|w| w.key)?;
        Ok(Wants { sorted: wants })
    }

    /// How many rules want something.
    pub(crate) fn len(&self) -> usize {
        self.sorted.len()
    }

    /// The rules that want a key.
    pub(crate) fn of(&self, key: u64) -> &[Wanted]
        ensures { result.now ≡ filter (is_for key) self.now }
    {
        let all = self.sorted.as_slice();
        let from = all.partition_point(|w| w.key < key);
        let rest = &all[from..];
        let count = rest.partition_point(|w| w.key <= key);
        &rest[..count]
    }

    /// Each key that at least `many` rules want.
    pub(crate) fn keys(&self, alloc: Global, many: usize) -> Result<Vec<u64>, AllocError> {
        let mut keys = Vec::new(alloc);
        let mut last = None;
        for wanted in self.sorted.as_slice() {
            if last != Some(wanted.key) {
                last = Some(wanted.key);
                if self.of(wanted.key).len() >= many {
                    keys.push(wanted.key)?;
                }
            }
        }
        Ok(keys)
    }

    /// The rules that want a key, and others.
    pub(crate) fn with(&self, alloc: Global, others: &Bits, key: u64) -> Result<Bits, AllocError>
        ensures { IfOk result (HasBoth others.now (filter (is_for key) self.now)) }
    {
        let mut rules = others.copy(alloc)?;
        for wanted in self.of(key) {
            rules.add(wanted.rule)?;
        }
        Ok(rules)
    }
}
