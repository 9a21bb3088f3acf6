// The rule of a worker's deque, and what each call tells the pass that makes it.

ghost use Rattle.std.specs.Prelude.{◌≡◌, ℕ, ◌-◌, ◌+◌, ◌++◌, true, false, []};
ghost use Rattle.fv_graph.specs.TasksBeside.{times};
ghost use Rattle.fv_steal.specs.Balance.{account, IsBalanced};

use crossbeam_deque::protocol::{Join, Outcome, Protocol, Split};
use std::collections::LinkedList;

/// What a pass at a deque knows. No value of it is made.
pub struct Account {
    /// It is the pass of the deque's own worker.
    pub owns: bool,
    /// How many passes the owner has given out that did not come back.
    pub lent: u64,
    /// 1 where the pass was given out by the owner, else 0.
    pub held: u64,
    /// The numbers that were put, in order.
    pub put: LinkedList<u64>,
    /// The numbers that were taken, in order.
    pub taken: LinkedList<u64>,
}

/// The rule of a deque: what was put is what lies there and what was taken, and no number was put twice.
pub struct DequeRule;

impl Protocol<u64, Account> for DequeRule {
    ghost use Rattle.std.specs.Prelude.{true, false, []};
    ghost use Rattle.fv_steal.specs.Balance.{account, IsBalanced};

    ghost holds = { IsBalanced };

    ghost first = { account true 0 0 [] [] };

    ghost guest = { account false 0 0 [] [] };
}

/// The owner puts a number.
pub struct Puts;

impl Outcome<u64, Account> for Puts {
    ghost use Rattle.std.specs.Prelude.{◌≡◌, ◌++◌};
    ghost use Rattle.fv_steal.specs.Balance.{account};

    ghost then = { λ v xs w. w ≡ account v.owns v.lent v.held (v.put ++ xs) v.taken };
}

/// The owner takes a number. Where it finds none and no pass is out, all that was put was taken by it.
pub struct Pops;

impl Outcome<u64, Account> for Pops {
    ghost use Rattle.std.specs.Prelude.{◌≡◌, ℕ, ◌++◌};
    ghost use Rattle.fv_graph.specs.TasksBeside.{times};
    ghost use Rattle.fv_steal.specs.Balance.{account};

    ghost then = { λ v xs w. w ≡ account v.owns v.lent v.held v.put (v.taken ++ xs) };

    ghost empty = { λ v. v.lent ≡ 0 → (x : ℕ) → times x v.put ≡ times x v.taken };
}

/// Another worker takes a number.
pub struct Steals;

impl Outcome<u64, Account> for Steals {
    ghost use Rattle.std.specs.Prelude.{◌≡◌, ◌++◌};
    ghost use Rattle.fv_steal.specs.Balance.{account};

    ghost then = { λ v xs w. w ≡ account v.owns v.lent v.held v.put (v.taken ++ xs) };
}

/// The owner gives a pass out.
pub struct Lends;

impl Split<Account> for Lends {
    ghost use Rattle.std.specs.Prelude.{◌+◌, false, []};
    ghost use Rattle.fv_steal.specs.Balance.{account};

    ghost left = { λ v. account v.owns (v.lent + 1) v.held v.put v.taken };

    ghost right = { λ v. account false 0 1 [] [] };
}

/// A pass comes back to the owner, with what it took.
pub struct ComesBack;

impl Join<Account> for ComesBack {
    ghost use Rattle.std.specs.Prelude.{◌-◌, ◌++◌, false, []};
    ghost use Rattle.fv_steal.specs.Balance.{account};

    ghost both = { λ v w. account v.owns (v.lent - w.held) v.held v.put (v.taken ++ w.taken) };

    ghost spent = { account false 0 0 [] [] };
}
