// The numbers that a register had, and those of a table.

ghost use Rattle.std.specs.Prelude.{◌≡◌, ℕ, ◌<◌, ◌≤◌, [], length, get_or, IfOk, OnOk};
ghost use Rattle.fv_num.specs.headline.Tables.{place as place_of};
ghost use Rattle.fv_diagram_runner.specs.declared.step.Change.TheVariants.{Append};
ghost use Rattle.fv_diagram_runner.specs.History.{Numbers, numbers_of, HasRoom};

use crate::step::Change;
use std::alloc::{AllocError, Global};
use std::marker::Model;

/// Numbers, the earliest one first, and room for more.
#[derive(Drop)]
pub struct History {
    numbers: Vec<i32>,
}

impl Model for History {
    ghost use Rattle.std.specs.Prelude.{◌-◌, vec_len, vec_capacity};
    ghost use Rattle.fv_diagram_runner.specs.History.{Numbers};

    ghost Value = { Numbers };

    ghost view = { λ h. record { numbers = h.numbers.items; room = vec_capacity h.numbers - vec_len h.numbers } };
}

impl History {
    ghost use Rattle.std.specs.Prelude.{◌≡◌, ◌∷◌, ◌++◌, ◌≤◌, IfOk, OnOk};
    ghost use Rattle.fv_num.specs.headline.Tables.{read_at};
    ghost use Rattle.fv_num.specs.headline.Tables.{written};
    ghost use Rattle.fv_diagram_runner.specs.Steps.{recalled};

    /// No numbers.
    pub fn new(alloc: Global) -> History
        ensures { result.numbers ≡ [] }
    {
        History {
            numbers: Vec::new(alloc),
        }
    }

    /// These numbers.
    pub fn of(alloc: Global, values: &[i32]) -> Result<History, AllocError>
        ensures { IfOk result (λ h. h.numbers ≡ values.now) }
    {
        let numbers = values.iter().copied().collect(alloc)?;
        Ok(History { numbers })
    }

    /// Takes room for one number more.
    pub fn reserve(&mut self) -> Result<(), AllocError>
        ensures numbers { self.new.numbers ≡ self.old.numbers }
        ensures room { OnOk result (1 ≤ self.new.room) }
    {
        self.numbers.reserve(1)
    }

    /// Adds a number.
    pub fn append(&mut self, number: i32)
        requires { 1 ≤ self.old.room }
        ensures { self.new.numbers ≡ self.old.numbers ++ number ∷ [] }
    {
        let _ = self.numbers.push(number);
    }

    /// The number `ago` frames before the one that is there now, 0 where there is none.
    pub fn back(&self, now: i32, ago: i32) -> i32
        ensures { result ≡ recalled self.now.numbers now ago }
    {
        if ago == 0 {
            return now;
        }
        let count = self.numbers.len();
        if ago < 0 || ago as usize > count {
            return 0;
        }
        self.numbers[count - ago as usize]
    }

    /// The number at an index, clamped to the list.
    pub fn read(&self, index: i32) -> i32
        ensures { result ≡ read_at self.now.numbers index }
    {
        let count = self.numbers.len();
        if count == 0 {
            return 0;
        }
        self.numbers[place(count, index)]
    }

    /// Writes a number at an index, clamped to the list.
    pub fn put(&mut self, index: i32, number: i32)
        ensures { self.new.numbers ≡ written self.old.numbers index number }
    {
        let count = self.numbers.len();
        if count == 0 {
            return;
        }
        self.numbers[place(count, index)] = number;
    }

    /// The number at the index `r`, where `x` was written at the index `w` before.
    pub fn read_written(&self, w: i32, x: i32, r: i32) -> i32
        ensures { result ≡ read_at (written self.now.numbers w x) r }
    {
        let count = self.numbers.len();
        if count == 0 {
            return 0;
        }
        let at = place(count, r);
        if at == place(count, w) {
            return x;
        }
        self.numbers[at]
    }
}

// The place that an index means in a list of `count` numbers: its own, or the nearest one.
fn place(count: usize, index: i32) -> usize
    requires { 1 ≤ count }
    ensures is { result ≡ place_of count index }
    ensures within { result < count }
{
    if index < 0 {
        return 0;
    }
    (index as usize).min(count - 1)
}

/// Takes room for one number more in each that grows.
pub fn reserve(lists: &mut [History], changes: &[Change]) -> Result<(), AllocError>
    requires { length lists.old ≡ length changes.now }
    ensures numbers { numbers_of lists.new ≡ numbers_of lists.old }
    ensures room { OnOk result ((k : ℕ) (d : Numbers) → k < length changes.now → HasRoom (get_or changes.now k (Append 0)) (get_or lists.new k d)) }
{
    for i in 0..lists.len() {
        make_room(&mut lists[i], &changes[i])?;
    }
    Ok(())
}

// Takes room for one number more, where the change appends one.
fn make_room(list: &mut History, change: &Change) -> Result<(), AllocError>
    ensures numbers { list.new.numbers ≡ list.old.numbers }
    ensures room { OnOk result (HasRoom change.now list.new) }
{
    match change {
        Change::Append { register: _ } => list.reserve(),
        Change::Keep => Ok(()),
        Change::Put { w: _, x: _ } => Ok(()),
    }
}
