// Rows of numbers that lie one after another (compressed sparse rows): two allocations, however many rows there are.

ghost use Rattle.std.specs.Prelude.{◌≡◌, ◌<◌, [], ◌∷◌, ◌++◌, length, drop, IfOk, OnOk, OnErr};
ghost use Rattle.fv_components.specs.Packed.{end_of as end_of_row};
ghost use Rattle.fv_components.specs.Reach.{next_of};

use std::alloc::{AllocError, Global};
use std::marker::Model;

/// Rows of numbers, as the nodes that each node leads to.
#[derive(Drop)]
pub struct Rows {
    // Where each row begins among the numbers.
    starts: Vec<u64>,
    numbers: Vec<u64>,
}

impl Model for Rows {
    ghost use Rattle.std.specs.Prelude.{List, ℕ, length};
    ghost use Rattle.fv_components.specs.Packed.{cut, AreStarts};

    ghost Value = { List (List ℕ) };

    ghost view = { λ a. cut a.starts.items a.numbers.items };

    ghost invariant = { λ a. AreStarts a.starts.items (length a.numbers.items) };
}

// Where a row ends: where the row at this index begins, or at the end of all.
fn end_of(starts: &[u64], next: usize, all: usize) -> usize
    ensures { result ≡ end_of_row (drop next starts.now) all }
{
    match starts.get(next) {
        Some(end) => *end as usize,
        None => all,
    }
}

impl Rows {
    /// No rows.
    pub fn new(alloc: Global) -> Rows
        ensures { result ≡ [] }
    {
        Rows {
            starts: Vec::new(alloc),
            numbers: Vec::new(alloc),
        }
    }

    /// No rows, with room for `rows` rows and for as many numbers.
    pub fn with_capacity(alloc: Global, rows: u64) -> Result<Rows, AllocError>
        ensures { IfOk result (λ made. made ≡ []) }
    {
        let starts = Vec::with_capacity(alloc, rows as usize)?;
        let numbers = Vec::with_capacity(alloc, rows as usize)?;
        Ok(Rows { starts, numbers })
    }

    /// How many rows there are.
    pub fn len(&self) -> u64
        ensures { result ≡ length self.now }
    {
        self.starts.len() as u64
    }

    /// A row.
    pub fn row(&self, i: u64) -> &[u64]
        requires { i < length self.now }
        ensures { result.now ≡ next_of self.now i }
    {
        let start = self.starts[i as usize] as usize;
        let end = end_of(&self.starts, i as usize + 1, self.numbers.len());
        &self.numbers[start..end]
    }

    /// Adds a row after the others.
    pub fn push(&mut self, row: &[u64]) -> Result<(), AllocError>
        ensures pushes { OnOk result (self.new ≡ self.old ++ row.now ∷ []) }
        ensures unchanged { OnErr result (self.new ≡ self.old) }
    {
        let start = self.numbers.len() as u64;
        self.starts.reserve(1)?;
        self.numbers.extend_from_slice(row)?;
        self.starts.push_reserved(start);
        Ok(())
    }
}
