// A part of the region, cells of which parts are cut, and the cutter that gives the parts of a layout in their order.

ghost use Rattle.std.specs.Prelude.{◌≡◌, ◌≤◌, ◌<◌, ◌↔◌, length, take, drop, sum, IfSome, IfNone, IsSome, IsTrue};
ghost use Rattle.fv_pool.specs.Layout.{HaveRoom};

use crate::cells::Cells;
use crate::layout::Layout;
use crate::loan::{Ended, Halves, Link};
use std::mem::take as taken;

/// One part: its cells, how many they are, and how the loan that it was cut from ends.
#[derive(Drop)]
pub struct Part<'a> {
    pub cells: Cells<'a>,
    pub len: usize,
    pub halves: Halves,
    ghost is_low: { (halves.low ≡ cells.name) × (len ≡ length cells.items) },
}

/// Cells of which parts are cut, one after the other.
#[derive(Drop)]
pub struct Uncut<'a> {
    cells: &'a mut [i32],
}

/// Gives the parts of a layout, one after the other.
#[derive(Drop)]
pub struct Cutter<'a> {
    rest: Uncut<'a>,
    layout: &'a Layout,
    given: u64,
    ghost fits: { HaveRoom (drop given layout.now) rest.cells.now },
}

impl<'a> Part<'a> {
    /// The cells of the part.
    pub fn into_slice(self) -> &'a mut [i32]
        ensures cells { result.now ≡ self.entry.cells.items }
        ensures loan { result.ghost_name ≡ self.entry.cells.name }
    {
        let Part {
            cells,
            len,
            halves: _,
        } = self;
        cells.into_slice(len)
    }
}

impl<'a> Uncut<'a> {
    ghost use Rattle.fv_pool.specs.Uncut.{left_of, loan_of, IsCut};

    /// Nothing is cut off yet.
    pub fn of(cells: &'a mut [i32]) -> Uncut<'a>
        ensures cells { left_of result ≡ cells.old }
        ensures loan { loan_of result ≡ cells.entry.ghost_name }
    {
        Uncut { cells }
    }

    /// The number of cells that are left.
    pub fn len(&self) -> usize
        ensures { result ≡ length (left_of self.now) }
    {
        self.cells.len()
    }

    /// Whether no cells are left.
    pub fn is_empty(&self) -> bool
        ensures { IsTrue result ↔ (length (left_of self.now) ≡ 0) }
    {
        self.cells.is_empty()
    }

    /// Cuts off the next `len` cells, as they are.
    pub fn next(&mut self, len: usize) -> Part<'a>
        requires { len ≤ length (left_of self.old) }
        ensures { IsCut self.old self.new len result }
    {
        let cells = taken(&mut self.cells);
        let (low, high, halves) = Halves::cut(cells, len);
        self.cells = high;
        Part {
            cells: Cells::of(low),
            len,
            halves,
        }
    }

    /// How the loan of what is left ends: as it is. It is shared from then on.
    pub fn end(self) -> (&'a [i32], Ended)
        ensures cells { result.0.now ≡ left_of self.entry }
        ensures ended { (result.1.name ≡ loan_of self.entry) × (result.1.last ≡ left_of self.entry) }
    {
        let (_none, rest, link) = Link::start(self.cells);
        link.end(rest)
    }
}

impl<'a> Cutter<'a> {
    ghost use Rattle.fv_pool.specs.Parts.{parts_of, given_by, IsCutter, Gives};

    // Over the whole of the cells.
    pub(crate) fn over(cells: &'a mut [i32], layout: &'a Layout) -> Cutter<'a>
        requires { HaveRoom layout.now cells.old }
        ensures loan { result.rest.cells.ghost_name ≡ cells.entry.ghost_name }
        ensures cutter { IsCutter layout.now 0 cells.old result }
    {
        Cutter {
            rest: Uncut::of(cells),
            layout,
            given: 0,
        }
    }

    /// Gives the next part, with its cells as they are. There is none exactly where all have been given.
    pub fn next(&mut self) -> Option<Part<'a>>
        ensures some { IsSome result ↔ (given_by self.old < length (parts_of self.old)) }
        ensures part { IfSome result (λ p. Gives self.old self.new p) }
        ensures none { IfNone result (self.new ≡ self.old) }
    {
        if self.given >= self.layout.len() {
            return None;
        }
        let length = self.layout.length(self.given) as usize;
        self.given += 1;
        Some(self.rest.next(length))
    }
}
