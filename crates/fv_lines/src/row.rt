// Cells that are filled from the front. What is filled is shared, and never changes again.

ghost use Rattle.std.specs.Prelude.{◌≡◌, length};
ghost use Rattle.fv_lines.specs.Row.{IsRow};

use fv_pool::{Cells, Ended, Link};
use std::mem::replace;

/// A row of cells: those that are filled, the others, how many these are, and what ties the two.
#[derive(Drop)]
pub struct Row<'a> {
    front: &'a [i32],
    rest: Cells<'a>,
    left: usize,
    link: Link,
    ghost count: { left ≡ length rest.items },
    ghost linked: { IsRow link front rest },
}

impl<'a> Row<'a> {
    ghost use Rattle.std.specs.Prelude.{◌≡◌, ◌<◌, ◌≤◌, ◌↔◌, ◌+◌, [], ◌∷◌, ◌++◌, length, take, drop, IsTrue};

    /// Nothing is filled.
    pub(crate) fn new(cells: &'a mut [i32]) -> Row<'a>
        ensures { (result.front.now ≡ []) × (result.rest.items ≡ cells.old) × (result.link.whole ≡ cells.entry.ghost_name) }
    {
        let (front, rest, link) = Link::start(cells);
        let left = rest.len();
        let rest = Cells::of(rest);
        Row {
            front,
            rest,
            left,
            link,
        }
    }

    pub(crate) fn is_full(&self) -> bool
        ensures { IsTrue result ↔ (self.now.rest.items ≡ []) }
    {
        self.left == 0
    }

    /// Fills the next `count` cells with what they hold.
    pub(crate) fn keep(&mut self, count: usize)
        requires { count ≤ length self.old.rest.items }
        ensures { (self.new.front.now ≡ self.old.front.now ++ take count self.old.rest.items)
            × (self.new.rest.items ≡ drop count self.old.rest.items) × (self.new.link.whole ≡ self.old.link.whole) }
    {
        let rest = replace(&mut self.rest, Cells::of(&mut [])).into_slice(self.left);
        let (front, rest) = self.link.share(self.front, rest, count);
        self.front = front;
        self.left = rest.len();
        self.rest = Cells::of(rest);
    }

    /// Fills the next cell.
    pub(crate) fn push(&mut self, value: i32)
        requires { 0 < length self.old.rest.items }
        ensures { (self.new.front.now ≡ self.old.front.now ++ value ∷ [])
            × (self.new.rest.items ≡ drop 1 self.old.rest.items) × (self.new.link.whole ≡ self.old.link.whole) }
    {
        let rest = replace(&mut self.rest, Cells::of(&mut [])).into_slice(self.left);
        rest[0] = value;
        self.rest = Cells::of(rest);
        self.keep(1);
    }

    /// Fills the next cells with these values.
    pub(crate) fn push_many(&mut self, values: &[i32])
        requires { length values.now ≤ length self.old.rest.items }
        ensures { (self.new.front.now ≡ self.old.front.now ++ values.now)
            × (self.new.rest.items ≡ drop (length values.now) self.old.rest.items) × (self.new.link.whole ≡ self.old.link.whole) }
    {
        let count = values.len();
        let rest = replace(&mut self.rest, Cells::of(&mut [])).into_slice(self.left);
        rest[..count].copy_from_slice(values);
        self.rest = Cells::of(rest);
        self.keep(count);
    }

    /// The number of cells that are not filled.
    pub(crate) fn left(&self) -> usize
        ensures { result ≡ length self.now.rest.items }
    {
        self.left
    }

    /// The number of cells.
    pub(crate) fn len(&self) -> usize
        ensures { result ≡ length self.now.front.now + length self.now.rest.items }
    {
        self.front.len() + self.left
    }

    /// What is filled.
    pub(crate) fn filled(&self) -> &'a [i32]
        ensures { result.now ≡ self.now.front.now }
    {
        self.front
    }

    /// How the row's loan ends. What was not filled is shared too.
    pub(crate) fn end(self) -> (&'a [i32], Ended)
        ensures { (result.1.name ≡ self.entry.link.whole) × (result.1.last ≡ self.entry.front.now ++ self.entry.rest.items) }
    {
        self.link.end(self.rest.into_slice(self.left))
    }
}
