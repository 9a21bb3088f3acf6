// Diagrams that were put lately, found by their nodes.

ghost use Rattle.std.specs.Prelude.{ℕ, ◌≡◌, ◌<◌, [], length, All, IfSome, IsTrue};

use fv_diagram::{DiagramId, Node, Prim};
use std::alloc::{AllocError, Global};
use std::marker::Model;

/// How many places there are at first; then they double up to `MOST`. Both are powers of two.
const FEWEST: usize = 256;

const MOST: usize = 65_536;

/// A direct-mapped cache of diagrams that were put. Each node has one place; a later one evicts what it has.
#[derive(Drop)]
pub(crate) struct Recent {
    places: Vec<DiagramId>,
    /// How many were kept.
    kept: u64,
}

impl Model for Recent {
    ghost use Rattle.std.specs.Prelude.{List, ℕ};

    ghost Value = { List ℕ };

    ghost view = { λ r. r.places.items };
}

impl Recent {
    /// None.
    pub(crate) fn new(alloc: Global) -> Recent
        ensures { result ≡ [] }
    {
        Recent {
            places: Vec::new(alloc),
            kept: 0,
        }
    }

    // The place of a node, where there are places.
    fn place(&self, node: &Node) -> Option<usize>
        ensures { IfSome result (λ i. i < length self.now) }
    {
        let count = self.places.len() as u64;
        if count == 0 {
            return None;
        }
        // The count is a power of two, unless a growth was refused.
        Some((mixed(node) & (count - 1)) as usize)
    }

    /// A diagram that may have this node.
    pub(crate) fn get(&self, node: &Node) -> Option<DiagramId>
        ensures { (n : ℕ) → All (λ i. i < n) self.now → IfSome result (λ i. i < n) }
    {
        match self.place(node) {
            Some(i) => Some(self.places[i]),
            None => None,
        }
    }

    /// Keeps the diagram with this node. What there is no memory for is not kept.
    pub(crate) fn keep(&mut self, node: &Node, id: DiagramId)
        ensures { (n : ℕ) → All (λ i. i < n) self.old → id < n → All (λ i. i < n) self.new }
    {
        let _refused = self.widen(id);
        self.kept = self.kept.saturating_add(1);
        if let Some(i) = self.place(node) {
            self.places[i] = id;
        }
    }

    // Doubles the places once as many diagrams were kept.
    fn widen(&mut self, id: DiagramId) -> Result<(), AllocError>
        ensures { (n : ℕ) → All (λ i. i < n) self.old → id < n → All (λ i. i < n) self.new }
    {
        let count = self.places.len();
        if self.kept < count as u64 || count >= MOST {
            return Ok(());
        }
        let wanted = if count < FEWEST { FEWEST } else { 2 * count };
        'widen: while self.places.len() < wanted {
            self.places.push(id)?;
        }
        Ok(())
    }
}

/// Whether nodes are the same number, or the same composition of the same diagrams. Others are not told to be the same.
pub(crate) fn is_same(a: &Node, b: &Node) -> bool
    ensures { IsTrue result → a.now ≡ b.now }
{
    match *a {
        Node::Number(n) => match *b {
            Node::Number(m) => n == m,
            _ => false,
        },
        Node::Par { left, right } => match *b {
            Node::Par { left: l, right: r } => left.number() == l.number()
                && right.number() == r.number(),
            _ => false,
        },
        Node::Seq { left, right } => match *b {
            Node::Seq { left: l, right: r } => left.number() == l.number()
                && right.number() == r.number(),
            _ => false,
        },
        Node::Split { left, right } => match *b {
            Node::Split { left: l, right: r } => left.number() == l.number()
                && right.number() == r.number(),
            _ => false,
        },
        Node::Merge { left, right } => match *b {
            Node::Merge { left: l, right: r } => left.number() == l.number()
                && right.number() == r.number(),
            _ => false,
        },
        Node::Rec { left, right } => match *b {
            Node::Rec { left: l, right: r } => left.number() == l.number()
                && right.number() == r.number(),
            _ => false,
        },
        _ => false,
    }
}

// A hash of a node. Equal nodes have the same one.
fn mixed(node: &Node) -> u64 {
    match *node {
        Node::Prim(prim) => mixed_by(1, of_primitive(prim), 0),
        Node::Number(n) => mixed_by(2, u64::from(n.unsigned_abs()), 0),
        Node::Control(k) => mixed_by(3, u64::from(k), 0),
        Node::Slot(slot) => mixed_by(4, slot, 0),
        Node::Wave(table) => mixed_by(5, table, 0),
        Node::Table { table, writes: _ } => mixed_by(6, table, 0),
        Node::Bind { slot, body } => mixed_by(7, slot, body.number()),
        Node::Par { left, right } => mixed_by(8, left.number(), right.number()),
        Node::Seq { left, right } => mixed_by(9, left.number(), right.number()),
        Node::Split { left, right } => mixed_by(10, left.number(), right.number()),
        Node::Merge { left, right } => mixed_by(11, left.number(), right.number()),
        Node::Rec { left, right } => mixed_by(12, left.number(), right.number()),
    }
}

// A hash of three numbers, whose lowest bits depend on all of them.
fn mixed_by(kind: u64, first: u64, second: u64) -> u64 {
    let whole = first
        .wrapping_mul(0x9e37_79b9_7f4a_7c15)
        .wrapping_add(second)
        .wrapping_mul(0xc2b2_ae3d_27d4_eb4f)
        .wrapping_add(kind);
    whole ^ (whole >> 32)
}

// A hash of a primitive. All operations share one.
fn of_primitive(prim: Prim) -> u64 {
    match prim {
        Prim::Wire => 1,
        Prim::Cut => 2,
        Prim::Mem => 3,
        Prim::Prefix => 4,
        Prim::Delay => 5,
        Prim::Int => 6,
        Prim::Attach => 7,
        Prim::ReadTable => 8,
        Prim::WriteTable => 9,
        Prim::Point(op) => 10 + op as u64,
    }
}
