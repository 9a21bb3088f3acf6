// Diagrams that are put one after another.

ghost use Rattle.std.specs.Prelude.{◌≡◌, OnOk, IsTrue};
ghost use Rattle.fv_diagram.specs.Arena.{count_of};
ghost use Rattle.test_diagrams.specs.Built.{AllCanRun, IsAllowed};

use crate::item::{Item, node_of};
use fv_arity::{ArityRefusal, arity_of};
use fv_diagram::{Arity, Diagrams, Node, PutRefusal};
use std::alloc::{AllocError, Global};
use std::marker::Model;

/// What keeps an item from being tried.
#[derive(PartialEq, Eq, Debug, Drop)]
pub enum Unput {
    /// It names a diagram or a control that is not there, or it is one too many.
    NotAllowed,
    /// Its parts do not fit.
    Arity(ArityRefusal),
}

impl From<ArityRefusal> for Unput {
    fn from(refusal: ArityRefusal) -> Unput {
        Unput::Arity(refusal)
    }
}

// How many diagrams there may be.
const MOST: u64 = 1_000_000;

/// Diagrams without slots, with two controls at most. Each of them can run.
#[derive(Drop)]
pub struct Build {
    diagrams: Diagrams,
    count: u64,
    lists: u64,
}

impl Model for Build {
    ghost use Rattle.std.specs.Prelude.{◌≡◌, length};
    ghost use Rattle.fv_diagram.specs.Arena.{Arena, count_of};
    ghost use Rattle.test_diagrams.specs.Built.{AllCanRun};

    ghost Value = { Arena };

    ghost view = { λ a. a.diagrams };

    ghost invariant = { λ a. (a.count ≡ count_of a.diagrams) × (a.lists ≡ length a.diagrams.lists) × AllCanRun a.diagrams };
}

// Whether a node may be put over the first `count` diagrams and the first `lists` lists.
fn is_allowed(node: &Node, count: u64, lists: u64) -> bool
    ensures { IsTrue result → IsAllowed count lists node.now }
{
    match node {
        Node::Prim(prim) => !prim.is_table(),
        Node::Number(_) => true,
        Node::Control(k) => *k < 2,
        Node::Slot(_) => false,
        Node::Wave(table) => *table < lists,
        Node::Table { table, writes: _ } => *table < lists,
        Node::Bind { slot: _, body } => body.number() < count,
        Node::Par { left, right } => left.number() < count && right.number() < count,
        Node::Seq { left, right } => left.number() < count && right.number() < count,
        Node::Split { left, right } => left.number() < count && right.number() < count,
        Node::Merge { left, right } => left.number() < count && right.number() < count,
        Node::Rec { left, right } => left.number() < count && right.number() < count,
    }
}

// Refuses a node that may not be put over the first `count` diagrams and the first `lists` lists.
fn allow(node: &Node, count: u64, lists: u64) -> Result<(), Unput>
    ensures { OnOk result (IsAllowed count lists node.now) }
{
    if is_allowed(node, count, lists) {
        Ok(())
    } else {
        Err(Unput::NotAllowed)
    }
}

impl Build {
    /// No diagrams.
    pub fn new(alloc: Global) -> Build {
        Build {
            diagrams: Diagrams::new(alloc),
            count: 0,
            lists: 0,
        }
    }

    /// The diagrams.
    pub fn diagrams(&self) -> &Diagrams
        ensures value { result.now ≡ self.now }
        ensures run { AllCanRun result.now }
    {
        &self.diagrams
    }

    /// How many there are.
    pub fn count(&self) -> u64
        ensures { result ≡ count_of self.now }
    {
        self.count
    }

    /// Keeps a list of numbers, and says which one it is; `None` where it has none, or is one too many.
    pub fn table(&mut self, alloc: Global, values: &[i32]) -> Result<Option<u64>, AllocError> {
        if values.is_empty() || self.lists >= MOST {
            return Ok(None);
        }
        match self.diagrams.table(alloc, values) {
            Ok(table) => {
                self.lists += 1;
                Ok(Some(table))
            }
            Err(error) => Err(error),
        }
    }

    /// Puts a node, or says why it is refused.
    pub fn put(&mut self, item: Item) -> Result<Option<PutRefusal>, Unput> {
        let node = &node_of(item);
        if self.count >= MOST {
            return Err(Unput::NotAllowed);
        }
        allow(node, self.count, self.lists)?;
        let arity = arity_of(&self.diagrams, *node)?;
        match self.diagrams.put(*node, arity) {
            Ok(_) => {
                self.count += 1;
                Ok(None)
            }
            Err(e) => Ok(Some(e)),
        }
    }

    /// The arity of a node.
    pub fn arity(&self, item: Item) -> Result<Arity, Unput> {
        let node = &node_of(item);
        allow(node, self.count, self.lists)?;
        Ok(arity_of(&self.diagrams, *node)?)
    }
}
