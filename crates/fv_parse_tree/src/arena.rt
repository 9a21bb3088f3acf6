ghost use Rattle.std.specs.Prelude.{◌≡◌, [], IfOk, length};
ghost use Rattle.fv_parse_tree.specs.Arena.{trees, Adds, PartsBelow, AreBuilt};

use crate::node::{TreeId, TreeNode};
use std::alloc::{AllocError, Global};
use std::marker::Model;

/// A node, with its place.
#[derive(Debug, Drop)]
pub struct Entry {
    /// The node.
    pub node: TreeNode,
    /// The number of tokens from its first one to the end of the text.
    pub start: u64,
}

/// Nodes in order. A node's parts stand before it.
#[derive(Debug, Drop)]
pub struct Arena {
    pub(crate) entries: Vec<Entry>,
}

impl Model for Arena {
    ghost use Rattle.std.specs.Prelude.{List, []};
    ghost use Rattle.fv_parse_tree.specs.declared.arena.Entry.{Entry};

    ghost Value = { List Entry };

    ghost use Rattle.fv_parse_tree.specs.Arena.{AreOver};

    ghost view = { λ a. a.entries.items };

    ghost invariant = { λ a. AreOver a.entries.items };
}

impl Arena {
    pub(crate) fn new(alloc: Global) -> Self
        ensures { trees result ≡ [] }
    {
        Arena {
            entries: Vec::new(alloc),
        }
    }

    /// Adds a node and returns its number.
    pub(crate) fn push(&mut self, node: TreeNode, start: usize) -> Result<TreeId, AllocError>
        requires { PartsBelow (length (trees self.old)) node }
        ensures { IfOk result (λ id. Adds (trees self.old) (trees self.new) id node start) }
    {
        let id = TreeId::new(self.entries.len() as u64);
        self.entries.push(Entry {
            node,
            start: start as u64,
        })?;
        Ok(id)
    }

    /// The nodes, in order.
    pub fn into_entries(self) -> Vec<Entry>
        ensures same { result.items ≡ self }
        ensures built { AreBuilt result.items }
    {
        self.entries
    }
}
