// Parts that wait for what stands to the right of their operators.

ghost use Rattle.std.specs.Prelude.{◌<◌, length, IfOk};
ghost use Rattle.fv_parse_tree.specs.Arena.{trees, AreInside, Joins};

use crate::arena::Arena;
use crate::node::{TreeId, TreeNode};
use fv_parse_grammar::Operator;
use std::alloc::AllocError;

/// A part that waits for what stands to the right of its operator.
#[derive(Debug, Drop)]
pub(crate) struct Pending {
    pub(crate) left: TreeId,
    pub(crate) op: Operator,
    pub(crate) start: usize,
}

/// Joins the parts to the right.
pub(crate) fn join(
    arena: &mut Arena,
    pending: Vec<Pending>,
    last: TreeId,
) -> Result<TreeId, AllocError>
    requires last { last < length (trees arena.old) }
    requires parts { AreInside (trees arena.old) pending.items }
    ensures { IfOk result (λ id. Joins (trees arena.old) (trees arena.new) pending.items last id) }
{
    let mut pending = pending;
    let mut tree = last;
    while let Some(part) = pending.pop() {
        tree = arena.push(TreeNode::Binary(part.op, part.left, tree), part.start)?;
    }
    Ok(tree)
}
