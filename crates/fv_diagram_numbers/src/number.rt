// The number of a diagram.

ghost use Rattle.std.specs.Prelude.{◌≡◌, ◌<◌, IfOk, IfSome, Some};
ghost use Rattle.fv_diagram.specs.Composed.{IsComposed};
ghost use Rattle.fv_diagram.specs.Arena.{count_of, tree_of};
ghost use Rattle.fv_diagram_numbers.specs.headline.Numbers.{number_of};

use crate::timeless::value_of;
use fv_diagram::{DiagramId, Diagrams, Node, Prim};
use fv_num::apply;
use std::alloc::{AllocError, Global};

/// The number of a diagram, its value at time 0; `None` where it has none.
pub fn number_of(
    alloc: Global,
    diagrams: &Diagrams,
    id: DiagramId,
) -> Result<Option<i32>, AllocError>
    requires inside { id < count_of diagrams.now }
    requires composed { IsComposed (tree_of diagrams.now id) }
    ensures { IfOk result (λ o. o ≡ number_of (tree_of diagrams.now id)) }
{
    let arity = diagrams.arity(id);
    if arity.inputs != 0 || arity.outputs != 1 {
        return Ok(None);
    }
    match at_sight(diagrams, id) {
        Some(n) => Ok(Some(n)),
        None => value_of(alloc, diagrams, id),
    }
}

// The number of an integer, or of an operation on two integers: most of the diagrams that are asked for. It takes no memory.
fn at_sight(diagrams: &Diagrams, id: DiagramId) -> Option<i32>
    requires inside { id < count_of diagrams.now }
    requires composed { IsComposed (tree_of diagrams.now id) }
    ensures { IfSome result (λ n. number_of (tree_of diagrams.now id) ≡ Some n) }
{
    match diagrams.node(id) {
        Node::Number(n) => Some(n),
        Node::Seq { left, right } => {
            let Node::Prim(Prim::Point(op)) = diagrams.node(right) else {
                return None;
            };
            let Node::Par {
                left: first,
                right: second,
            } = diagrams.node(left)
            else {
                return None;
            };
            let Node::Number(x) = diagrams.node(first) else {
                return None;
            };
            let Node::Number(y) = diagrams.node(second) else {
                return None;
            };
            Some(apply(op, &[x, y]))
        }
        _ => None,
    }
}
