// Putting a diagram.

ghost use Rattle.std.specs.Prelude.{ℕ, ◌≡◌, ◌<◌, length, IfOk, OnOk, OnErr};
ghost use Rattle.fv_arity.specs.Compositions.{HasComposedParts};
ghost use Rattle.fv_diagram.specs.Composed.{IsComposed};
ghost use Rattle.fv_diagram.specs.Arena.{count_of, tree_with, tree_of, with_node, ChildrenBelow, NamesLists};
ghost use Rattle.fv_rules.specs.Puts.{Puts};

use crate::refusal::EvalRefusal;
use fv_arity::{ArityRefusal, arity_of};
use fv_diagram::{DiagramId, Diagrams, Node, PutRefusal};

/// Puts a node over diagrams as it is: its arity is tried first, then its size.
pub fn put(diagrams: &mut Diagrams, node: &Node) -> Result<DiagramId, EvalRefusal>
    requires children { ChildrenBelow (count_of diagrams.old) node.now }
    requires lists { NamesLists (length diagrams.old.lists) node.now }
    ensures put { Puts diagrams.new (tree_with diagrams.old node.now) result }
    // Just that node is added, and it is composed where its parts are.
    ensures added { IfOk result (λ i. (i ≡ count_of diagrams.old) × (diagrams.new ≡ with_node diagrams.old node.now)) }
    ensures composed { OnOk result (HasComposedParts (tree_with diagrams.old node.now)
        → IsComposed (tree_with diagrams.old node.now)) }
    ensures keeps { (i : ℕ) → i < count_of diagrams.old → tree_of diagrams.new i ≡ tree_of diagrams.old i }
    ensures err { OnErr result (diagrams.new ≡ diagrams.old) }
{
    match arity_of(diagrams, *node) {
        Err(ArityRefusal::Arity { kind, left, right }) => {
            Err(EvalRefusal::Arity { kind, left, right })
        }
        Ok(arity) => match diagrams.put(*node, arity) {
            Ok(id) => Ok(id),
            Err(PutRefusal::SizeBudget { size }) => Err(EvalRefusal::SizeBudget { size }),
            Err(PutRefusal::NoMemory) => Err(EvalRefusal::NoMemory),
        },
    }
}
