// How diagrams are put together, as far as patterns tell them apart.

ghost use Rattle.std.specs.Prelude.{◌≡◌, IfSome, IsTrue, Some, None};
ghost use Rattle.std.specs.Bool.{MatchBool};
ghost use Rattle.std.specs.Option.{MatchOption};
ghost use Rattle.fv_diagram.specs.headline.Diagram.{Diagram};
ghost use Rattle.fv_diagram.specs.Arena.{Arena, tree_of, tree_with};
ghost use Rattle.fv_parse_grammar.specs.declared.form.Operator.{Operator as AnOperator};
ghost use Rattle.fv_rules.specs.headline.Matching.{parts_of};
ghost use Rattle.fv_eval_patterns.specs.Patterns.{both_parts};
ghost use Rattle.fv_eval_patterns.specs.Shapes.{composed, number_is};

use fv_diagram::{DiagramId, Node};
use fv_parse_grammar::Operator;

/// One of the five compositions.
#[derive(Clone, Copy, Debug, PartialEq, Eq)]
pub enum Composition {
    Recursion,
    Parallel,
    Sequence,
    Split,
    Merge,
}

/// What patterns see of a diagram: in place of its parts there are the rows that tell of them.
#[derive(Clone, Copy, Debug, PartialEq, Eq)]
pub enum Shape {
    Number(i32),
    /// It has no number, and is no composition.
    Plain,
    /// It has no number, and is a composition of what two rows tell of.
    Composed {
        by: Composition,
        left: u64,
        right: u64,
    },
}

/// The composition that a node is, and its parts.
pub(crate) fn composition_of(node: Node) -> Option<(Composition, DiagramId, DiagramId)>
    ensures trees { (a : Arena) → MatchOption result ((o : AnOperator) → parts_of o (tree_with a node) ≡ None)
        (λ r. tree_with a node ≡ composed r.0 (tree_of a r.1) (tree_of a r.2)) }
    ensures both { IfSome result (λ r. both_parts node ≡ Some (r.1, r.2)) }
{
    match node {
        Node::Rec { left, right } => Some((Composition::Recursion, left, right)),
        Node::Par { left, right } => Some((Composition::Parallel, left, right)),
        Node::Seq { left, right } => Some((Composition::Sequence, left, right)),
        Node::Split { left, right } => Some((Composition::Split, left, right)),
        Node::Merge { left, right } => Some((Composition::Merge, left, right)),
        _ => None,
    }
}

/// Whether an operator stands for a composition.
pub(crate) fn stands_for(operator: Operator, by: Composition) -> bool
    ensures { (x y : Diagram) → MatchBool result (parts_of operator (composed by x y) ≡ Some (x, y))
        (parts_of operator (composed by x y) ≡ None) }
{
    match (operator, by) {
        (Operator::Recursion, Composition::Recursion) => true,
        (Operator::Parallel, Composition::Parallel) => true,
        (Operator::Sequence, Composition::Sequence) => true,
        (Operator::Split, Composition::Split) => true,
        (Operator::Merge, Composition::Merge) => true,
        _ => false,
    }
}

/// Whether a shape is that of diagrams with this number.
pub(crate) fn number_is(shape: Shape, k: i32) -> bool
    ensures { result ≡ number_is k shape }
{
    match shape {
        Shape::Number(n) => n == k,
        _ => false,
    }
}

/// Whether shapes are the same.
pub(crate) fn is_same_shape(x: &Shape, y: &Shape) -> bool
    ensures { IsTrue result → x.now ≡ y.now }
{
    x == y
}
