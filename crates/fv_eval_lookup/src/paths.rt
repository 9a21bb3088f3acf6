// Positions within the arguments of rules: parts of patterns, and of diagrams.

ghost use Rattle.std.specs.Prelude.{ℕ, ◌≡◌, ◌<◌, All, IfOk, IfSome, Some, option_map, slice_get};
ghost use Rattle.fv_diagram.specs.Composed.{IsComposed};
ghost use Rattle.fv_diagram.specs.Arena.{Arena, count_of, tree_of, tree_with};
ghost use Rattle.fv_rules.specs.Numbers.{number_of};
ghost use Rattle.fv_parse.specs.Trees.{size_of, tree_in};
ghost use Rattle.fv_rules.specs.headline.Values.{rule_of};
ghost use Rattle.fv_eval_scopes.specs.Memo.{Remembers};
ghost use Rattle.fv_eval_patterns.specs.Patterns.{ArePartsOf, are_parts, both_parts};
ghost use Rattle.fv_eval_lookup.specs.Positions.{both_of, both_without, composition_key, diagram_key, diagram_part};
ghost use Rattle.fv_eval_lookup.specs.Positions.{number_key, operator_key, pattern_part, side_of, want_at, wanted};

use crate::first_rule::patterns_of;
use fv_diagram::{DiagramId, Diagrams, Node};
use fv_eval_scopes::Numbers;
use fv_parse::{Tree, TreeId, TreeNode};
use fv_parse_grammar::Operator;
use fv_rules::{literal, negative_literal};
use std::alloc::{AllocError, Global};

/// Which part of a composition.
#[derive(Clone, Copy, Debug)]
pub(crate) enum Side {
    Left,
    Right,
}

/// Where a position is: in which argument, and the sides that lead to it from there.
#[derive(Drop)]
pub(crate) struct Path {
    pub(crate) argument: u64,
    pub(crate) sides: Vec<Side>,
}

impl Path {
    /// One side further.
    pub(crate) fn to(&self, alloc: Global, side: Side) -> Result<Path, AllocError> {
        let mut sides = Vec::from_slice(alloc, self.sides.as_slice())?;
        sides.push(side)?;
        Ok(Path {
            argument: self.argument,
            sides,
        })
    }
}

/// Keys below this one are those of compositions.
pub(crate) const COMPOSITIONS: u64 = 5;

// The key of an operator.
fn operator_key(operator: Operator) -> u64
    ensures { result ≡ operator_key operator }
{
    match operator {
        Operator::Recursion => 0,
        Operator::Parallel => 1,
        Operator::Sequence => 2,
        Operator::Split => 3,
        Operator::Merge => 4,
        Operator::Infix(_) => COMPOSITIONS,
    }
}

// The key of a number.
fn number_key(n: i32) -> u64
    ensures { result ≡ number_key n }
{
    u64::from(n.unsigned_abs()) + 6
}

// The key that a pattern wants.
fn wanted(tree: &Tree, pattern: TreeId) -> Option<u64>
    requires { pattern < size_of tree.now }
    ensures { result ≡ wanted (tree_in tree.now pattern) }
{
    match tree.node(pattern) {
        TreeNode::Number(n) => Some(number_key(literal(*n))),
        TreeNode::Negative(n) => Some(number_key(negative_literal(*n))),
        TreeNode::Binary(operator, _, _) => Some(operator_key(*operator)),
        _ => None,
    }
}

// The part of a pattern to which sides lead.
fn pattern_part(tree: &Tree, pattern: TreeId, sides: &[Side]) -> Option<TreeId>
    requires { pattern < size_of tree.now }
    ensures part { option_map (tree_in tree.now) result ≡ pattern_part sides.now (tree_in tree.now pattern) }
    ensures there { IfSome result (λ i. i < size_of tree.now) }
{
    let mut at = pattern;
    for side in sides {
        match tree.node(at) {
            TreeNode::Binary(_, left, right) => at = side_of(*side, *left, *right),
            _ => return None,
        }
    }
    Some(at)
}

// One of two parts of a pattern.
fn side_of(side: Side, left: TreeId, right: TreeId) -> TreeId
    ensures { result ≡ side_of side left right }
{
    match side {
        Side::Left => left,
        Side::Right => right,
    }
}

/// What a rule wants at a position.
pub(crate) fn want_at(tree: &Tree, rule: TreeId, path: &Path) -> Option<u64>
    requires { rule < size_of tree.now }
    ensures { result ≡ want_at path.now (rule_of (tree_in tree.now rule)) }
{
    let patterns = patterns_of(tree, rule);
    let i = path.argument as usize;
    if i >= patterns.len() {
        return None;
    }
    let part = pattern_part(tree, patterns[i], path.sides.as_slice())?;
    wanted(tree, part)
}

// The parts of a node that is a composition.
fn both_of(node: Node) -> Option<(DiagramId, DiagramId)>
    ensures trees { (a : Arena) → option_map (are_parts a) result ≡ both_of (tree_with a node) }
    ensures both { IfSome result (λ ij. both_parts node ≡ Some ij) }
{
    match node {
        Node::Rec { left, right } => Some((left, right)),
        Node::Par { left, right } => Some((left, right)),
        Node::Seq { left, right } => Some((left, right)),
        Node::Split { left, right } => Some((left, right)),
        Node::Merge { left, right } => Some((left, right)),
        _ => None,
    }
}

// The parts of a diagram without a number that is put as a composition.
fn both_without(
    alloc: Global,
    diagrams: &Diagrams,
    numbers: &mut Numbers,
    id: DiagramId,
) -> Result<Option<(DiagramId, DiagramId)>, AllocError>
    requires inside { id < count_of diagrams.now }
    requires composed { IsComposed (tree_of diagrams.now id) }
    requires known { Remembers diagrams.now numbers.old }
    ensures known { Remembers diagrams.now numbers.new }
    ensures parts { IfOk result (λ o. option_map (are_parts diagrams.now) o
        ≡ both_without (number_of (tree_of diagrams.now id)) (tree_of diagrams.now id)) }
    ensures there { IfOk result (λ o. IfSome o (ArePartsOf diagrams.now id)) }
{
    if numbers.number_of(alloc, diagrams, id)?.is_some() {
        return Ok(None);
    }
    let both = both_of(diagrams.node(id));
    Ok(both)
}

/// The part of a diagram to which sides lead.
pub(crate) fn diagram_part(
    alloc: Global,
    diagrams: &Diagrams,
    numbers: &mut Numbers,
    id: DiagramId,
    sides: &[Side],
) -> Result<Option<DiagramId>, AllocError>
    requires inside { id < count_of diagrams.now }
    requires composed { IsComposed (tree_of diagrams.now id) }
    requires known { Remembers diagrams.now numbers.old }
    ensures known { Remembers diagrams.now numbers.new }
    ensures part { IfOk result (λ o. option_map (tree_of diagrams.now) o ≡ diagram_part sides.now (tree_of diagrams.now id)) }
    ensures there { IfOk result (λ o. IfSome o (λ i. (i < count_of diagrams.now) × IsComposed (tree_of diagrams.now i))) }
{
    let mut at = id;
    for side in sides {
        let Some(both) = both_without(alloc, diagrams, numbers, at)? else {
            return Ok(None);
        };
        at = match side {
            Side::Left => both.0,
            Side::Right => both.1,
        };
    }
    Ok(Some(at))
}

// The key of a node that has no number.
fn composition_key(node: Node) -> u64
    ensures { (a : Arena) → result ≡ composition_key (tree_with a node) }
{
    match node {
        Node::Rec { .. } => 0,
        Node::Par { .. } => 1,
        Node::Seq { .. } => 2,
        Node::Split { .. } => 3,
        Node::Merge { .. } => 4,
        _ => COMPOSITIONS,
    }
}

/// The key of a diagram.
pub(crate) fn diagram_key(
    alloc: Global,
    diagrams: &Diagrams,
    numbers: &mut Numbers,
    id: DiagramId,
) -> Result<u64, AllocError>
    requires inside { id < count_of diagrams.now }
    requires composed { IsComposed (tree_of diagrams.now id) }
    requires known { Remembers diagrams.now numbers.old }
    ensures known { Remembers diagrams.now numbers.new }
    ensures key { IfOk result (λ k. k ≡ diagram_key (tree_of diagrams.now id)) }
{
    match numbers.number_of(alloc, diagrams, id)? {
        Some(n) => Ok(number_key(n)),
        None => Ok(composition_key(diagrams.node(id))),
    }
}
