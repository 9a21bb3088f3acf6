// Patterns against values.

ghost use Rattle.std.specs.Prelude.{◌≡◌, ◌<◌, [], Some, IfOk, OnOk, IfSome, MatchBool, option_map};
ghost use Rattle.fv_diagram.specs.Composed.{IsComposed};
ghost use Rattle.fv_diagram.specs.Arena.{Arena, count_of, tree_of, tree_with};
ghost use Rattle.fv_parse.specs.Trees.{size_of, tree_in};
ghost use Rattle.fv_rules.specs.headline.Values.{Value as PureValue, Flat};
ghost use Rattle.fv_rules.specs.Numbers.{number_of};
ghost use Rattle.fv_rules.specs.headline.Matching.{Bindings as PureBindings, matched, is_number, parts_of, parts_without};
ghost use Rattle.fv_eval_scopes.specs.Shows.{World, ShowsValue, ShowsBindings};
ghost use Rattle.fv_eval_scopes.specs.Memo.{Remembers, AddsIntegers};
ghost use Rattle.fv_eval_patterns.specs.Patterns.{IsValid, IsNoDiagram, with_diagrams, ShowsMatched, ShowsMatch, IsPair};
ghost use Rattle.fv_eval_patterns.specs.Patterns.{BindsName, Leaves, Refuses, are_parts, both_parts, ArePartsOf};

use crate::all_patterns::Subjects;
use fv_diagram::{DiagramId, Diagrams, Node};
use fv_eval_scopes::{Binding, Numbers, Value};
use fv_parse::{Tree, TreeId, TreeNode, same_names};
use fv_parse_grammar::Operator;
use fv_rules::{literal, negative_literal};
use std::alloc::{AllocError, Global};
use std::marker::Model;

/// A pattern, and the diagram that it is tried on.
#[derive(Clone, Copy, Debug)]
pub struct Pair {
    pub pattern: TreeId,
    pub diagram: DiagramId,
}

/// Names with what they are bound to, in the order in which the patterns bind them.
#[derive(Drop)]
pub struct Bindings {
    list: Vec<Binding>,
}

impl Model for Bindings {
    ghost use Rattle.std.specs.Prelude.{List};
    ghost use Rattle.fv_eval_scopes.specs.declared.value.Binding.{Binding};

    ghost Value = { List Binding };

    ghost view = { λ b. b.list.items };
}

impl Bindings {
    /// The bindings of a list.
    pub fn of(list: Vec<Binding>) -> Bindings
        ensures { result ≡ list.items }
    {
        Bindings { list }
    }

    /// The list.
    pub fn as_slice(&self) -> &[Binding]
        ensures { result.now ≡ self.now }
    {
        self.list.as_slice()
    }
}

/// The bindings of a pattern against a value; `None` where it does not match. It adds integers alone, also where memory runs out.
pub fn matches(
    alloc: Global,
    tree: &Tree,
    pattern: TreeId,
    diagrams: &mut Diagrams,
    argument: &Value,
) -> Result<Option<Bindings>, AllocError>
    requires inside { pattern < size_of tree.now }
    requires argument { IsValid diagrams.old argument.now }
    ensures adds { AddsIntegers diagrams.old diagrams.new }
    ensures matched { IfOk result (λ o. (w : World) (v : PureValue)
        → w.tree ≡ tree.now → w.diagrams ≡ diagrams.old → ShowsValue w argument.now v
        → ShowsMatch (with_diagrams w diagrams.new) o (matched tree.now.tokens (tree_in tree.now pattern) v [])) }
{
    let subjects = Subjects {
        alloc,
        tree,
        values: &[],
    };
    let mut numbers = Numbers::new(alloc);
    let mut found = Vec::new(alloc);
    if subjects.matches_in(pattern, diagrams, &mut numbers, argument, &mut found)? {
        Ok(Some(Bindings::of(found)))
    } else {
        Ok(None)
    }
}

// Binds the name of a token to a value.
fn bind(tree: &Tree, n: u64, value: Value, found: &mut Vec<Binding>) -> Result<(), AllocError>
    ensures { OnOk result (BindsName tree.now n value found.old.items found.new.items) }
{
    same_names(); // For the prover: the token with a token's canonical number has the same bytes.
    let name = tree.name(n);
    found.push(Binding { name, value })?;
    Ok(())
}

// A pattern on a value that is no diagram: a name matches alone.
fn binds_whole(
    tree: &Tree,
    pattern: TreeId,
    argument: &Value,
    found: &mut Vec<Binding>,
) -> Result<bool, AllocError>
    requires inside { pattern < size_of tree.now }
    requires other { IsNoDiagram argument.now }
    ensures matched { IfOk result (λ b. (w : World) (v : PureValue) (bs : PureBindings)
        → w.tree ≡ tree.now → ShowsValue w argument.now v → ShowsBindings w found.old.items bs
        → ShowsMatched w b found.new.items (matched tree.now.tokens (tree_in tree.now pattern) v bs)) }
{
    match tree.node(pattern) {
        TreeNode::Named(n) => {
            bind(tree, *n, *argument, found)?;
            Ok(true)
        }
        _ => Ok(false),
    }
}

impl Subjects<'_> {
    /// Tries a pattern on a value: whether it matches. The bindings are added to those so far. It adds integers alone, also where memory runs out.
    pub(crate) fn matches_in(
        &self,
        pattern: TreeId,
        diagrams: &mut Diagrams,
        numbers: &mut Numbers,
        argument: &Value,
        found: &mut Vec<Binding>,
    ) -> Result<bool, AllocError>
        requires inside { pattern < size_of self.now.tree.now }
        requires argument { IsValid diagrams.old argument.now }
        requires known { Remembers diagrams.old numbers.old }
        ensures adds { AddsIntegers diagrams.old diagrams.new }
        ensures known { Remembers diagrams.new numbers.new }
        ensures matched { IfOk result (λ b. (w : World) (v : PureValue) (bs : PureBindings)
            → w.tree ≡ self.now.tree.now → w.diagrams ≡ diagrams.old → ShowsValue w argument.now v
            → ShowsBindings w found.old.items bs
            → ShowsMatched (with_diagrams w diagrams.new) b found.new.items
            (matched self.now.tree.now.tokens (tree_in self.now.tree.now pattern) v bs)) }
    {
        match argument {
            Value::Diagram(diagram) => {
                let pair = Pair {
                    pattern,
                    diagram: *diagram,
                };
                self.matches_diagram(pair, diagrams, numbers, found)
            }
            Value::Abstraction { .. } | Value::Rules { .. } => binds_whole(
                self.tree, pattern, argument, found,
            ),
        }
    }

    /// A pattern on a diagram: whether it matches. The bindings are added to those so far.
    pub(crate) fn matches_diagram(
        &self,
        whole: Pair,
        diagrams: &mut Diagrams,
        numbers: &mut Numbers,
        found: &mut Vec<Binding>,
    ) -> Result<bool, AllocError>
        requires whole { IsPair self.now.tree.now diagrams.old whole }
        requires known { Remembers diagrams.old numbers.old }
        ensures adds { AddsIntegers diagrams.old diagrams.new }
        ensures known { Remembers diagrams.new numbers.new }
        ensures matched { IfOk result (λ b. (w : World) (bs : PureBindings)
            → w.tree ≡ self.now.tree.now → w.diagrams ≡ diagrams.old → ShowsBindings w found.old.items bs
            → ShowsMatched (with_diagrams w diagrams.new) b found.new.items
            (matched self.now.tree.now.tokens (tree_in self.now.tree.now whole.pattern) (Flat (tree_of diagrams.old whole.diagram)) bs)) }
    {
        // A name and a number wait for nothing, so no memory is taken for them.
        let mut pending = Vec::new(self.alloc);
        if !self.advance(whole, diagrams, numbers, &mut pending, found)? {
            return Ok(false);
        }
        while let Some(pair) = pending.pop() {
            if !self.advance(pair, diagrams, numbers, &mut pending, found)? {
                return Ok(false);
            }
        }
        Ok(true)
    }

    // One pattern on one diagram: whether they may match still. The parts of a composition wait.
    fn advance(
        &self,
        pair: Pair,
        diagrams: &mut Diagrams,
        numbers: &mut Numbers,
        pending: &mut Vec<Pair>,
        found: &mut Vec<Binding>,
    ) -> Result<bool, AllocError>
        requires pair { IsPair self.now.tree.now diagrams.old pair }
        requires known { Remembers diagrams.old numbers.old }
        ensures adds { AddsIntegers diagrams.old diagrams.new }
        ensures known { Remembers diagrams.new numbers.new }
        ensures matched { IfOk result (λ b. MatchBool b
            (Leaves self.now.tree.now diagrams.old diagrams.new pair pending.old.items pending.new.items found.old.items found.new.items)
            (Refuses self.now.tree.now diagrams.old pair)) }
    {
        match self.tree.node(pair.pattern) {
            TreeNode::Named(n) => {
                let settled = numbers.settle(self.alloc, diagrams, pair.diagram)?;
                bind(self.tree, *n, Value::Diagram(settled), found)?;
                Ok(true)
            }
            TreeNode::Number(n) => {
                let k = literal(*n);
                let same = has_number(self.alloc, diagrams, numbers, pair.diagram, k)?;
                Ok(same)
            }
            TreeNode::Negative(n) => {
                let k = negative_literal(*n);
                let same = has_number(self.alloc, diagrams, numbers, pair.diagram, k)?;
                Ok(same)
            }
            TreeNode::Binary(operator, p, q) => {
                let parts = parts_of(self.alloc, diagrams, numbers, *operator, pair.diagram)?;
                match parts {
                    None => Ok(false),
                    Some(both) => {
                        pending.push(Pair {
                            pattern: *q,
                            diagram: both.1,
                        })?;
                        pending.push(Pair {
                            pattern: *p,
                            diagram: both.0,
                        })?;
                        Ok(true)
                    }
                }
            }
            _ => Ok(false),
        }
    }
}

/// Whether a diagram has this number.
pub(crate) fn has_number(
    alloc: Global,
    diagrams: &Diagrams,
    numbers: &mut Numbers,
    id: DiagramId,
    k: i32,
) -> Result<bool, AllocError>
    requires inside { id < count_of diagrams.now }
    requires composed { IsComposed (tree_of diagrams.now id) }
    requires known { Remembers diagrams.now numbers.old }
    ensures known { Remembers diagrams.now numbers.new }
    ensures number { IfOk result (λ b. b ≡ is_number k (number_of (tree_of diagrams.now id))) }
{
    match numbers.number_of(alloc, diagrams, id)? {
        None => Ok(false),
        Some(n) => Ok(n == k),
    }
}

/// The parts of a diagram without a number that is put as a composition.
pub fn parts_of(
    alloc: Global,
    diagrams: &Diagrams,
    numbers: &mut Numbers,
    operator: Operator,
    id: DiagramId,
) -> Result<Option<(DiagramId, DiagramId)>, AllocError>
    requires inside { id < count_of diagrams.now }
    requires composed { IsComposed (tree_of diagrams.now id) }
    requires known { Remembers diagrams.now numbers.old }
    ensures known { Remembers diagrams.now numbers.new }
    ensures parts { IfOk result (λ o. option_map (are_parts diagrams.now) o
        ≡ parts_without (number_of (tree_of diagrams.now id)) operator (tree_of diagrams.now id)) }
    ensures there { IfOk result (λ o. IfSome o (ArePartsOf diagrams.now id)) }
{
    if numbers.number_of(alloc, diagrams, id)?.is_some() {
        return Ok(None);
    }
    let parts = composed_by(operator, diagrams.node(id));
    Ok(parts)
}

// The parts of a node that is this composition.
fn composed_by(operator: Operator, node: Node) -> Option<(DiagramId, DiagramId)>
    ensures trees { (a : Arena) → option_map (are_parts a) result ≡ parts_of operator (tree_with a node) }
    ensures both { IfSome result (λ ij. both_parts node ≡ Some ij) }
{
    match (operator, node) {
        (Operator::Recursion, Node::Rec { left, right }) => Some((left, right)),
        (Operator::Parallel, Node::Par { left, right }) => Some((left, right)),
        (Operator::Sequence, Node::Seq { left, right }) => Some((left, right)),
        (Operator::Split, Node::Split { left, right }) => Some((left, right)),
        (Operator::Merge, Node::Merge { left, right }) => Some((left, right)),
        _ => None,
    }
}
