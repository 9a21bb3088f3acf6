// The rules that stand at a place, and the first one that matches.

ghost use Rattle.std.specs.Prelude.{◌≡◌, ◌<◌, List, Some, IfOk, All, length, map, slice_get};
ghost use Rattle.fv_parse.specs.Trees.{size_of, tree_in};
ghost use Rattle.fv_eval_lookup.specs.declared.by_name.Defined.{Defined as AnItem};
ghost use Rattle.fv_rules.specs.headline.Values.{Value as PureValue, rule_of};
ghost use Rattle.fv_rules.specs.headline.Matching.{chosen};
ghost use Rattle.fv_rules.specs.headline.Rules.{width};
ghost use Rattle.fv_eval_scopes.specs.Shows.{World, IsInside, ShowsValues, case_in, rules_in};
ghost use Rattle.fv_eval_scopes.specs.Memo.{Remembers, AddsIntegers};
ghost use Rattle.fv_eval_patterns.specs.Loans.{loans_of};
ghost use Rattle.fv_eval_patterns.specs.Patterns.{IsValid, with_diagrams};
ghost use Rattle.fv_eval_patterns.specs.Trials.{Recalls};
ghost use Rattle.fv_eval_lookup.specs.Chosen.{ShowsChoice, IsRuleAt, IsFirstRule, Chooses, nodes_of};
ghost use Rattle.fv_eval_lookup.specs.Leaving.{Leaves};

use crate::by_name::Defined;
use crate::index::{left_by, next_left};
use crate::lookup::Definitions;
use fv_diagram::Diagrams;
use fv_eval_patterns::{Bindings, Bits, Matching, Subjects, Trials};
use fv_eval_scopes::{Numbers, Ruled, Value};
use fv_parse::{Tree, TreeId, TreeNode};
use std::alloc::{AllocError, Global};

/// A rule: its patterns, and the node of its right side.
#[derive(Clone, Copy)]
pub(crate) struct RuleAt<'t> {
    patterns: &'t [TreeId],
    body: TreeId,
}

/// The rules that stand at a place, where they stand: a look at them copies nothing.
#[derive(Clone, Copy)]
pub(crate) enum Rules<'t> {
    /// The nodes of a `case`.
    Case(&'t [TreeId]),
    /// Definitions of one name.
    Definitions(&'t [Defined]),
}

impl Rules<'_> {
    /// How many there are.
    pub(crate) fn len(self) -> usize
        ensures { result ≡ length (nodes_of self.entry) }
    {
        match self {
            Rules::Case(nodes) => nodes.len(),
            Rules::Definitions(all) => all.len(),
        }
    }

    /// The node of one of them.
    pub(crate) fn node(self, i: usize) -> TreeId
        requires { i < length (nodes_of self) }
        ensures { slice_get (nodes_of self.entry) i ≡ Some result }
    {
        match self {
            Rules::Case(nodes) => nodes[i],
            Rules::Definitions(all) => all[i].node,
        }
    }
}

// The rule that a node is.
fn rule_at<'t>(tree: &'t Tree, id: TreeId) -> RuleAt<'t>
    requires { id < size_of tree.now }
    ensures { IsRuleAt tree.now id result }
{
    match tree.node(id) {
        TreeNode::Rule(patterns, body) => RuleAt {
            patterns: tree.items(*patterns),
            body: *body,
        },
        TreeNode::Function(_, patterns, body) => RuleAt {
            patterns: tree.items(*patterns),
            body: *body,
        },
        _ => RuleAt {
            patterns: &[],
            body: id,
        },
    }
}

/// The patterns of the rule that a node is.
pub(crate) fn patterns_of<'t>(tree: &'t Tree, id: TreeId) -> &'t [TreeId]
    requires { id < size_of tree.now }
    ensures patterns { map (tree_in tree.now) result.now ≡ (rule_of (tree_in tree.now id)).patterns }
    ensures there { All (λ i. i < size_of tree.now) result.now }
{
    rule_at(tree, id).patterns
}

// The nodes of the rules of a `case`.
fn case_rules<'t>(tree: &'t Tree, id: TreeId) -> &'t [TreeId]
    requires { id < size_of tree.now }
    ensures rules { map (tree_in tree.now) result.now ≡ case_in (tree_in tree.now id) }
    ensures there { All (λ i. i < size_of tree.now) result.now }
{
    match tree.node(id) {
        TreeNode::Case(list) => tree.items(*list),
        _ => &[],
    }
}

impl Definitions<'_> {
    // The definitions that have the name of this one.
    fn functions(&self, list: TreeId, first: TreeId) -> &[Defined]
        requires { IsInside self.now (Ruled.Definitions list first) }
        ensures rules { map (λ (d : AnItem). rule_of (tree_in self.now d.node)) result.now
            ≡ rules_in self.now (Ruled.Definitions list first) }
        ensures there { All (λ (d : AnItem). d.node < size_of self.now) result.now }
    {
        let tree = self.tree();
        match tree.node(first) {
            TreeNode::Function(name, _, _) => self.called(list, tree.name(*name)),
            _ => &[],
        }
    }

    /// The rules that stand at a place, in order.
    pub(crate) fn rules(&self, ruled: Ruled) -> Rules<'_>
        requires { IsInside self.now ruled }
        ensures rules { map (λ id. rule_of (tree_in self.now id)) (nodes_of result) ≡ rules_in self.now ruled }
        ensures there { All (λ id. id < size_of self.now) (nodes_of result) }
    {
        match ruled {
            Ruled::Case(id) => Rules::Case(case_rules(self.tree(), id)),
            Ruled::Definitions { list, first } => Rules::Definitions(self.functions(list, first)),
        }
    }

    // The node of the first rule that stands at a place.
    fn first_rule(&self, ruled: Ruled) -> Option<TreeId>
        requires { IsInside self.now ruled }
        ensures { IsFirstRule self.now result (rules_in self.now ruled) }
    {
        match ruled {
            Ruled::Case(id) => {
                let first = case_rules(self.tree(), id).first()?;
                Some(*first)
            }
            Ruled::Definitions { list, first } => {
                let defined = self.functions(list, first).first()?;
                Some(defined.node)
            }
        }
    }

    /// How many arguments the rules take.
    pub fn width(&self, ruled: Ruled) -> u64
        requires { IsInside self.now ruled }
        ensures { result ≡ width (rules_in self.now ruled) }
    {
        match self.first_rule(ruled) {
            None => 0,
            Some(id) => rule_at(self.tree(), id).patterns.len() as u64,
        }
    }

    /// The right side and the bindings of the first rule that matches arguments; `None` where none does. It adds
    /// integers alone, also where memory runs out.
    pub fn choose(
        &self,
        alloc: Global,
        ruled: Ruled,
        diagrams: &mut Diagrams,
        numbers: &mut Numbers,
        trials: &mut Trials,
        arguments: &[Value],
    ) -> Result<Option<(TreeId, Bindings)>, AllocError>
        requires inside { IsInside self.now ruled }
        requires valid { All (IsValid diagrams.old) arguments.now }
        requires known { Remembers diagrams.old numbers.old }
        requires recalls { Recalls self.now diagrams.old trials.old }
        ensures adds { AddsIntegers diagrams.old diagrams.new }
        ensures known { Remembers diagrams.new numbers.new }
        ensures recalls { Recalls self.now diagrams.new trials.new }
        ensures chosen { IfOk result (λ o. (w : World) (vs : List PureValue)
            → w.tree ≡ self.now → w.diagrams ≡ diagrams.old → ShowsValues w arguments.now vs
            → ShowsChoice (with_diagrams w diagrams.new) o (chosen self.now.tokens (rules_in self.now ruled) vs)) }
    {
        let index = self.index(&ruled);
        let rules = self.rules(ruled);
        let subjects = Subjects {
            alloc,
            tree: self.tree(),
            values: arguments,
        };
        let left = left_by(index, &subjects, diagrams, numbers)?;
        let mut matching = Matching {
            diagrams,
            numbers,
            trials,
        };
        let choice = first_match(&subjects, rules, &left, &mut matching)?;
        Ok(choice)
    }
}

// The first rule that matches, where only these may match.
fn first_match(
    subjects: &Subjects,
    rules: Rules,
    left: &Option<Bits>,
    matching: &mut Matching,
) -> Result<Option<(TreeId, Bindings)>, AllocError>
    requires inside { All (λ id. id < size_of subjects.now.tree.now) (nodes_of rules) }
    requires left { Leaves (map (λ id. rule_of (tree_in subjects.now.tree.now id)) (nodes_of rules)) subjects.now.values.now
        matching.old.diagrams.now left.now }
    requires valid { All (IsValid matching.old.diagrams.now) subjects.now.values.now }
    requires known { Remembers matching.old.diagrams.now matching.old.numbers.now }
    requires recalls { Recalls subjects.now.tree.now matching.old.diagrams.now matching.old.trials.now }
    ensures adds { AddsIntegers matching.old.diagrams.now matching.new.diagrams.now }
    ensures loans { loans_of matching.new ≡ loans_of matching.old }
    ensures known { Remembers matching.new.diagrams.now matching.new.numbers.now }
    ensures recalls { Recalls subjects.now.tree.now matching.new.diagrams.now matching.new.trials.now }
    ensures chosen { IfOk result
        (Chooses subjects.now.tree.now (nodes_of rules.entry) subjects.now.values.now matching.old.diagrams.now matching.new.diagrams.now) }
{
    let end = rules.len() as u64;
    let mut at = next_left(left, 0, end);
    'rules: while at < end {
        let id = rules.node(at as usize);
        let rule = rule_at(subjects.tree, id);
        let mut list = Vec::new(subjects.alloc);
        if subjects.match_all(rule.patterns, matching, &mut list)? {
            return Ok(Some((rule.body, Bindings::of(list))));
        }
        at = next_left(left, at + 1, end);
    }
    Ok(None)
}
