// Long patterns, tried on diagrams without binding anything.

ghost use Rattle.std.specs.Prelude.{◌≡◌, ◌<◌, All, IfOk, MatchBool, List, map, reverse, None, false};
ghost use Rattle.fv_parse.specs.Trees.{Parsed, size_of, tree_in};
ghost use Rattle.fv_diagram.specs.Arena.{Arena};
ghost use Rattle.fv_rules.specs.headline.Values.{Value as PureValue};
ghost use Rattle.fv_rules.specs.headline.Matching.{Bindings as PureBindings, all_matched};
ghost use Rattle.fv_eval_scopes.specs.Shows.{World, ShowsValues};
ghost use Rattle.fv_eval_scopes.specs.Memo.{Remembers};
ghost use Rattle.fv_eval_patterns.specs.Patterns.{IsValid, IsPair, Refuses};
ghost use Rattle.fv_eval_patterns.specs.Trials.{Says, Recalls, AllMiss, Splits};

use crate::all_patterns::Subjects;
use crate::trials::Trials;
use crate::value_patterns::{Pair, has_number, parts_of};
use fv_diagram::Diagrams;
use fv_eval_scopes::{Numbers, Value};
use fv_parse::{Tree, TreeId, TreeNode};
use fv_rules::{literal, negative_literal};
use std::alloc::AllocError;

/// A pattern with at least this many parts is long.
const LONG: u64 = 16;

/// What is left to do.
#[derive(Clone, Copy, Debug)]
pub enum Task {
    /// A pattern is tried on a diagram.
    Try(Pair),
    /// It is noted whether this pair may match: what was above it was all of its parts.
    Note(Pair),
}

/// Whether a pattern is long. Its parts stand in front of it in the tree, its first part first.
pub(crate) fn is_long(tree: &Tree, pattern: TreeId) -> bool
    requires { pattern < size_of tree.now }
{
    let mut first = pattern;
    'leftward: for _ in 0..LONG {
        match tree.node(first) {
            TreeNode::Binary(_, left, _) => first = *left,
            _ => return pattern.number().saturating_sub(first.number()) >= LONG,
        }
    }
    true
}

// Whether one of the patterns is long.
fn some_long(tree: &Tree, patterns: &[TreeId]) -> bool
    requires { All (λ id. id < size_of tree.now) patterns.now }
{
    for pattern in patterns {
        if is_long(tree, *pattern) {
            return true;
        }
    }
    false
}

impl Subjects<'_> {
    /// Whether patterns of which one is long may match. Where it says `false` they do not.
    pub(crate) fn may_match(
        &self,
        patterns: &[TreeId],
        diagrams: &Diagrams,
        numbers: &mut Numbers,
        trials: &mut Trials,
    ) -> Result<bool, AllocError>
        requires inside { All (λ id. id < size_of self.now.tree.now) patterns.now }
        requires valid { All (IsValid diagrams.now) self.now.values.now }
        requires known { Remembers diagrams.now numbers.old }
        requires recalls { Recalls self.now.tree.now diagrams.now trials.old }
        ensures known { Remembers diagrams.now numbers.new }
        ensures recalls { Recalls self.now.tree.now diagrams.now trials.new }
        ensures misses { IfOk result (λ b. b ≡ false → (w : World) (vs : List PureValue) (bs : PureBindings)
            → w.diagrams ≡ diagrams.now → ShowsValues w self.now.values.now vs
            → all_matched self.now.tree.now.tokens (map (tree_in self.now.tree.now) patterns.now) vs bs ≡ None) }
    {
        if !some_long(self.tree, patterns) {
            return Ok(true);
        }
        let values = self.values;
        for (i, pattern) in patterns.iter().enumerate() {
            if i >= values.len() {
                return Ok(true);
            }
            let value = &values[i];
            if let Value::Diagram(diagram) = value {
                let pair = Pair {
                    pattern: *pattern,
                    diagram: *diagram,
                };
                if !self.pair_may_match(pair, diagrams, numbers, trials)? {
                    return Ok(false);
                }
            }
        }
        Ok(true)
    }

    // Whether a pattern may match a diagram.
    fn pair_may_match(
        &self,
        whole: Pair,
        diagrams: &Diagrams,
        numbers: &mut Numbers,
        trials: &mut Trials,
    ) -> Result<bool, AllocError>
        requires whole { IsPair self.now.tree.now diagrams.now whole }
        requires known { Remembers diagrams.now numbers.old }
        requires recalls { Recalls self.now.tree.now diagrams.now trials.old }
        ensures known { Remembers diagrams.now numbers.new }
        ensures recalls { Recalls self.now.tree.now diagrams.now trials.new }
        ensures says { IfOk result (λ b. Says self.now.tree.now diagrams.now b whole) }
    {
        trials.explore(self.alloc, self.tree, diagrams, numbers, whole.diagram)?;
        let mut tasks = Vec::new(self.alloc);
        tasks.push(Task::Try(whole))?;
        while let Some(task) = tasks.pop() {
            match task {
                Task::Note(pair) => trials.remember(&pair, true)?,
                Task::Try(pair) => {
                    if !self.attempt(pair, diagrams, numbers, trials, &mut tasks)? {
                        note_misses(tasks, trials)?;
                        return Ok(false);
                    }
                }
            }
        }
        Ok(true)
    }

    // One pattern on one diagram: whether they may match still. The parts of a composition are tried next.
    fn attempt(
        &self,
        pair: Pair,
        diagrams: &Diagrams,
        numbers: &mut Numbers,
        trials: &Trials,
        tasks: &mut Vec<Task>,
    ) -> Result<bool, AllocError>
        requires pair { IsPair self.now.tree.now diagrams.now pair }
        requires known { Remembers diagrams.now numbers.old }
        requires recalls { Recalls self.now.tree.now diagrams.now trials.now }
        ensures known { Remembers diagrams.now numbers.new }
        ensures splits { IfOk result (λ b. MatchBool b (Splits self.now.tree.now diagrams.now pair tasks.old.items tasks.new.items)
            (Refuses self.now.tree.now diagrams.now pair)) }
        ensures same { IfOk result (λ b. b ≡ false → tasks.new.items ≡ tasks.old.items) }
    {
        match self.tree.node(pair.pattern) {
            TreeNode::Named(_) => Ok(true),
            TreeNode::Number(n) => {
                let k = literal(*n);
                let same = has_number(self.alloc, diagrams, numbers, pair.diagram, k)?;
                Ok(same)
            }
            TreeNode::Negative(n) => {
                let k = negative_literal(*n);
                let same = has_number(self.alloc, diagrams, numbers, pair.diagram, k)?;
                Ok(same)
            }
            TreeNode::Binary(operator, p, q) => {
                if let Some(may) = trials.recall(&pair) {
                    return Ok(may);
                }
                let parts = parts_of(self.alloc, diagrams, numbers, *operator, pair.diagram)?;
                match parts {
                    None => Ok(false),
                    Some(both) => {
                        tasks.push(Task::Note(pair))?;
                        tasks.push(Task::Try(Pair {
                            pattern: *q,
                            diagram: both.1,
                        }))?;
                        tasks.push(Task::Try(Pair {
                            pattern: *p,
                            diagram: both.0,
                        }))?;
                        Ok(true)
                    }
                }
            }
            _ => Ok(false),
        }
    }
}

// Notes of each pair that is left that it does not match.
fn note_misses(tasks: Vec<Task>, trials: &mut Trials) -> Result<(), AllocError>
    ensures { (p : Parsed) (a : Arena) (whole : Pair) → Recalls p a trials.old → AllMiss p a whole (reverse tasks.items)
        → Recalls p a trials.new }
{
    let mut left = tasks;
    while let Some(task) = left.pop() {
        match task {
            Task::Note(pair) => trials.remember(&pair, false)?,
            Task::Try(_) => {}
        }
    }
    Ok(())
}
