// Patterns on diagrams, where what long ones bind is remembered.

ghost use Rattle.std.specs.Prelude.{◌≡◌, ◌<◌, ◌≤◌, IfOk, IfSome, MatchBool, drop, length};
ghost use Rattle.fv_parse.specs.Trees.{Parsed, size_of, tree_in};
ghost use Rattle.fv_diagram.specs.Arena.{Arena, count_of};
ghost use Rattle.fv_rules.specs.headline.Values.{Value as PureValue};
ghost use Rattle.fv_rules.specs.headline.Matching.{Bindings as PureBindings, matched};
ghost use Rattle.fv_eval_scopes.specs.Shows.{World, ShowsValue, ShowsBindings};
ghost use Rattle.fv_eval_scopes.specs.Memo.{Remembers, AddsIntegers};
ghost use Rattle.fv_eval_patterns.specs.Loans.{loans_of};
ghost use Rattle.fv_eval_patterns.specs.Patterns.{IsPair, IsValid, ShowsMatched, with_diagrams};
ghost use Rattle.fv_eval_patterns.specs.Trials.{AddsBound, AreHalves, Binds, Misses, Recalls};

use crate::all_patterns::{Matching, Subjects};
use crate::long_patterns::is_long;
use crate::trials::Trials;
use crate::value_patterns::{Pair, parts_of};
use fv_diagram::Diagrams;
use fv_eval_scopes::{Binding, Numbers, Value};
use fv_parse::{TreeId, TreeNode};
use std::alloc::AllocError;

/// Down to this depth, what each part of a pattern binds is remembered by itself.
const LEVELS: u64 = 64;

/// What binds more names than this is not remembered, since a scope is kept for each of them.
const MANY: usize = 64;

impl Subjects<'_> {
    /// Tries a pattern on a value: whether it matches. The bindings are added to those so far. It adds integers alone, also where memory runs out.
    pub(crate) fn matches_one(
        &self,
        pattern: TreeId,
        value: &Value,
        matching: &mut Matching,
        found: &mut Vec<Binding>,
    ) -> Result<bool, AllocError>
        requires inside { pattern < size_of self.now.tree.now }
        requires value { IsValid matching.old.diagrams.now value.now }
        requires known { Remembers matching.old.diagrams.now matching.old.numbers.now }
        requires recalls { Recalls self.now.tree.now matching.old.diagrams.now matching.old.trials.now }
        ensures adds { AddsIntegers matching.old.diagrams.now matching.new.diagrams.now }
        ensures loans { loans_of matching.new ≡ loans_of matching.old }
        ensures known { Remembers matching.new.diagrams.now matching.new.numbers.now }
        ensures recalls { Recalls self.now.tree.now matching.new.diagrams.now matching.new.trials.now }
        ensures matched { IfOk result (λ b. (w : World) (v : PureValue) (bs : PureBindings)
            → w.tree ≡ self.now.tree.now → w.diagrams ≡ matching.old.diagrams.now → ShowsValue w value.now v
            → ShowsBindings w found.old.items bs
            → ShowsMatched (with_diagrams w matching.new.diagrams.now) b found.new.items
            (matched self.now.tree.now.tokens (tree_in self.now.tree.now pattern) v bs)) }
    {
        match value {
            Value::Diagram(diagram) if is_long(self.tree, pattern) => {
                let pair = Pair {
                    pattern,
                    diagram: *diagram,
                };
                let matches = self.binds(LEVELS, pair, matching, found)?;
                Ok(matches)
            }
            _ => {
                let matches = self.matches_in(
                    pattern,
                    matching.diagrams,
                    matching.numbers,
                    value,
                    found,
                )?;
                Ok(matches)
            }
        }
    }

    // Tries a pattern on a diagram: whether it matches. What it binds is added to the bindings so far.
    fn binds(
        &self,
        levels: u64,
        pair: Pair,
        matching: &mut Matching,
        found: &mut Vec<Binding>,
    ) -> Result<bool, AllocError>
        requires pair { IsPair self.now.tree.now matching.old.diagrams.now pair }
        requires known { Remembers matching.old.diagrams.now matching.old.numbers.now }
        requires recalls { Recalls self.now.tree.now matching.old.diagrams.now matching.old.trials.now }
        ensures adds { AddsIntegers matching.old.diagrams.now matching.new.diagrams.now }
        ensures loans { loans_of matching.new ≡ loans_of matching.old }
        ensures known { Remembers matching.new.diagrams.now matching.new.numbers.now }
        ensures recalls { Recalls self.now.tree.now matching.new.diagrams.now matching.new.trials.now }
        ensures answers { IfOk result (λ b. MatchBool b (AddsBound self.now.tree.now matching.new.diagrams.now pair found.old.items found.new.items)
            (Misses self.now.tree.now matching.old.diagrams.now pair)) }
    {
        if let Some(bound) = matching.trials.bound(&pair) {
            found.extend_from_slice(bound)?;
            return Ok(true);
        }
        let Some(halves) = self.halves(levels, pair, matching.diagrams, matching.numbers)? else {
            let matches = self.binds_plainly(pair, matching, found)?;
            return Ok(matches);
        };
        let before = found.len();
        if !self.binds(levels - 1, halves.0, matching, found)? {
            return Ok(false);
        }
        if !self.binds(levels - 1, halves.1, matching, found)? {
            return Ok(false);
        }
        keep_few(matching.trials, &pair, found.as_slice(), before)?;
        Ok(true)
    }

    // Tries a pattern on a diagram, part by part. What it binds is added to the bindings so far, and is remembered where the pattern is long.
    fn binds_plainly(
        &self,
        pair: Pair,
        matching: &mut Matching,
        found: &mut Vec<Binding>,
    ) -> Result<bool, AllocError>
        requires pair { IsPair self.now.tree.now matching.old.diagrams.now pair }
        requires known { Remembers matching.old.diagrams.now matching.old.numbers.now }
        requires recalls { Recalls self.now.tree.now matching.old.diagrams.now matching.old.trials.now }
        ensures adds { AddsIntegers matching.old.diagrams.now matching.new.diagrams.now }
        ensures loans { loans_of matching.new ≡ loans_of matching.old }
        ensures known { Remembers matching.new.diagrams.now matching.new.numbers.now }
        ensures recalls { Recalls self.now.tree.now matching.new.diagrams.now matching.new.trials.now }
        ensures answers { IfOk result (λ b. MatchBool b (AddsBound self.now.tree.now matching.new.diagrams.now pair found.old.items found.new.items)
            (Misses self.now.tree.now matching.old.diagrams.now pair)) }
    {
        let mut bound = Vec::new(self.alloc);
        if !self.matches_diagram(pair, matching.diagrams, matching.numbers, &mut bound)? {
            return Ok(false);
        }
        if is_long(self.tree, pair.pattern) {
            keep_few(matching.trials, &pair, bound.as_slice(), 0)?;
        }
        found.extend_from_slice(bound.as_slice())?;
        Ok(true)
    }

    // A long composition and a diagram that is put so, part by part, while levels are left.
    fn halves(
        &self,
        levels: u64,
        pair: Pair,
        diagrams: &Diagrams,
        numbers: &mut Numbers,
    ) -> Result<Option<(Pair, Pair)>, AllocError>
        requires pair { IsPair self.now.tree.now diagrams.now pair }
        requires known { Remembers diagrams.now numbers.old }
        ensures known { Remembers diagrams.now numbers.new }
        ensures halves { IfOk result (λ o. IfSome o (AreHalves self.now.tree.now diagrams.now pair)) }
        ensures levels { IfOk result (λ o. IfSome o (λ _. 0 < levels)) }
    {
        if levels == 0 || !is_long(self.tree, pair.pattern) {
            return Ok(None);
        }
        let TreeNode::Binary(operator, p, q) = self.tree.node(pair.pattern) else {
            return Ok(None);
        };
        let Some(both) = parts_of(self.alloc, diagrams, numbers, *operator, pair.diagram)? else {
            return Ok(None);
        };
        let left = Pair {
            pattern: *p,
            diagram: both.0,
        };
        let right = Pair {
            pattern: *q,
            diagram: both.1,
        };
        Ok(Some((left, right)))
    }
}

// Remembers what a pair binds, the bindings from one on, unless it is much.
fn keep_few(
    trials: &mut Trials,
    pair: &Pair,
    found: &[Binding],
    before: usize,
) -> Result<(), AllocError>
    requires { before ≤ length found.now }
    ensures { (p : Parsed) (a : Arena) → Recalls p a trials.old → pair.now.diagram < count_of a
        → Binds p a pair.now (drop before found.now) → Recalls p a trials.new }
{
    let bound = &found[before..];
    if bound.len() <= MANY {
        trials.keep(pair, bound)?;
    }
    Ok(())
}
