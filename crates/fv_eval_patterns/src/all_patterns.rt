// Patterns against as many values.

ghost use Rattle.std.specs.Prelude.{◌≡◌, ◌<◌, List, IfOk, All, map};
ghost use Rattle.fv_parse.specs.Trees.{size_of, tree_in};
ghost use Rattle.fv_rules.specs.headline.Values.{Value as PureValue};
ghost use Rattle.fv_rules.specs.headline.Matching.{Bindings as PureBindings, all_matched};
ghost use Rattle.fv_eval_scopes.specs.Shows.{World, ShowsValues, ShowsBindings};
ghost use Rattle.fv_eval_scopes.specs.Memo.{Remembers, AddsIntegers};
ghost use Rattle.fv_eval_patterns.specs.Loans.{loans_of};
ghost use Rattle.fv_eval_patterns.specs.Patterns.{IsValid, with_diagrams, ShowsMatched};
ghost use Rattle.fv_eval_patterns.specs.Trials.{Recalls};

use crate::trials::Trials;
use fv_diagram::Diagrams;
use fv_eval_scopes::{Binding, Numbers, Value};
use fv_parse::{Tree, TreeId};
use std::alloc::{AllocError, Global};

/// What patterns are matched against: as many values. The patterns stand in the tree.
#[derive(Clone, Copy)]
pub struct Subjects<'s> {
    pub alloc: Global,
    pub tree: &'s Tree<'s>,
    pub values: &'s [Value],
}

/// What a matching adds to and remembers. Each loan has a lifetime of its own, so that the owner knows what each of them ends with.
#[derive(Drop)]
pub struct Matching<'d, 'n, 't> {
    pub diagrams: &'d mut Diagrams,
    pub numbers: &'n mut Numbers,
    pub trials: &'t mut Trials,
}

impl Subjects<'_> {
    /// Whether patterns match, one after the other; their bindings are added to those so far. Where one is long, they are
    /// tried first without binding anything. It adds integers alone, also where memory runs out.
    pub fn match_all(
        &self,
        patterns: &[TreeId],
        matching: &mut Matching,
        found: &mut Vec<Binding>,
    ) -> Result<bool, AllocError>
        requires inside { All (λ id. id < size_of self.now.tree.now) patterns.now }
        requires valid { All (IsValid matching.old.diagrams.now) self.now.values.now }
        requires known { Remembers matching.old.diagrams.now matching.old.numbers.now }
        requires recalls { Recalls self.now.tree.now matching.old.diagrams.now matching.old.trials.now }
        ensures adds { AddsIntegers matching.old.diagrams.now matching.new.diagrams.now }
        ensures loans { loans_of matching.new ≡ loans_of matching.old }
        ensures known { Remembers matching.new.diagrams.now matching.new.numbers.now }
        ensures recalls { Recalls self.now.tree.now matching.new.diagrams.now matching.new.trials.now }
        ensures matched { IfOk result (λ b. (w : World) (vs : List PureValue) (bs : PureBindings)
            → w.tree ≡ self.now.tree.now → w.diagrams ≡ matching.old.diagrams.now → ShowsValues w self.now.values.now vs
            → ShowsBindings w found.old.items bs
            → ShowsMatched (with_diagrams w matching.new.diagrams.now) b found.new.items
            (all_matched self.now.tree.now.tokens (map (tree_in self.now.tree.now) patterns.now) vs bs)) }
    {
        if !self.may_match(
            patterns,
            matching.diagrams,
            matching.numbers,
            matching.trials,
        )? {
            return Ok(false);
        }
        self.bind_all(patterns, matching, found)
    }

    // Whether patterns match, one after the other, without a trial of long ones; their bindings are added to those so far.
    fn bind_all(
        &self,
        patterns: &[TreeId],
        matching: &mut Matching,
        found: &mut Vec<Binding>,
    ) -> Result<bool, AllocError>
        requires inside { All (λ id. id < size_of self.now.tree.now) patterns.now }
        requires valid { All (IsValid matching.old.diagrams.now) self.now.values.now }
        requires known { Remembers matching.old.diagrams.now matching.old.numbers.now }
        requires recalls { Recalls self.now.tree.now matching.old.diagrams.now matching.old.trials.now }
        ensures adds { AddsIntegers matching.old.diagrams.now matching.new.diagrams.now }
        ensures loans { loans_of matching.new ≡ loans_of matching.old }
        ensures known { Remembers matching.new.diagrams.now matching.new.numbers.now }
        ensures recalls { Recalls self.now.tree.now matching.new.diagrams.now matching.new.trials.now }
        ensures matched { IfOk result (λ b. (w : World) (vs : List PureValue) (bs : PureBindings)
            → w.tree ≡ self.now.tree.now → w.diagrams ≡ matching.old.diagrams.now → ShowsValues w self.now.values.now vs
            → ShowsBindings w found.old.items bs
            → ShowsMatched (with_diagrams w matching.new.diagrams.now) b found.new.items
            (all_matched self.now.tree.now.tokens (map (tree_in self.now.tree.now) patterns.now) vs bs)) }
    {
        let values = self.values;
        for (i, pattern) in patterns.iter().enumerate() {
            if i >= values.len() {
                return Ok(false);
            }
            let value = &values[i];
            if !self.matches_one(*pattern, value, matching, found)? {
                return Ok(false);
            }
        }
        Ok(true)
    }
}
