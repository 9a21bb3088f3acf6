// What came of trying long patterns on diagrams, remembered.

ghost use Rattle.std.specs.Prelude.{◌≡◌, ◌<◌, [], IfSome, IsTrue, drop, length, take};
ghost use Rattle.fv_parse.specs.Trees.{Parsed};
ghost use Rattle.fv_diagram.specs.Arena.{Arena, count_of};
ghost use Rattle.fv_eval_scopes.specs.Memo.{Remembers};
ghost use Rattle.fv_eval_patterns.specs.Remembered.{nothing};
ghost use Rattle.fv_eval_patterns.specs.Shapes.{IsThere};
ghost use Rattle.fv_eval_patterns.specs.Trials.{Binds, Says, Recalls, may_match, outcome_of};

use crate::survey::Survey;
use crate::value_patterns::Pair;
use fv_diagram::{DiagramId, Diagrams};
use fv_eval_scopes::{Binding, Numbers};
use fv_parse::Tree;
use std::alloc::{AllocError, Global};
use std::marker::Model;

/// How many slots there are at first; then they double up to `MOST`.
const FEWEST: usize = 1024;

const MOST: usize = 2_097_152;

/// The most bindings that are kept; then all is forgotten.
const MOST_BINDINGS: usize = 2_097_152;

/// What is known of a pattern and a diagram.
#[derive(Clone, Copy, Debug)]
pub enum Outcome {
    /// They do not match.
    Never,
    /// They may match.
    Maybe,
    /// They match. What they bind is the `count` kept bindings from index `from` on.
    Binds { from: u64, count: u64 },
}

/// What came of trying a pattern on a diagram.
#[derive(Clone, Copy, Debug)]
pub struct Trial {
    pub pair: Pair,
    pub outcome: Outcome,
}

/// A memo of trials. Each pair of a pattern and a diagram has one slot; a later pair evicts what it has.
#[derive(Drop)]
pub struct Trials {
    slots: Vec<Trial>, // The cache of trials, which is direct-mapped: each pair has one slot.
    bindings: Vec<Binding>, // What the pairs bind that are known to match; a trial has a range of it.
    survey: Survey, // Which nodes of the text may match which diagrams.
    kept: u64, // How many were remembered.
    tried: u64, // How many pairs were tried.
}

impl Model for Trials {
    ghost use Rattle.fv_eval_patterns.specs.Remembered.{Remembered};

    ghost Value = { Remembered };

    ghost view = { λ t. record { trials = t.slots.items; bindings = t.bindings.items; survey = t.survey } };
}

impl Trials {
    /// Nothing is remembered.
    pub fn new(alloc: Global) -> Trials
        ensures { result ≡ nothing }
    {
        Trials {
            slots: Vec::new(alloc),
            bindings: Vec::new(alloc),
            survey: Survey::new(alloc),
            kept: 0,
            tried: 0,
        }
    }

    // The slot of a pair, where there are slots.
    fn place(&self, pair: &Pair) -> Option<usize>
        ensures { IfSome result (λ i. i < length self.now.trials) }
    {
        let count = self.slots.len() as u64;
        if count == 0 {
            return None;
        }
        let mixed = pair
            .pattern
            .number()
            .wrapping_mul(0x9e37_79b9)
            .wrapping_add(pair.diagram.number());
        Some((mixed % count) as usize)
    }

    /// Surveys a diagram and its parts, as far as the pairs that were tried so far are worth it.
    pub(crate) fn explore(
        &mut self,
        alloc: Global,
        tree: &Tree,
        diagrams: &Diagrams,
        numbers: &mut Numbers,
        whole: DiagramId,
    ) -> Result<(), AllocError>
        requires there { IsThere diagrams.now whole }
        requires known { Remembers diagrams.now numbers.old }
        requires recalls { Recalls tree.now diagrams.now self.old }
        ensures known { Remembers diagrams.now numbers.new }
        ensures recalls { Recalls tree.now diagrams.now self.new }
    {
        self.survey
            .explore(alloc, tree, diagrams, numbers, whole, self.tried)?;
        Ok(())
    }

    /// Whether a pair may match, if that is known.
    pub(crate) fn recall(&self, pair: &Pair) -> Option<bool>
        ensures { IfSome result (λ b. (p : Parsed) (a : Arena) → Recalls p a self.now → Says p a b pair.now) }
    {
        if let Some(may) = self.survey.tells(pair) {
            return Some(may);
        }
        let i = self.place(pair)?;
        let trial = &self.slots[i];
        if is_same(&trial.pair, pair) {
            Some(may_match(trial.outcome))
        } else {
            None
        }
    }

    /// What a pair binds, if that is remembered.
    pub(crate) fn bound(&self, pair: &Pair) -> Option<&[Binding]>
        ensures { IfSome result (λ r. (p : Parsed) (a : Arena) → Recalls p a self.now → Binds p a pair.now r.now) }
    {
        let i = self.place(pair)?;
        let trial = &self.slots[i];
        if !is_same(&trial.pair, pair) {
            return None;
        }
        match trial.outcome {
            Outcome::Binds { from, count } => self.range(from, count),
            _ => None,
        }
    }

    // The `count` kept bindings from index `from` on.
    fn range(&self, from: u64, count: u64) -> Option<&[Binding]>
        ensures { IfSome result (λ r. r.now ≡ take count (drop from self.now.bindings)) }
    {
        let all = self.bindings.as_slice();
        let start = from as usize;
        let many = count as usize;
        if start > all.len() || many > all.len() - start {
            return None;
        }
        let behind = &all[start..];
        Some(&behind[..many])
    }

    /// Remembers whether a pair may match.
    pub(crate) fn remember(&mut self, pair: &Pair, may: bool) -> Result<(), AllocError>
        ensures { (p : Parsed) (a : Arena) → Recalls p a self.old → Says p a may pair.now → Recalls p a self.new }
    {
        self.widen(pair)?;
        self.kept = self.kept.saturating_add(1);
        self.tried = self.tried.saturating_add(1);
        if let Some(i) = self.place(pair) {
            let outcome = outcome_of(may);
            self.slots[i] = Trial {
                pair: *pair,
                outcome,
            };
        }
        Ok(())
    }

    /// Remembers what a pair binds.
    pub(crate) fn keep(&mut self, pair: &Pair, bound: &[Binding]) -> Result<(), AllocError>
        ensures { (p : Parsed) (a : Arena) → Recalls p a self.old → pair.now.diagram < count_of a
            → Binds p a pair.now bound.now → Recalls p a self.new }
    {
        self.make_room(bound.len());
        self.widen(pair)?;
        let from = self.bindings.len() as u64;
        self.bindings.extend_from_slice(bound)?;
        self.kept = self.kept.saturating_add(1);
        if let Some(i) = self.place(pair) {
            let count = bound.len() as u64;
            self.slots[i] = Trial {
                pair: *pair,
                outcome: Outcome::Binds { from, count },
            };
        }
        Ok(())
    }

    // Forgets all where there is no room for `more` bindings more.
    fn make_room(&mut self, more: usize)
        ensures { (p : Parsed) (a : Arena) → Recalls p a self.old → Recalls p a self.new }
    {
        if self.bindings.len() >= MOST_BINDINGS || more > MOST_BINDINGS - self.bindings.len() {
            self.slots.clear();
            self.bindings.clear();
            self.kept = 0;
        }
    }

    // Doubles the slots once half as many pairs were remembered. A new one says nothing of its pair.
    fn widen(&mut self, pair: &Pair) -> Result<(), AllocError>
        ensures { (p : Parsed) (a : Arena) → Recalls p a self.old → Recalls p a self.new }
    {
        let count = self.slots.len();
        if self.kept < count as u64 / 2 || count >= MOST {
            return Ok(());
        }
        let wanted = if count < FEWEST { FEWEST } else { 2 * count };
        'widen: while self.slots.len() < wanted {
            self.slots.push(Trial {
                pair: *pair,
                outcome: Outcome::Maybe,
            })?;
        }
        Ok(())
    }
}

// Whether a pair may match.
fn may_match(outcome: Outcome) -> bool
    ensures { result ≡ may_match outcome }
{
    match outcome {
        Outcome::Never => false,
        Outcome::Maybe | Outcome::Binds { .. } => true,
    }
}

// What is known of a pair that may match, or does not.
fn outcome_of(may: bool) -> Outcome
    ensures { result ≡ outcome_of may }
{
    if may { Outcome::Maybe } else { Outcome::Never }
}

// Whether pairs are of the same pattern and the same diagram.
fn is_same(x: &Pair, y: &Pair) -> bool
    ensures { IsTrue result → x.now ≡ y.now }
{
    x.pattern.number() == y.pattern.number() && x.diagram.number() == y.diagram.number()
}
