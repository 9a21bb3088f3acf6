// An index of the rules at a place, by what they want at positions of their arguments.

ghost use Rattle.std.specs.Prelude.{ℕ, ◌≡◌, ◌<◌, ◌≤◌, List, All, IfOk, IfSome, OnOk, Some, map};
ghost use Rattle.fv_parse.specs.Trees.{size_of, tree_in};
ghost use Rattle.fv_rules.specs.headline.Values.{Rule, rule_of};
ghost use Rattle.fv_eval_scopes.specs.Memo.{Remembers};
ghost use Rattle.fv_eval_patterns.specs.Patterns.{IsValid};
ghost use Rattle.fv_eval_lookup.specs.Chosen.{nodes_of};
ghost use Rattle.fv_eval_lookup.specs.Leaving.{IsIndex, IsOut, Knows, Leaves};

use crate::first_rule::{Rules, patterns_of};
use crate::paths::Path;
use crate::positions::Position;
use fv_diagram::Diagrams;
use fv_eval_patterns::{Bits, Subjects};
use fv_eval_scopes::{Numbers, Ruled};
use fv_parse::Tree;
use std::alloc::{AllocError, Global};
use std::collections::VecDeque;

/// The fewest rules that get an index; fewer are tried one after the other.
const FEWEST: usize = 16;

/// The most positions that are kept.
const MOST_POSITIONS: usize = 32;

/// The most positions that are looked at beside the arguments themselves.
const MOST_WITHIN: usize = 64;

/// The rules at a place, and what they want at positions of their arguments.
#[derive(Drop)]
pub(crate) struct RuleIndex {
    pub(crate) ruled: Ruled,
    every: Bits,
    positions: Vec<Position>,
}

// The positions that tell rules apart: first the arguments, then their parts.
fn positions(alloc: Global, tree: &Tree, rules: Rules) -> Result<Vec<Position>, AllocError>
    requires { All (λ id. id < size_of tree.now) (nodes_of rules) }
    ensures { IfOk result (λ v. All (Knows (map (λ id. rule_of (tree_in tree.now id)) (nodes_of rules.entry))) v.items) }
{
    let mut positions = Vec::new(alloc);
    let mut paths = arguments(alloc, tree, rules)?;
    'paths: for _ in 0..paths.len().saturating_add(MOST_WITHIN) {
        let Some(path) = paths.pop_front() else {
            return Ok(positions);
        };
        let position = Position::new(alloc, tree, rules, path)?;
        position.further(alloc, &mut paths)?;
        let tells = position.tells(alloc, rules.len())?;
        keep(&mut positions, position, tells)?;
    }
    Ok(positions)
}

// Keeps a position that tells rules apart, if there is room.
fn keep(positions: &mut Vec<Position>, position: Position, tells: bool) -> Result<(), AllocError>
    ensures { OnOk result ((all : List Rule) → All (Knows all) positions.old.items → Knows all position
        → All (Knows all) positions.new.items) }
{
    if tells && positions.len() < MOST_POSITIONS {
        positions.push(position)?;
    }
    Ok(())
}

// A position for each argument that the first rule takes.
fn arguments(alloc: Global, tree: &Tree, rules: Rules) -> Result<VecDeque<Path>, AllocError>
    requires { All (λ id. id < size_of tree.now) (nodes_of rules) }
{
    let mut paths = VecDeque::new(alloc);
    if rules.len() > 0 {
        for i in 0..patterns_of(tree, rules.node(0)).len() {
            paths.push_back(Path {
                argument: i as u64,
                sides: Vec::new(alloc),
            })?;
        }
    }
    Ok(paths)
}

impl RuleIndex {
    /// An index of the rules at a place; `None` where they are few, or no position tells some from others.
    pub(crate) fn new(
        alloc: Global,
        tree: &Tree,
        ruled: &Ruled,
        rules: Rules,
    ) -> Result<Option<RuleIndex>, AllocError>
        requires { All (λ id. id < size_of tree.now) (nodes_of rules) }
        ensures ruled { IfOk result (λ o. IfSome o (λ x. x.ruled ≡ ruled.now)) }
        ensures index { IfOk result (λ o. IfSome o (IsIndex (map (λ id. rule_of (tree_in tree.now id)) (nodes_of rules.entry)))) }
    {
        if rules.len() < FEWEST {
            return Ok(None);
        }
        let positions = positions(alloc, tree, rules)?;
        let every = Bits::first(alloc, rules.len() as u64)?;
        Ok(Some(RuleIndex {
            ruled: *ruled,
            every,
            positions,
        }))
    }

    // The rules that may match.
    fn left(
        &self,
        subjects: &Subjects,
        diagrams: &Diagrams,
        numbers: &mut Numbers,
    ) -> Result<Bits, AllocError>
        requires valid { All (IsValid diagrams.now) subjects.now.values.now }
        requires known { Remembers diagrams.now numbers.old }
        ensures known { Remembers diagrams.now numbers.new }
        ensures left { IfOk result (λ b. (rules : List Rule) → IsIndex rules self.now
            → Leaves rules subjects.now.values.now diagrams.now (Some b)) }
    {
        let mut left = self.every.copy(subjects.alloc)?;
        for position in &self.positions {
            position.narrow(subjects, diagrams, numbers, &mut left)?;
        }
        Ok(left)
    }
}

/// The rules that may match, where there is an index of them.
pub(crate) fn left_by(
    index: Option<&RuleIndex>,
    subjects: &Subjects,
    diagrams: &Diagrams,
    numbers: &mut Numbers,
) -> Result<Option<Bits>, AllocError>
    requires valid { All (IsValid diagrams.now) subjects.now.values.now }
    requires known { Remembers diagrams.now numbers.old }
    ensures known { Remembers diagrams.now numbers.new }
    ensures left { IfOk result (λ o. (rules : List Rule) → IfSome index.entry (λ x. IsIndex rules x.now)
        → Leaves rules subjects.now.values.now diagrams.now o) }
{
    match index {
        None => Ok(None),
        Some(index) => {
            let left = index.left(subjects, diagrams, numbers)?;
            Ok(Some(left))
        }
    }
}

/// The index of the first rule from an index on that may match, if it is before an end; else the end.
pub(crate) fn next_left(left: &Option<Bits>, from: u64, end: u64) -> u64
    ensures from { from ≤ end → from ≤ result }
    ensures within { from ≤ end → result ≤ end }
    ensures skipped { (j : ℕ) → from ≤ j → j < result → IsOut left.now j }
{
    match left {
        None => from,
        Some(bits) => bits.next(from, end),
    }
}
