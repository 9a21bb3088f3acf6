// Which rules an argument leaves by what it is at one position.

ghost use Rattle.std.specs.Prelude.{ℕ, ◌≡◌, ◌<◌, List, All, IfOk, IfSome, OnOk, Some, map, true, false, slice_get, filter, length};
ghost use Rattle.fv_parse.specs.Token.{Lexed};
ghost use Rattle.fv_parse.specs.Trees.{size_of, tree_in};
ghost use Rattle.fv_rules.specs.headline.Values.{Rule, Value as PureValue, rule_of};
ghost use Rattle.fv_eval_scopes.specs.Memo.{Remembers};
ghost use Rattle.fv_eval_scopes.specs.Shows.{World, ShowsValues};
ghost use Rattle.fv_eval_patterns.specs.Patterns.{IsValid};
ghost use Rattle.fv_eval_lookup.specs.declared.positions.Row.{Row as ARow};
ghost use Rattle.fv_eval_lookup.specs.Chosen.{nodes_of};
ghost use Rattle.fv_eval_patterns.specs.Bits.{has};
ghost use Rattle.fv_eval_lookup.specs.Positions.{HasBoth, Sorts, is_for, key_at, permits, want_at};
ghost use Rattle.fv_eval_lookup.specs.Leaving.{Knows, Narrows};

use crate::first_rule::Rules;
use crate::paths::{COMPOSITIONS, Path, Side, diagram_key, diagram_part, want_at};
use crate::wants::{Wanted, Wants};
use fv_diagram::Diagrams;
use fv_eval_patterns::{Bits, Subjects, WORD};
use fv_eval_scopes::{Numbers, Value};
use fv_parse::Tree;
use std::alloc::{AllocError, Global};
use std::collections::VecDeque;

/// The rules that an argument with a key leaves, where many rules want that key.
#[derive(Drop)]
pub(crate) struct Row {
    key: u64,
    rules: Bits,
}

/// What rules want at a position: those that want nothing there, the others by key, and a row for each key that many want.
#[derive(Drop)]
pub(crate) struct Position {
    path: Path,
    free: Bits,
    wants: Wants,
    rows: Vec<Row>,
}

// What each of the rules wants at a position. Those that want nothing there are added to the others.
fn sort_out(
    alloc: Global,
    tree: &Tree,
    rules: Rules,
    path: &Path,
    free: &mut Bits,
) -> Result<Vec<Wanted>, AllocError>
    requires { All (λ id. id < size_of tree.now) (nodes_of rules) }
    ensures { IfOk result (λ v. Sorts (map (λ id. rule_of (tree_in tree.now id)) (nodes_of rules.entry)) path.now
        (length (nodes_of rules.entry)) free.new v.items) }
{
    let mut wants = Vec::new(alloc);
    for i in 0..rules.len() {
        let node = rules.node(i);
        let rule = i as u64;
        match want_at(tree, node, path) {
            None => free.add(rule)?,
            Some(key) => wants.push(Wanted { key, rule })?,
        }
    }
    Ok(wants)
}

// A row for each key that at least `many` rules want.
fn rows(alloc: Global, free: &Bits, wants: &Wants, many: usize) -> Result<Vec<Row>, AllocError>
    ensures { IfOk result (λ v. All (λ (r : ARow). HasBoth free.now (filter (is_for r.key) wants.now) r.rules) v.items) }
{
    let mut rows = Vec::new(alloc);
    for key in wants.keys(alloc, many)? {
        let rules = wants.with(alloc, free, key)?;
        rows.push(Row { key, rules })?;
    }
    Ok(rows)
}

impl Position {
    /// What rules want at a position.
    pub(crate) fn new(
        alloc: Global,
        tree: &Tree,
        rules: Rules,
        path: Path,
    ) -> Result<Position, AllocError>
        requires { All (λ id. id < size_of tree.now) (nodes_of rules) }
        ensures { IfOk result (Knows (map (λ id. rule_of (tree_in tree.now id)) (nodes_of rules.entry))) }
    {
        let mut free = Bits::new(alloc);
        let found = sort_out(alloc, tree, rules, &path, &mut free)?;
        let wants = Wants::sort(found)?;
        let many = rules.len() / WORD as usize;
        let rows = rows(alloc, &free, &wants, many)?;
        Ok(Position {
            path,
            free,
            wants,
            rows,
        })
    }

    /// Whether it tells some of the `count` rules from the others: enough of them want something, and not nearly all the same.
    pub(crate) fn tells(&self, alloc: Global, count: usize) -> Result<bool, AllocError> {
        let same = self.wants.keys(alloc, count - count / 8)?;
        Ok(self.wants.len() >= count / 8 && same.is_empty())
    }

    /// Appends the positions further within, where many rules want a composition.
    pub(crate) fn further(
        &self,
        alloc: Global,
        paths: &mut VecDeque<Path>,
    ) -> Result<(), AllocError> {
        for row in &self.rows {
            if row.key < COMPOSITIONS {
                paths.push_back(self.path.to(alloc, Side::Left)?)?;
                paths.push_back(self.path.to(alloc, Side::Right)?)?;
                return Ok(());
            }
        }
        Ok(())
    }

    // The key of what an argument has at the position, if it has anything there.
    fn key(
        &self,
        subjects: &Subjects,
        diagrams: &Diagrams,
        numbers: &mut Numbers,
    ) -> Result<Option<u64>, AllocError>
        requires valid { All (IsValid diagrams.now) subjects.now.values.now }
        requires known { Remembers diagrams.now numbers.old }
        ensures known { Remembers diagrams.now numbers.new }
        ensures key { IfOk result (λ o. IfSome o (λ k. (w : World) (vs : List PureValue)
            → w.diagrams ≡ diagrams.now → ShowsValues w subjects.now.values.now vs → key_at self.now.path vs ≡ Some k)) }
    {
        let i = self.path.argument as usize;
        let values = subjects.values;
        if i >= values.len() {
            return Ok(None);
        }
        let value = &values[i];
        let Value::Diagram(id) = value else {
            return Ok(None);
        };
        let sides = self.path.sides.as_slice();
        let Some(part) = diagram_part(subjects.alloc, diagrams, numbers, *id, sides)? else {
            return Ok(None);
        };
        let key = diagram_key(subjects.alloc, diagrams, numbers, part)?;
        Ok(Some(key))
    }

    // Keeps only the rules that an argument with a key leaves.
    fn leave(&self, alloc: Global, key: u64, rules: &mut Bits) -> Result<(), AllocError>
        ensures { OnOk result ((all : List Rule) (j : ℕ) (r : Rule) → Knows all self.now → slice_get all j ≡ Some r
            → permits key (want_at self.now.path r) ≡ true → has rules.old j ≡ true → has rules.new j ≡ true) }
    {
        for row in &self.rows {
            if row.key == key {
                rules.keep(&row.rules);
                return Ok(());
            }
        }
        let left = self.wants.with(alloc, &self.free, key)?;
        rules.keep(&left);
        Ok(())
    }

    /// Keeps only the rules that may match by what the argument is at the position.
    pub(crate) fn narrow(
        &self,
        subjects: &Subjects,
        diagrams: &Diagrams,
        numbers: &mut Numbers,
        rules: &mut Bits,
    ) -> Result<(), AllocError>
        requires valid { All (IsValid diagrams.now) subjects.now.values.now }
        requires known { Remembers diagrams.now numbers.old }
        ensures known { Remembers diagrams.now numbers.new }
        ensures narrows { OnOk result ((all : List Rule) → Knows all self.now
            → Narrows all subjects.now.values.now diagrams.now rules.old rules.new) }
    {
        let Some(key) = self.key(subjects, diagrams, numbers)? else {
            return Ok(());
        };
        self.leave(subjects.alloc, key, rules)?;
        Ok(())
    }
}
