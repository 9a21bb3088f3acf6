// The diagrams of an evaluation.

ghost use Rattle.std.specs.Prelude.{◌≡◌, ◌*◌, ◌<◌, ◌≤◌, All, IfOk, IfSome, List, Ok, length};
ghost use Rattle.fv_diagram.specs.Arena.{ChildrenBelow, NamesLists, IsArity, count_of, empty_arena, tree_of, tree_with};
ghost use Rattle.fv_diagram.specs.headline.Diagram.{has_table_primitive};
ghost use Rattle.fv_diagram_numbers.specs.headline.Numbers.{number_of};
ghost use Rattle.fv_rules.specs.headline.Values.{Value as Meant};
ghost use Rattle.fv_rules.specs.headline.Matching.{chosen, number_or};
ghost use Rattle.fv_eval_scopes.specs.Shows.{World, IsInside, ShowsValues, rules_in};
ghost use Rattle.fv_eval_patterns.specs.Patterns.{with_diagrams};
ghost use Rattle.fv_eval_lookup.specs.Chosen.{ShowsChoice};
ghost use Rattle.fv_eval_patterns.specs.Trials.{Recalls};
ghost use Rattle.fv_rules.specs.headline.Steps.{put};
ghost use Rattle.fv_rules.specs.Puts.{Puts};
ghost use Rattle.fv_eval_drawing.specs.Makes.{AddsDiagrams, AreComposed, Draws, Extends, IsLeaf, IsThere, Makes};
ghost use Rattle.fv_base.specs.declared.limits.TheConstants.{SIZE_LIMIT};

use crate::recent::{Recent, is_same};
use crate::wires::Wires;
use fv_base::limits::MOST_DIAGRAMS;
use fv_diagram::{Arity, DiagramId, Diagrams, Node};
use fv_eval_lookup::Definitions;
use fv_eval_patterns::{Bindings, Trials};
use fv_eval_scopes::{Numbers, Ruled, Value};
use fv_parse::TreeId;
use fv_rules::{EvalRefusal, put, too_many_to_keep};
use std::alloc::{AllocError, Global};
use std::marker::Model;

/// The diagrams of an evaluation, with what is remembered of them.
#[derive(Drop)]
pub struct Drawing {
    // Where the lists take their memory.
    pub(crate) alloc: Global,
    // The diagrams that were put. Each is composed: the conditions of its compositions hold.
    pub(crate) diagrams: Diagrams,
    // A memo of the numbers of diagrams that were asked for.
    numbers: Numbers,
    // The diagrams of wires side by side, by their count.
    pub(crate) wires: Wires,
    // A cache of the diagrams that were put last, by their nodes.
    recent: Recent,
    // The table sum.
    pub(crate) tables: u64,
}

impl Model for Drawing {
    ghost use Rattle.fv_eval_scopes.specs.Memo.{Remembers};
    ghost use Rattle.fv_eval_drawing.specs.Makes.{AreComposed, Canvas};
    ghost use Rattle.fv_eval_drawing.specs.Wires.{AreWires};
    ghost use Rattle.fv_diagram.specs.Arena.{count_of};
    ghost use Rattle.std.specs.Prelude.{◌<◌, All};

    ghost Value = { Canvas };

    ghost view = { λ d. record { diagrams = d.diagrams; tables = d.tables } };

    ghost invariant = { λ d. AreComposed d.diagrams × Remembers d.diagrams d.numbers × AreWires d.diagrams d.wires
        × All (λ i. i < count_of d.diagrams) d.recent };
}

impl Drawing {
    /// No diagrams, and no tables.
    pub fn new(alloc: Global) -> Drawing
        ensures { result ≡ record { diagrams = empty_arena; tables = 0 } }
    {
        Drawing {
            alloc,
            diagrams: Diagrams::new(alloc),
            numbers: Numbers::new(alloc),
            wires: Wires::new(alloc),
            recent: Recent::new(alloc),
            tables: 0,
        }
    }

    /// The diagrams as they stand.
    pub fn finish(self) -> Diagrams
        ensures diagrams { result ≡ self.diagrams }
        ensures composed { AreComposed result }
    {
        self.diagrams
    }

    /// Puts a node over diagrams: its arity is tried first, then its size. A sequence
    /// with `rdtable` or `rwtable` alone on its right becomes a table.
    pub fn put(&mut self, node: &Node) -> Result<DiagramId, EvalRefusal>
        requires children { ChildrenBelow (count_of self.old.diagrams) node.now }
        requires lists { NamesLists (length self.old.diagrams.lists) node.now }
        ensures makes { Makes self.old self.new (put (tree_with self.old.diagrams node.now)) result }
        ensures keeps { Extends self.old self.new }
    {
        match self.before_table(node) {
            Some((before, writes)) => self.table(before, writes),
            None => self.put_node(node),
        }
    }

    // Puts a node as it is. One that was put lately is found again.
    pub(crate) fn put_node(&mut self, node: &Node) -> Result<DiagramId, EvalRefusal>
        requires children { ChildrenBelow (count_of self.old.diagrams) node.now }
        requires lists { NamesLists (length self.old.diagrams.lists) node.now }
        ensures puts { Puts self.new.diagrams (tree_with self.old.diagrams node.now) result }
        ensures adds { AddsDiagrams self.old self.new }
    {
        match self.found_again(node) {
            Some(id) => Ok(id),
            None => match self.put_anew(node) {
                Ok(id) => {
                    self.keep_node(node, id);
                    Ok(id)
                }
                Err(refusal) => Err(refusal),
            },
        }
    }

    // Keeps the diagram of a node, to be found again.
    fn keep_node(&mut self, node: &Node, id: DiagramId)
        requires { id < count_of self.old.diagrams }
        ensures { self.new ≡ self.old }
    {
        self.recent.keep(node, id);
    }

    // The diagram of a node that was put lately.
    fn found_again(&self, node: &Node) -> Option<DiagramId>
        ensures puts { IfSome result (λ i. Puts self.now.diagrams (tree_with self.now.diagrams node.now) (Ok i)) }
    {
        let id = self.recent.get(node)?;
        let found = self.diagrams.node(id);
        if !is_same(&found, node) {
            return None;
        }
        // The arena says here that the diagram is not too large.
        let _size = self.diagrams.size(id);
        Some(id)
    }

    // Puts a node as it is.
    fn put_anew(&mut self, node: &Node) -> Result<DiagramId, EvalRefusal>
        requires children { ChildrenBelow (count_of self.old.diagrams) node.now }
        requires lists { NamesLists (length self.old.diagrams.lists) node.now }
        ensures puts { Puts self.new.diagrams (tree_with self.old.diagrams node.now) result }
        ensures adds { AddsDiagrams self.old self.new }
    {
        match put(&mut self.diagrams, node) {
            Ok(id) => {
                if id.number() < MOST_DIAGRAMS {
                    Ok(id)
                } else {
                    Err(EvalRefusal::from(too_many_to_keep()))
                }
            }
            Err(refusal) => Err(refusal),
        }
    }

    /// Puts a node without parts, which always fits.
    pub fn leaf(&mut self, node: &Node) -> Result<DiagramId, AllocError>
        requires leaf { IsLeaf node.now }
        requires lists { NamesLists (length self.old.diagrams.lists) node.now }
        ensures draws { IfOk result (λ i. Draws self.new.diagrams i (tree_with self.old.diagrams node.now)) }
        ensures adds { AddsDiagrams self.old self.new }
    {
        match self.put_node(node) {
            Ok(id) => Ok(id),
            Err(refusal) => match refusal {
                EvalRefusal::NoMemory => Err(AllocError),
                _other => unreachable!(),
            },
        }
    }

    /// Whether `rdtable` or `rwtable` is still in a diagram.
    pub fn has_table_primitive(&self, id: DiagramId) -> bool
        requires { id < count_of self.now.diagrams }
        ensures { result ≡ has_table_primitive (tree_of self.now.diagrams id) }
    {
        self.diagrams.has_table_primitive(id)
    }

    /// How many streams a diagram takes and gives.
    pub fn arity(&self, id: DiagramId) -> Arity
        requires { id < count_of self.now.diagrams }
        ensures arity { IsArity (tree_of self.now.diagrams id) result }
        ensures inputs { result.inputs ≤ 5 * SIZE_LIMIT }
        ensures outputs { result.outputs ≤ 2 * SIZE_LIMIT }
    {
        self.diagrams.arity(id)
    }

    /// A node.
    pub fn node(&self, id: DiagramId) -> Node
        requires { id < count_of self.now.diagrams }
        ensures { tree_of self.now.diagrams id ≡ tree_with self.now.diagrams result }
    {
        self.diagrams.node(id)
    }

    /// The number of a diagram, its value at time 0; `None` where it has none.
    pub fn number_of(&mut self, alloc: Global, id: DiagramId) -> Result<Option<i32>, AllocError>
        requires { id < count_of self.old.diagrams }
        ensures number { IfOk result (λ o. o ≡ number_of (tree_of self.old.diagrams id)) }
        ensures same { self.new ≡ self.old }
    {
        self.numbers.number_of(alloc, &self.diagrams, id)
    }

    /// A diagram, or the integer that it is where it has a number.
    pub fn settle(&mut self, alloc: Global, id: DiagramId) -> Result<DiagramId, AllocError>
        requires { id < count_of self.old.diagrams }
        ensures draws { IfOk result
            (λ i. Draws self.new.diagrams i (number_or (number_of (tree_of self.old.diagrams id)) (tree_of self.old.diagrams id))) }
        ensures adds { AddsDiagrams self.old self.new }
    {
        if let Node::Number(_) = self.node(id) {
            return Ok(id);
        }
        match self.number_of(alloc, id)? {
            None => Ok(id),
            Some(n) => self.leaf(&Node::Number(n)),
        }
    }

    /// The right side and the bindings of the first rule that matches arguments; `None` where none does.
    pub fn choose(
        &mut self,
        alloc: Global,
        text: &Definitions,
        ruled: Ruled,
        trials: &mut Trials,
        arguments: &[Value],
    ) -> Result<Option<(TreeId, Bindings)>, AllocError>
        requires inside { IsInside text.now ruled }
        requires there { All (IsThere self.old.diagrams) arguments.now }
        requires recalls { Recalls text.now self.old.diagrams trials.old }
        ensures chosen { IfOk result (λ o. (w : World) (vs : List Meant) → w.tree ≡ text.now → w.diagrams ≡ self.old.diagrams
            → ShowsValues w arguments.now vs
            → ShowsChoice (with_diagrams w self.new.diagrams) o (chosen text.now.tokens (rules_in text.now ruled) vs)) }
        ensures adds { AddsDiagrams self.old self.new }
        ensures recalls { Recalls text.now self.new.diagrams trials.new }
    {
        text.choose(
            alloc,
            ruled,
            &mut self.diagrams,
            &mut self.numbers,
            trials,
            arguments,
        )
    }
}
