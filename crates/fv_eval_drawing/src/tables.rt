// Tables: what stands before `rdtable` or `rwtable` becomes a table and what it takes.

ghost use Rattle.std.specs.Prelude.{◌≡◌, ◌+◌, ◌<◌, ◌≤◌, length, true, IfOk};
ghost use Rattle.fv_num.specs.headline.Words.{argument};
ghost use Rattle.fv_diagram.specs.headline.Diagram.{Primitive as Leaf, Seq, Table, outputs, size as size_of, table_inputs};
ghost use Rattle.fv_diagram.specs.Arena.{ChildrenBelow, count_of, list_at, tree_of, tree_with};
ghost use Rattle.fv_diagram_numbers.specs.headline.Numbers.{at_first};
ghost use Rattle.fv_diagram_numbers.specs.headline.Heads.{all_outputs, cut, is_fixed, is_head, parts, table_numbers};
ghost use Rattle.fv_rules.specs.headline.Steps.{put, sized, tabled, tabled_by, waved};
ghost use Rattle.fv_eval_drawing.specs.declared.lists.Link.TheVariants as link;
ghost use Rattle.fv_eval_drawing.specs.Lists.{all_from_right, linked};
ghost use Rattle.fv_eval_drawing.specs.Makes.{AddsDiagrams, AreThere, Extends, Makes, trees_of};
ghost use Rattle.fv_eval_drawing.specs.inner.Tables.{GrowsBy, PutsTable, as_table, table_primitive, writes_of};
ghost use Rattle.fv_base.specs.declared.limits.TheConstants.{SIZE_LIMIT};

use crate::diagrams::Drawing;
use fv_base::limits::TABLE_LIMIT;
use fv_diagram::{DiagramId, Node, Prim};
use fv_diagram_numbers::{Pieces, first_of, head_and_rest, is_head, numbers};
use fv_rules::{EvalRefusal, TableCause, too_many_to_count};
use std::alloc::AllocError;

impl Drawing {
    // What a node puts a table after, and whether that table is written; `None` where the node is put as it is.
    pub(crate) fn before_table(&self, node: &Node) -> Option<(DiagramId, bool)>
        requires { ChildrenBelow (count_of self.now.diagrams) node.now }
        ensures { PutsTable self.now.diagrams (tree_with self.now.diagrams node.now) result }
    {
        match *node {
            Node::Seq { left, right } => match self.table_primitive(right) {
                Some(writes) => self.fitting(left, writes),
                None => None,
            },
            _ => None,
        }
    }

    // Whether a diagram is `rwtable`, or is `rdtable`; `None` where it is neither.
    fn table_primitive(&self, id: DiagramId) -> Option<bool>
        requires { id < count_of self.now.diagrams }
        ensures { result ≡ as_table (tree_of self.now.diagrams id) }
    {
        match self.node(id) {
            Node::Prim(prim) => writes(prim),
            _ => None,
        }
    }

    // What stands before a table primitive, where it gives as much as that takes.
    fn fitting(&self, before: DiagramId, writes: bool) -> Option<(DiagramId, bool)>
        requires { before < count_of self.now.diagrams }
        ensures { PutsTable self.now.diagrams (Seq (tree_of self.now.diagrams before) (Leaf (table_primitive writes))) result }
    {
        if self.arity(before).outputs == taken_by(writes) {
            Some((before, writes))
        } else {
            None
        }
    }

    // Puts a table in the place of its primitive, after what it takes.
    pub(crate) fn table(
        &mut self,
        before: DiagramId,
        writes: bool,
    ) -> Result<DiagramId, EvalRefusal>
        requires before { before < count_of self.old.diagrams }
        requires outputs { outputs (tree_of self.old.diagrams before) ≡ 2 + table_inputs writes }
        ensures makes { Makes self.old self.new (tabled writes (tree_of self.old.diagrams before)) result }
        ensures keeps { Extends self.old self.new }
    {
        let Pieces { head, rest } = self.pieces(before)?;
        if self.is_head(head.as_slice())? {
            self.table_of(head, rest, writes)
        } else {
            Err(EvalRefusal::TableForm {
                cause: TableCause::Head,
            })
        }
    }

    // Puts the table of a head after what it takes. The sum is tried before a number is computed.
    fn table_of(
        &mut self,
        head: Vec<DiagramId>,
        rest: Vec<DiagramId>,
        writes: bool,
    ) -> Result<DiagramId, EvalRefusal>
        requires head { AreThere self.old.diagrams head.items }
        requires rest { AreThere self.old.diagrams rest.items }
        requires fixed { is_head (trees_of self.old.diagrams head.items) ≡ true }
        requires takes { all_outputs (trees_of self.old.diagrams rest.items) ≡ table_inputs writes }
        ensures makes { Makes self.old self.new
            (tabled_by writes (trees_of self.old.diagrams head.items) (trees_of self.old.diagrams rest.items)) result }
        ensures keeps { Extends self.old self.new }
    {
        let whole = self.side_by_side(head)?;
        let size = self.first_of(whole)?;
        if size < 1 {
            return Err(EvalRefusal::TableForm {
                cause: TableCause::Size,
            });
        }
        let count = size as u64;
        self.grow(count * u64::from(self.size(whole)))?;
        let taken = self.side_by_side(rest)?;
        let values = self.numbers(whole, count)?;
        self.table_behind(taken, values.as_slice(), writes)
    }

    // Puts a table of these numbers after a diagram.
    fn table_behind(
        &mut self,
        taken: DiagramId,
        values: &[i32],
        writes: bool,
    ) -> Result<DiagramId, EvalRefusal>
        requires taken { taken < count_of self.old.diagrams }
        requires fits { outputs (tree_of self.old.diagrams taken) ≡ table_inputs writes }
        requires some { 1 ≤ length values.now }
        ensures makes { Makes self.old self.new (sized (Seq (tree_of self.old.diagrams taken) (Table values.now writes))) result }
        ensures keeps { Extends self.old self.new }
    {
        let list = self.list(values)?;
        let table = self.leaf(&Node::Table {
            table: list,
            writes,
        })?;
        self.put_node(&Node::Seq {
            left: taken,
            right: table,
        })
    }

    /// Puts a waveform of numbers, by which the table sum grows.
    pub fn waveform(&mut self, values: &[i32]) -> Result<DiagramId, EvalRefusal>
        requires { 1 ≤ length values.now }
        ensures makes { Makes self.old self.new (waved values.now) result }
        ensures keeps { Extends self.old self.new }
    {
        self.grow(values.len() as u64)?;
        let list = self.list(values)?;
        let wave = self.leaf(&Node::Wave(list))?;
        Ok(wave)
    }

    // Adds `cost` to the table sum, unless the sum is then over the limit.
    fn grow(&mut self, cost: u64) -> Result<(), EvalRefusal>
        ensures { GrowsBy self.old self.new cost result }
    {
        let Some(sum) = self.tables.checked_add(cost) else {
            return Err(EvalRefusal::from(too_many_to_count()));
        };
        if sum > TABLE_LIMIT {
            return Err(EvalRefusal::TableBudget { sum });
        }
        self.tables = sum;
        Ok(())
    }

    // Keeps a list of numbers.
    fn list(&mut self, values: &[i32]) -> Result<u64, AllocError>
        requires { 1 ≤ length values.now }
        ensures there { IfOk result (λ t. t < length self.new.diagrams.lists) }
        ensures list { IfOk result (λ t. list_at self.new.diagrams.lists t ≡ values.now) }
        ensures adds { AddsDiagrams self.old self.new }
    {
        self.diagrams.table(self.alloc, values)
    }

    // Parts side by side, put from the right: what `from_right` makes of them, which cannot be called from here.
    fn side_by_side(&mut self, mut parts: Vec<DiagramId>) -> Result<DiagramId, EvalRefusal>
        requires { AreThere self.old.diagrams parts.items }
        ensures makes { Makes self.old self.new (all_from_right (linked link.Parallel) (trees_of self.old.diagrams parts.items)) result }
        ensures keeps { Extends self.old self.new }
    {
        let Some(last) = parts.pop() else {
            return Err(EvalRefusal::IterationCount { count: 0 });
        };
        let mut whole = last;
        'linking: while let Some(part) = parts.pop() {
            match self.beside(part, whole) {
                Ok(id) => whole = id,
                Err(refusal) => return Err(refusal),
            }
        }
        Ok(whole)
    }

    // Puts two parts side by side.
    fn beside(&mut self, left: DiagramId, right: DiagramId) -> Result<DiagramId, EvalRefusal>
        requires left { left < count_of self.old.diagrams }
        requires right { right < count_of self.old.diagrams }
        ensures makes { Makes self.old self.new
            (put (linked link.Parallel (tree_of self.old.diagrams left) (tree_of self.old.diagrams right))) result }
        ensures keeps { Extends self.old self.new }
    {
        self.put_node(&Node::Par { left, right })
    }

    // What stands before a table primitive, cut into the table's head and what the table takes.
    fn pieces(&self, before: DiagramId) -> Result<Pieces, AllocError>
        requires { before < count_of self.now.diagrams }
        ensures head { IfOk result (λ p. AreThere self.now.diagrams p.head.items) }
        ensures rest { IfOk result (λ p. AreThere self.now.diagrams p.rest.items) }
        ensures cut { IfOk result (λ p. cut 2 (parts (tree_of self.now.diagrams before))
            ≡ (trees_of self.now.diagrams p.head.items, trees_of self.now.diagrams p.rest.items)) }
    {
        head_and_rest(self.alloc, &self.diagrams, before)
    }

    // Whether parts give a size and numbers, and depend on nothing else.
    fn is_head(&self, parts: &[DiagramId]) -> Result<bool, AllocError>
        requires { AreThere self.now.diagrams parts.now }
        ensures { IfOk result (λ b. b ≡ is_head (trees_of self.now.diagrams parts.now)) }
    {
        is_head(self.alloc, &self.diagrams, parts)
    }

    // How many nodes a diagram has.
    fn size(&self, id: DiagramId) -> u32
        requires { id < count_of self.now.diagrams }
        ensures size { result ≡ size_of (tree_of self.now.diagrams id) }
        ensures within { result ≤ SIZE_LIMIT }
    {
        self.diagrams.size(id)
    }

    // The first number that a head gives at time 0.
    fn first_of(&self, head: DiagramId) -> Result<i32, AllocError>
        requires inside { head < count_of self.now.diagrams }
        requires fixed { is_fixed (tree_of self.now.diagrams head) ≡ true }
        requires two { outputs (tree_of self.now.diagrams head) ≡ 2 }
        ensures { IfOk result (λ n. n ≡ argument (at_first (tree_of self.now.diagrams head)) 0) }
    {
        first_of(self.alloc, &self.diagrams, head)
    }

    // The first `count` numbers of its second output.
    fn numbers(&self, head: DiagramId, count: u64) -> Result<Vec<i32>, AllocError>
        requires inside { head < count_of self.now.diagrams }
        requires fixed { is_fixed (tree_of self.now.diagrams head) ≡ true }
        requires two { outputs (tree_of self.now.diagrams head) ≡ 2 }
        ensures numbers { IfOk result (λ v. v.items ≡ table_numbers count (tree_of self.now.diagrams head)) }
        ensures many { IfOk result (λ v. length v.items ≡ count) }
    {
        numbers(self.alloc, &self.diagrams, head, count)
    }
}

// Whether the table of a table primitive is written; `None` of every other primitive.
fn writes(prim: Prim) -> Option<bool>
    ensures { result ≡ writes_of prim }
{
    match prim {
        Prim::ReadTable => Some(false),
        Prim::WriteTable => Some(true),
        _ => None,
    }
}

// How many streams a table primitive takes: a size, a number, and what its table takes.
fn taken_by(writes: bool) -> u32
    ensures { result ≡ 2 + table_inputs writes }
{
    if writes { 5 } else { 3 }
}
