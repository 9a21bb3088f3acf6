// Which nodes of the text may match a diagram as patterns: a row of bits for each diagram, made from the rows of its parts.

ghost use Rattle.std.specs.Prelude.{ℕ, ◌≡◌, ◌<◌, ◌++◌, List, [], Some, false, All, IfOk, IfSome, get_or, length, slice_get};
ghost use Rattle.fv_parse.specs.Trees.{Parsed, size_of};
ghost use Rattle.fv_diagram.specs.headline.Diagram.{Diagram};
ghost use Rattle.fv_diagram.specs.Arena.{Arena, count_of, tree_of};
ghost use Rattle.fv_eval_scopes.specs.Memo.{Remembers};
ghost use Rattle.fv_eval_patterns.specs.Bits.{has};
ghost use Rattle.fv_eval_patterns.specs.Shapes.{Denies, IsRowed, IsSeen, IsShape, IsShapeRow, IsSurvey, IsThere};
ghost use Rattle.fv_eval_patterns.specs.Shapes.{Never, Sees, SeesParts, marked, DeniesParts, HasNoOther};
ghost use Rattle.fv_eval_patterns.specs.Trials.{Says};

use crate::bits::Bits;
use crate::shapes::{Composition, Shape, composition_of, is_same_shape, number_is, stands_for};
use crate::value_patterns::Pair;
use fv_diagram::{DiagramId, Diagrams};
use fv_eval_scopes::Numbers;
use fv_parse::{Tree, TreeId, TreeNode};
use fv_parse_grammar::Operator;
use fv_rules::{literal, negative_literal};
use std::alloc::{AllocError, Global};
use std::marker::Model;

/// A row costs as much as trying one pair for each `CHEAPER` nodes of the text.
const CHEAPER: u64 = 16;

/// The most bits that are kept in rows: 256 MB.
const MOST_BITS: u64 = 2_147_483_648;

/// How many slots the cache of shapes has, and that of rows by their bits.
const SLOTS: usize = 65_536;

/// The row of diagrams of a shape.
#[derive(Clone, Copy, Debug)]
pub struct ShapeRow {
    pub shape: Shape,
    pub row: u64,
}

/// What is seen of a diagram.
#[derive(Clone, Copy, Debug)]
pub enum Look {
    Seen(Shape),
    /// This part of it has no row yet.
    Part(DiagramId),
}

/// The rows that are known. Both caches are direct-mapped: each shape and each row has one slot, and a later one evicts what it
/// has. Rows are made only once the pairs that were tried without them have cost as much as they do.
#[derive(Drop)]
pub(crate) struct Survey {
    rows: Vec<Bits>, // The rows, each once: the set of the nodes of the text that may match.
    steps: Vec<Option<ShapeRow>>, // A cache from shapes to rows.
    of_diagrams: Vec<Option<u64>>, // By diagram: the index of its row, where it has one.
    by_bits: Vec<u64>, // A cache from the bits of a row to its index.
    tried: u64, // How many pairs were tried.
    spent: u64, // What the rows cost so far, in pairs.
}

impl Model for Survey {
    ghost use Rattle.fv_eval_patterns.specs.Surveyed.{Surveyed};

    ghost Value = { Surveyed };

    ghost view = { λ t. record { rows = t.rows.items; steps = t.steps.items; diagrams = t.of_diagrams.items } };
}

impl Survey {
    /// Nothing is known.
    pub(crate) fn new(alloc: Global) -> Survey
        ensures { result ≡ record { rows = []; steps = []; diagrams = [] } }
    {
        Survey {
            rows: Vec::new(alloc),
            steps: Vec::new(alloc),
            of_diagrams: Vec::new(alloc),
            by_bits: Vec::new(alloc),
            tried: 0,
            spent: 0,
        }
    }

    // The row of a diagram.
    fn row_of(&self, id: DiagramId) -> Option<u64>
        ensures { IfSome result (λ r. slice_get self.now.diagrams id ≡ Some (Some r)) }
    {
        let i = id.number() as usize;
        if i < self.of_diagrams.len() {
            self.of_diagrams[i]
        } else {
            None
        }
    }

    // Whether a row has a node of the text.
    fn marks(&self, row: u64, node: TreeId) -> bool
        ensures { result ≡ marked self.now.rows row node }
    {
        let i = row as usize;
        if i < self.rows.len() {
            self.rows[i].has(node.number())
        } else {
            false
        }
    }

    /// Whether a pair may match, where the diagram has a row.
    pub(crate) fn tells(&self, pair: &Pair) -> Option<bool>
        ensures { IfSome result (λ b. (p : Parsed) (a : Arena) → IsSurvey p a self.now → Says p a b pair.now) }
    {
        let row = self.row_of(pair.diagram)?;
        Some(self.marks(row, pair.pattern))
    }

    // ---- a new row

    // Whether two patterns may match the parts of diagrams of a shape.
    fn parts_may_match(&self, operator: Operator, p: TreeId, q: TreeId, shape: Shape) -> bool
        ensures { result ≡ false → (t : Parsed) (d : Diagram) → IsShape t self.now.rows shape d → DeniesParts t operator p q d }
    {
        let Shape::Composed { by, left, right } = shape else {
            return false;
        };
        if !stands_for(operator, by) {
            return false;
        }
        if !self.marks(left, p) {
            return false;
        }
        self.marks(right, q)
    }

    // Whether a node of the text may match diagrams of a shape.
    fn may_match(&self, tree: &Tree, id: TreeId, shape: Shape) -> bool
        requires { id < size_of tree.now }
        ensures { result ≡ false → (d : Diagram) → IsShape tree.now self.now.rows shape d → Never tree.now id d }
    {
        match tree.node(id) {
            TreeNode::Number(n) => number_is(shape, literal(*n)),
            TreeNode::Negative(n) => number_is(shape, negative_literal(*n)),
            TreeNode::Binary(operator, p, q) => self.parts_may_match(*operator, *p, *q, shape),
            _ => true,
        }
    }

    // The nodes of the text that may match diagrams of a shape.
    fn row(&self, alloc: Global, tree: &Tree, shape: Shape) -> Result<Bits, AllocError>
        ensures { IfOk result (λ b. (x : ℕ) → has b x ≡ false → (d : Diagram) → IsShape tree.now self.now.rows shape d → Never tree.now x d) }
    {
        let mut row = Bits::new(alloc);
        for i in 0..tree.len() {
            if self.may_match(tree, TreeId::new(i), shape) {
                row.add(i)?;
            }
        }
        Ok(row)
    }

    // The number of a row, which is kept unless it is there.
    fn keep_row(&mut self, row: Bits, cost: u64) -> Result<u64, AllocError>
        ensures survey { (p : Parsed) (a : Arena) → IsSurvey p a self.old → IsSurvey p a self.new }
        ensures grows { (more : List (List ℕ)) × (self.new.rows ≡ self.old.rows ++ more) }
        ensures row { IfOk result (λ r. (r < length self.new.rows) × (get_or self.new.rows r [] ≡ row)) }
    {
        self.spent = self.spent.saturating_add(cost);
        let slot = (row.mixed() % SLOTS as u64) as usize;
        let known = number_at(&self.by_bits, slot) as usize;
        if known < self.rows.len() && self.rows[known].is_same(&row) {
            return Ok(known as u64);
        }
        let number = self.rows.len() as u64;
        self.rows.push(row)?;
        put_number(&mut self.by_bits, slot, number)?;
        Ok(number)
    }

    // ---- shapes and diagrams

    // The slot of a shape.
    fn slot(shape: &Shape) -> usize
        ensures { result < SLOTS }
    {
        let mixed = match *shape {
            Shape::Number(n) => u64::from(n.cast_unsigned()).wrapping_mul(0x9e37_79b9),
            Shape::Plain => 1,
            Shape::Composed { by: _, left, right } => left
                .wrapping_mul(0x9e37_79b9)
                .wrapping_add(right)
                .wrapping_mul(5),
        };
        (mixed % SLOTS as u64) as usize
    }

    // What a slot has.
    fn step_at(&self, i: usize) -> Option<ShapeRow>
        ensures { IfSome result (λ f. slice_get self.now.steps i ≡ Some (Some f)) }
    {
        if i < self.steps.len() {
            self.steps[i]
        } else {
            None
        }
    }

    // The row of diagrams of a shape, if that is remembered.
    fn remembered(&self, shape: &Shape) -> Option<u64>
        ensures { IfSome result (λ r. (p : Parsed) (a : Arena) → IsSurvey p a self.now
            → IsShapeRow p self.now.rows (record { shape = shape.now; row = r })) }
    {
        let step = self.step_at(Survey::slot(shape))?;
        if is_same_shape(&step.shape, shape) {
            Some(step.row)
        } else {
            None
        }
    }

    // Remembers the row of a shape.
    fn keep_step(&mut self, step: ShapeRow) -> Result<(), AllocError>
        ensures rows { self.new.rows ≡ self.old.rows }
        ensures survey { (p : Parsed) (a : Arena) → IsSurvey p a self.old → IsShapeRow p self.old.rows step → IsSurvey p a self.new }
    {
        let i = Survey::slot(&step.shape);
        put_step(&mut self.steps, i, step)?;
        Ok(())
    }

    // Gives a diagram its row.
    fn assign(&mut self, id: DiagramId, row: u64) -> Result<(), AllocError>
        ensures { (p : Parsed) (a : Arena) → IsSurvey p a self.old → IsRowed p a self.old.rows id row → IsSurvey p a self.new }
    {
        put_row(&mut self.of_diagrams, id.number() as usize, row)?;
        Ok(())
    }

    // Counts what was spent, in pairs.
    fn spend(&mut self, cost: u64)
        ensures { self.new ≡ self.old }
    {
        self.spent = self.spent.saturating_add(cost);
    }

    // Whether a row may be made: as much was tried as it costs, and there is room.
    fn may_make(&self, nodes: u64) -> bool {
        let cost = self.spent.saturating_add(nodes / CHEAPER);
        let bits = nodes.saturating_mul((self.rows.len() as u64).saturating_add(1));
        cost <= self.tried && bits <= MOST_BITS
    }

    // Gives a diagram of a shape its row: whether it has one now.
    fn settle(
        &mut self,
        alloc: Global,
        tree: &Tree,
        id: DiagramId,
        shape: Shape,
    ) -> Result<bool, AllocError>
        ensures { (a : Arena) → IsSurvey tree.now a self.old → IsSeen tree.now a self.old.rows id shape → IsSurvey tree.now a self.new }
    {
        if let Some(row) = self.remembered(&shape) {
            self.assign(id, row)?;
            return Ok(true);
        }
        if !self.may_make(tree.len()) {
            return Ok(false);
        }
        let made = self.row(alloc, tree, shape)?;
        let row = self.keep_row(made, tree.len() / CHEAPER)?;
        self.keep_step(ShapeRow { shape, row })?;
        self.assign(id, row)?;
        Ok(true)
    }

    // ---- from a diagram to its parts

    // What is seen of a composition of two diagrams.
    fn look_at_parts(&self, by: Composition, left: DiagramId, right: DiagramId) -> Look
        ensures { SeesParts self.now by left right result }
    {
        let Some(of_left) = self.row_of(left) else {
            return Look::Part(left);
        };
        let Some(of_right) = self.row_of(right) else {
            return Look::Part(right);
        };
        Look::Seen(Shape::Composed {
            by,
            left: of_left,
            right: of_right,
        })
    }

    // What is seen of a diagram.
    fn look(
        &self,
        alloc: Global,
        diagrams: &Diagrams,
        numbers: &mut Numbers,
        id: DiagramId,
    ) -> Result<Look, AllocError>
        requires there { IsThere diagrams.now id }
        requires known { Remembers diagrams.now numbers.old }
        ensures known { Remembers diagrams.now numbers.new }
        ensures sees { IfOk result (λ l. Sees diagrams.now self.now id l) }
    {
        if let Some(n) = numbers.number_of(alloc, diagrams, id)? {
            return Ok(Look::Seen(Shape::Number(n)));
        }
        match composition_of(diagrams.node(id)) {
            None => Ok(Look::Seen(Shape::Plain)),
            Some((by, left, right)) => Ok(self.look_at_parts(by, left, right)),
        }
    }

    // Gives a diagram its row, or has a part without one looked at before it: whether to go on.
    fn visit(
        &mut self,
        alloc: Global,
        tree: &Tree,
        diagrams: &Diagrams,
        numbers: &mut Numbers,
        id: DiagramId,
        left: &mut Vec<DiagramId>,
    ) -> Result<bool, AllocError>
        requires there { IsThere diagrams.now id }
        requires left { All (IsThere diagrams.now) left.old.items }
        requires known { Remembers diagrams.now numbers.old }
        requires survey { IsSurvey tree.now diagrams.now self.old }
        ensures left { IfOk result (λ _. All (IsThere diagrams.now) left.new.items) }
        ensures known { Remembers diagrams.now numbers.new }
        ensures survey { IsSurvey tree.now diagrams.now self.new }
    {
        if self.row_of(id).is_some() {
            return Ok(true);
        }
        match self.look(alloc, diagrams, numbers, id)? {
            Look::Seen(shape) => {
                let goes_on = self.settle(alloc, tree, id, shape)?;
                Ok(goes_on)
            }
            Look::Part(part) => {
                left.push(id)?;
                left.push(part)?;
                Ok(true)
            }
        }
    }

    /// Gives a diagram its row, and its parts theirs, as far as the `tried` pairs pay for it.
    pub(crate) fn explore(
        &mut self,
        alloc: Global,
        tree: &Tree,
        diagrams: &Diagrams,
        numbers: &mut Numbers,
        whole: DiagramId,
        tried: u64,
    ) -> Result<(), AllocError>
        requires there { IsThere diagrams.now whole }
        requires known { Remembers diagrams.now numbers.old }
        requires survey { IsSurvey tree.now diagrams.now self.old }
        ensures known { Remembers diagrams.now numbers.new }
        ensures survey { IsSurvey tree.now diagrams.now self.new }
    {
        self.tried = tried;
        if !self.may_make(tree.len()) || self.row_of(whole).is_some() {
            return Ok(());
        }
        let mut left = Vec::new(alloc);
        left.push(whole)?;
        'visits: for visits in 0..u64::MAX {
            let Some(id) = left.pop() else {
                self.spend(visits);
                return Ok(());
            };
            if !self.visit(alloc, tree, diagrams, numbers, id, &mut left)? {
                self.spend(visits);
                return Ok(());
            }
        }
        Ok(())
    }
}

// The number at an index of a list, and 0 where there is none.
fn number_at(list: &Vec<u64>, i: usize) -> u64 {
    if i < list.len() { list[i] } else { 0 }
}

// Puts a number at an index of a list, which is widened to it.
fn put_number(list: &mut Vec<u64>, i: usize, number: u64) -> Result<(), AllocError> {
    'widen: while list.len() <= i {
        list.push(0)?;
    }
    list[i] = number;
    Ok(())
}

// Puts the row of a shape at an index of a list, which is widened to it.
fn put_step(list: &mut Vec<Option<ShapeRow>>, i: usize, step: ShapeRow) -> Result<(), AllocError>
    ensures { HasNoOther list.old.items list.new.items i step }
{
    'widen: while list.len() <= i {
        list.push(None)?;
    }
    list[i] = Some(step);
    Ok(())
}

// Puts the row of a diagram at an index of a list, which is widened to it.
fn put_row(list: &mut Vec<Option<u64>>, i: usize, row: u64) -> Result<(), AllocError>
    ensures { HasNoOther list.old.items list.new.items i row }
{
    'widen: while list.len() <= i {
        list.push(None)?;
    }
    list[i] = Some(row);
    Ok(())
}
