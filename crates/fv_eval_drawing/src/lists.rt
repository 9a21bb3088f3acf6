// Compositions of lists.

ghost use Rattle.std.specs.Prelude.{◌≡◌, ◌<◌};
ghost use Rattle.fv_diagram.specs.Primitive.TheVariants as prim;
ghost use Rattle.fv_diagram.specs.Arena.{count_of, tree_of};
ghost use Rattle.fv_rules.specs.headline.Steps.{put};
ghost use Rattle.fv_rules.specs.headline.Rules.{from_left, gathered};
ghost use Rattle.fv_eval_drawing.specs.Makes.{AreThere, Extends, Makes, MakesValue, trees_of};
ghost use Rattle.fv_eval_drawing.specs.Lists.{all_from_left, all_from_right, linked};

use crate::diagrams::Drawing;
use fv_diagram::{DiagramId, Node, Prim};
use fv_num::Op;
use fv_parse_grammar::Iteration;
use fv_rules::EvalRefusal;

/// How the parts of a list are put together: side by side, or after one another.
#[derive(Clone, Copy, Debug)]
pub enum Link {
    Parallel,
    Sequence,
}

impl Drawing {
    // Puts two parts together.
    fn link(
        &mut self,
        link: Link,
        left: DiagramId,
        right: DiagramId,
    ) -> Result<DiagramId, EvalRefusal>
        requires left { left < count_of self.old.diagrams }
        requires right { right < count_of self.old.diagrams }
        ensures makes { Makes self.old self.new
            (put (linked link (tree_of self.old.diagrams left) (tree_of self.old.diagrams right))) result }
        ensures keeps { Extends self.old self.new }
    {
        match link {
            Link::Parallel => self.put(&Node::Par { left, right }),
            Link::Sequence => self.put(&Node::Seq { left, right }),
        }
    }

    /// Puts a list together from the right.
    pub fn from_right(
        &mut self,
        link: Link,
        mut parts: Vec<DiagramId>,
    ) -> Result<DiagramId, EvalRefusal>
        requires { AreThere self.old.diagrams parts.items }
        ensures makes { Makes self.old self.new (all_from_right (linked link) (trees_of self.old.diagrams parts.items)) result }
        ensures keeps { Extends self.old self.new }
    {
        let Some(last) = parts.pop() else {
            return Err(EvalRefusal::IterationCount { count: 0 });
        };
        let mut whole = last;
        'linking: while let Some(part) = parts.pop() {
            match self.link(link, part, whole) {
                Ok(id) => whole = id,
                Err(refusal) => return Err(refusal),
            }
        }
        Ok(whole)
    }

    // Puts a part and others together from the left by an operation.
    fn from_left(
        &mut self,
        op: Op,
        first: DiagramId,
        others: &[DiagramId],
    ) -> Result<DiagramId, EvalRefusal>
        requires first { first < count_of self.old.diagrams }
        requires others { AreThere self.old.diagrams others.now }
        ensures makes { Makes self.old self.new
            (from_left (prim.Point op) (tree_of self.old.diagrams first) (trees_of self.old.diagrams others.now)) result }
        ensures keeps { Extends self.old self.new }
    {
        let mut whole = first;
        'operating: for part in others {
            whole = self.operate(Prim::Point(op), whole, *part)?;
        }
        Ok(whole)
    }

    // Puts a list together from the left by an operation.
    fn all_from_left(&mut self, op: Op, parts: &[DiagramId]) -> Result<DiagramId, EvalRefusal>
        requires { AreThere self.old.diagrams parts.now }
        ensures makes { Makes self.old self.new (all_from_left op (trees_of self.old.diagrams parts.now)) result }
        ensures keeps { Extends self.old self.new }
    {
        match parts.split_first() {
            None => Err(EvalRefusal::IterationCount { count: 0 }),
            Some((first, others)) => self.from_left(op, *first, others),
        }
    }

    /// Puts the bodies of an iteration together.
    pub fn gather(
        &mut self,
        kind: Iteration,
        bodies: Vec<DiagramId>,
    ) -> Result<DiagramId, EvalRefusal>
        requires { AreThere self.old.diagrams bodies.items }
        ensures makes { MakesValue self.old self.new (gathered kind (trees_of self.old.diagrams bodies.items)) result }
        ensures keeps { Extends self.old self.new }
    {
        match kind {
            Iteration::Parallel => self.from_right(Link::Parallel, bodies),
            Iteration::Sequence => self.from_right(Link::Sequence, bodies),
            Iteration::Sum => self.all_from_left(Op::Add, bodies.as_slice()),
            Iteration::Product => self.all_from_left(Op::Mul, bodies.as_slice()),
        }
    }
}
