// Compositions of two parts, and binds.

ghost use Rattle.std.specs.Prelude.{ℕ, ◌≡◌, ◌+◌, ◌<◌, ◌^◌, pos};
ghost use Rattle.fv_diagram.specs.Primitive.TheVariants as prim;
ghost use Rattle.fv_diagram.specs.headline.Diagram.{Constant, Primitive as Leaf, Seq};
ghost use Rattle.fv_diagram.specs.Arena.{count_of, tree_of};
ghost use Rattle.fv_num.specs.declared.op.Op.TheVariants as op;
ghost use Rattle.fv_rules.specs.headline.Steps.{put};
ghost use Rattle.fv_rules.specs.headline.Rules.{bind_all, joined, operated};
ghost use Rattle.fv_eval_drawing.specs.Makes.{Extends, Makes};

use crate::diagrams::Drawing;
use fv_diagram::{DiagramId, Node, Prim};
use fv_num::Op;
use fv_parse_grammar::Operator;
use fv_rules::EvalRefusal;

impl Drawing {
    /// Puts an operation on two parts: `a op b` is `a,b : op`.
    pub fn operate(
        &mut self,
        primitive: Prim,
        left: DiagramId,
        right: DiagramId,
    ) -> Result<DiagramId, EvalRefusal>
        requires left { left < count_of self.old.diagrams }
        requires right { right < count_of self.old.diagrams }
        ensures makes { Makes self.old self.new
            (operated primitive (tree_of self.old.diagrams left) (tree_of self.old.diagrams right)) result }
        ensures keeps { Extends self.old self.new }
    {
        let operation = self.leaf(&Node::Prim(primitive))?;
        let both = self.put(&Node::Par { left, right })?;
        self.put(&Node::Seq {
            left: both,
            right: operation,
        })
    }

    /// Joins two parts.
    pub fn join(
        &mut self,
        operator: Operator,
        left: DiagramId,
        right: DiagramId,
    ) -> Result<DiagramId, EvalRefusal>
        requires left { left < count_of self.old.diagrams }
        requires right { right < count_of self.old.diagrams }
        ensures makes { Makes self.old self.new
            (joined operator (tree_of self.old.diagrams left) (tree_of self.old.diagrams right)) result }
        ensures keeps { Extends self.old self.new }
    {
        match operator {
            Operator::Infix(p) => self.operate(p, left, right),
            Operator::Recursion => self.put(&Node::Rec { left, right }),
            Operator::Parallel => self.put(&Node::Par { left, right }),
            Operator::Sequence => self.put(&Node::Seq { left, right }),
            Operator::Split => self.put(&Node::Split { left, right }),
            Operator::Merge => self.put(&Node::Merge { left, right }),
        }
    }

    /// Puts `d : mem`.
    pub fn delay(&mut self, diagram: DiagramId) -> Result<DiagramId, EvalRefusal>
        requires { diagram < count_of self.old.diagrams }
        ensures makes { Makes self.old self.new (put (Seq (tree_of self.old.diagrams diagram) (Leaf prim.Mem))) result }
        ensures keeps { Extends self.old self.new }
    {
        let right = self.leaf(&Node::Prim(Prim::Mem))?;
        self.put(&Node::Seq {
            left: diagram,
            right,
        })
    }

    /// Puts `0 - d`.
    pub fn negate(&mut self, diagram: DiagramId) -> Result<DiagramId, EvalRefusal>
        requires { diagram < count_of self.old.diagrams }
        ensures makes { Makes self.old self.new
            (operated (prim.Point op.Sub) (Constant (pos 0)) (tree_of self.old.diagrams diagram)) result }
        ensures keeps { Extends self.old self.new }
    {
        let zero = self.leaf(&Node::Number(0))?;
        self.operate(Prim::Point(Op::Sub), zero, diagram)
    }

    /// Puts `slots` binds around a body, of the slots from `slot` on.
    pub fn bind_all(
        &mut self,
        slot: u64,
        slots: u64,
        body: DiagramId,
    ) -> Result<DiagramId, EvalRefusal>
        requires body { body < count_of self.old.diagrams }
        requires slots { slot + slots < 2 ^ 64 }
        ensures makes { Makes self.old self.new (bind_all slot slots (tree_of self.old.diagrams body)) result }
        ensures keeps { Extends self.old self.new }
    {
        let mut whole = body;
        let mut left = slots;
        'binding: while left > 0 {
            left -= 1;
            let node = Node::Bind {
                slot: slot + left,
                body: whole,
            };
            match self.put(&node) {
                Ok(id) => whole = id,
                Err(refusal) => return Err(refusal),
            }
        }
        Ok(whole)
    }
}
