// A diagram on its arguments.

ghost use Rattle.std.specs.Prelude.{◌≡◌, ◌<◌, ◌&&◌, [], ◌∷◌, ◌++◌, IfOk, nat_eq};
ghost use Rattle.fv_diagram.specs.Arena.{count_of, tree_of};
ghost use Rattle.fv_rules.specs.headline.Rules.{all_outputs, fed, takes_the_right, wires};
ghost use Rattle.fv_eval_drawing.specs.Makes.{AddsDiagrams, AreThere, Extends, Makes, MakesValue, trees_of};
ghost use Rattle.fv_eval_drawing.specs.Lists.{Sides, feeding, filled};

use crate::diagrams::Drawing;
use crate::lists::Link;
use fv_diagram::{DiagramId, Node, Prim};
use fv_rules::{EvalRefusal, too_many_to_count};
use std::alloc::AllocError;

impl Drawing {
    // How many streams diagrams give together.
    pub(crate) fn all_outputs(&self, parts: &[DiagramId]) -> Result<u64, AllocError>
        requires { AreThere self.now.diagrams parts.now }
        ensures { IfOk result (λ n. n ≡ all_outputs (trees_of self.now.diagrams parts.now)) }
    {
        let mut sum = 0u64;
        for part in parts {
            let outputs = u64::from(self.arity(*part).outputs);
            let Some(more) = sum.checked_add(outputs) else {
                return Err(too_many_to_count());
            };
            sum = more;
        }
        Ok(sum)
    }

    // Whether a diagram is a primitive of two inputs other than `prefix`.
    fn takes_the_right(&self, diagram: DiagramId) -> bool
        requires { diagram < count_of self.now.diagrams }
        ensures { result ≡ takes_the_right (tree_of self.now.diagrams diagram) }
    {
        match self.node(diagram) {
            Node::Prim(Prim::Prefix) => false,
            Node::Prim(_) => self.arity(diagram).inputs == 2,
            _ => false,
        }
    }

    // Whether `given` outputs are the second input of a diagram.
    fn takes_one(&self, function: DiagramId, given: u64) -> bool
        requires { function < count_of self.now.diagrams }
        ensures { result ≡ (takes_the_right (tree_of self.now.diagrams function) && nat_eq given 1) }
    {
        self.takes_the_right(function) && given == 1
    }

    // The arguments, with wires for the inputs that they leave.
    fn fill(
        &mut self,
        function: DiagramId,
        given: u64,
        parts: Vec<DiagramId>,
    ) -> Result<Vec<DiagramId>, EvalRefusal>
        requires function { function < count_of self.old.diagrams }
        requires there { AreThere self.old.diagrams parts.items }
        ensures sides { Sides self.old self.new
            (filled given (tree_of self.old.diagrams function) (trees_of self.old.diagrams parts.items)) result }
        ensures adds { AddsDiagrams self.old self.new }
    {
        if self.takes_one(function, given) {
            let wire = self.leaf(&Node::Prim(Prim::Wire))?;
            Ok(with_one_before(parts, wire)?)
        } else {
            let inputs = u64::from(self.arity(function).inputs);
            self.fill_behind(parts, inputs.saturating_sub(given))
        }
    }

    // The arguments, and after them `count` wires as one diagram.
    fn fill_behind(
        &mut self,
        parts: Vec<DiagramId>,
        count: u64,
    ) -> Result<Vec<DiagramId>, EvalRefusal>
        requires { AreThere self.old.diagrams parts.items }
        ensures sides { Sides self.old self.new (trees_of self.old.diagrams parts.items ++ wires count) result }
        ensures adds { AddsDiagrams self.old self.new }
    {
        if count == 0 {
            return Ok(parts);
        }
        match self.wires(count) {
            Ok(wires) => Ok(with_one_behind(parts, wires)?),
            Err(refusal) => Err(refusal),
        }
    }

    // Parts side by side, and then a function.
    fn lead(&mut self, parts: Vec<DiagramId>, function: DiagramId) -> Result<DiagramId, EvalRefusal>
        requires function { function < count_of self.old.diagrams }
        requires there { AreThere self.old.diagrams parts.items }
        ensures makes { Makes self.old self.new (feeding (tree_of self.old.diagrams function) (trees_of self.old.diagrams parts.items)) result }
        ensures keeps { Extends self.old self.new }
    {
        match self.from_right(Link::Parallel, parts) {
            Ok(all) => self.put(&Node::Seq {
                left: all,
                right: function,
            }),
            Err(refusal) => Err(refusal),
        }
    }

    /// Puts a diagram on its arguments; on none it is itself.
    pub fn feed(
        &mut self,
        function: DiagramId,
        arguments: Vec<DiagramId>,
    ) -> Result<DiagramId, EvalRefusal>
        requires function { function < count_of self.old.diagrams }
        requires there { AreThere self.old.diagrams arguments.items }
        ensures makes { MakesValue self.old self.new
            (fed (tree_of self.old.diagrams function) (trees_of self.old.diagrams arguments.items)) result }
        ensures keeps { Extends self.old self.new }
    {
        if arguments.is_empty() {
            return Ok(function);
        }
        let given = self.all_outputs(arguments.as_slice())?;
        let inputs = u64::from(self.arity(function).inputs);
        if inputs < given {
            return Err(EvalRefusal::TooManyArguments { given, inputs });
        }
        match self.fill(function, given, arguments) {
            Ok(parts) => self.lead(parts, function),
            Err(refusal) => Err(refusal),
        }
    }
}

// A part in front of others.
fn with_one_before(mut parts: Vec<DiagramId>, part: DiagramId) -> Result<Vec<DiagramId>, AllocError>
    ensures { IfOk result (λ v. v.items ≡ part ∷ parts.items) }
{
    parts.insert(0, part)?;
    Ok(parts)
}

// A part after others.
fn with_one_behind(mut parts: Vec<DiagramId>, part: DiagramId) -> Result<Vec<DiagramId>, AllocError>
    ensures { IfOk result (λ v. v.items ≡ parts.items ++ part ∷ []) }
{
    parts.push(part)?;
    Ok(parts)
}
