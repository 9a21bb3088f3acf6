// What is read without opening a bracket.

ghost use Rattle.std.specs.Prelude.{◌≡◌, ◌<◌, ◌≤◌, length, OnOk};
ghost use Rattle.fv_parse_grammar.specs.Descent.{after_plus, after_minus, plus_number, minus_number, switch, waveform};
ghost use Rattle.fv_parse_tree.specs.Gives.{Gives};

use crate::node::{TreeId, TreeNode};
use crate::reader::{Reader, Stop};
use fv_lex::Symbol;
use fv_num::Op;
use fv_parse_grammar::{Mark, Primitive, Switch};

impl Reader<'_> {
    /// Reads what follows `+` in an operand's place.
    pub(crate) fn plus(&mut self, start: usize) -> Result<TreeId, Stop>
        ensures is { Gives self.old self.new result (after_plus start self.old.symbols.rest.now) }
        ensures shorter { OnOk result (length self.new.symbols.rest.now ≤ length self.old.symbols.rest.now) }
    {
        match self.symbols.rest {
            [Symbol::Integer(n), after @ ..] => {
                self.symbols.rest = after;
                Ok(self.arena.push(TreeNode::Number(*n), start)?)
            }
            _ => Ok(
                self.arena
                    .push(TreeNode::Primitive(Primitive::Point(Op::Add)), start)?,
            ),
        }
    }

    /// Reads what follows `-` in an operand's place.
    pub(crate) fn minus(&mut self, start: usize) -> Result<TreeId, Stop>
        ensures is { Gives self.old self.new result (after_minus start self.old.symbols.rest.now) }
        ensures shorter { OnOk result (length self.new.symbols.rest.now ≤ length self.old.symbols.rest.now) }
    {
        match self.symbols.rest {
            [Symbol::Integer(n), after @ ..] => {
                self.symbols.rest = after;
                Ok(self.arena.push(TreeNode::Negative(*n), start)?)
            }
            [Symbol::Name(n), after @ ..] => {
                self.symbols.rest = after;
                Ok(self.arena.push(TreeNode::MinusNamed(*n), start)?)
            }
            _ => Ok(
                self.arena
                    .push(TreeNode::Primitive(Primitive::Point(Op::Sub)), start)?,
            ),
        }
    }

    /// Reads what follows `+` in a pattern.
    pub(crate) fn plus_in_pattern(&mut self, start: usize) -> Result<TreeId, Stop>
        ensures is { Gives self.old self.new result (plus_number start self.old.symbols.rest.now) }
        ensures shorter { OnOk result (length self.new.symbols.rest.now < length self.old.symbols.rest.now) }
    {
        match self.symbols.rest {
            [Symbol::Integer(n), after @ ..] => {
                self.symbols.rest = after;
                Ok(self.arena.push(TreeNode::Number(*n), start)?)
            }
            _ => Err(Stop::Syntax),
        }
    }

    /// Reads what follows `-` in a pattern.
    pub(crate) fn minus_in_pattern(&mut self, start: usize) -> Result<TreeId, Stop>
        ensures is { Gives self.old self.new result (minus_number start self.old.symbols.rest.now) }
        ensures shorter { OnOk result (length self.new.symbols.rest.now < length self.old.symbols.rest.now) }
    {
        match self.symbols.rest {
            [Symbol::Integer(n), after @ ..] => {
                self.symbols.rest = after;
                Ok(self.arena.push(TreeNode::Negative(*n), start)?)
            }
            _ => Err(Stop::Syntax),
        }
    }

    /// Reads a waveform, after its word.
    #[tactic(auto, unfolding(fv_parse_grammar::specs::Descent::waveform))]
    pub(crate) fn waveform(&mut self, start: usize) -> Result<TreeId, Stop>
        ensures is { Gives self.old self.new result (waveform start self.old.symbols.rest.now) }
        ensures shorter { OnOk result (length self.new.symbols.rest.now < length self.old.symbols.rest.now) }
    {
        self.symbols.take(Mark::OpenBrace)?;
        let numbers = self.symbols.literals(self.alloc)?;
        self.symbols.take(Mark::CloseBrace)?;
        Ok(self.arena.push(TreeNode::Waveform(numbers), start)?)
    }

    /// Reads a button or a checkbox, after its word.
    #[tactic(auto, unfolding(fv_parse_grammar::specs::Descent::switch))]
    pub(crate) fn switch(&mut self, start: usize, kind: Switch) -> Result<TreeId, Stop>
        ensures is { Gives self.old self.new result (switch start kind self.old.symbols.rest.now) }
        ensures shorter { OnOk result (length self.new.symbols.rest.now < length self.old.symbols.rest.now) }
    {
        self.symbols.take(Mark::Open)?;
        let label = self.symbols.text()?;
        self.symbols.take(Mark::Close)?;
        Ok(self.arena.push(TreeNode::Switch(kind, label), start)?)
    }
}
