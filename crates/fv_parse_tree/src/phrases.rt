// What operators join, and the definitions that stand after it.

ghost use Rattle.std.specs.Prelude.{◌+◌, ◌-◌, ◌<◌, ◌≤◌, length, OnOk, IfOk, OnSome};
ghost use Rattle.fv_parse_grammar.specs.Descent.{within, left_turn, chain, phrase, with_part, with_turn, expression, run};
ghost use Rattle.fv_parse_tree.specs.Arena.{tree_at, trees};
ghost use Rattle.fv_parse_tree.specs.Gives.{Gives, GivesTurn};

use crate::node::{TreeId, TreeNode};
use crate::pending::{Pending, join};
use crate::reader::{Reader, Stop};
use fv_lex::Symbol;
use fv_parse_grammar::{Commas, Inside, Mark, Operands};

/// The precedence up to which operators associate to the left.
const LAST_LEFT: Precedence = 5;

/// How tight operators bind: the lower, the tighter, and 0 where there are none (Faust manual).
pub(crate) type Precedence = usize;

/// The precedence of the loosest operators.
pub(crate) const LOOSEST: Precedence = 8;

impl Reader<'_> {
    /// Parts that are joined by the operators up to a precedence.
    #[cycle(parser)]
    pub(crate) fn phrase(
        &mut self,
        nesting: usize,
        operands: Operands,
        commas: Commas,
        precedence: Precedence,
    ) -> Result<TreeId, Stop>
        requires { precedence ≤ 8 }
        ensures is { Gives self.old self.new result (phrase (within nesting) operands commas precedence self.old.symbols.rest.now) }
        ensures shorter { OnOk result (length self.new.symbols.rest.now < length self.old.symbols.rest.now) }
    {
        if precedence == 0 {
            self.operand(nesting, operands)
        } else if precedence <= LAST_LEFT {
            let start = self.symbols.rest.len();
            let first = self.phrase(nesting, operands, commas, precedence - 1)?;
            self.lefts(nesting, operands, commas, precedence, start, first)
        } else {
            self.rights(nesting, operands, commas, precedence)
        }
    }

    #[cycle(parser)]
    fn lefts(
        &mut self,
        nesting: usize,
        operands: Operands,
        commas: Commas,
        precedence: Precedence,
        start: usize,
        first: TreeId,
    ) -> Result<TreeId, Stop>
        requires height { (0 < precedence) × (precedence ≤ 5) }
        requires inside { first < length (trees self.old.arena) }
        ensures is { Gives self.old self.new result
            (run (left_turn (phrase (within nesting) operands commas (precedence - 1)) operands commas (precedence + 1) start)
            (tree_at (trees self.old.arena) first) self.old.symbols.rest.now) }
        ensures shorter { OnOk result (length self.new.symbols.rest.now ≤ length self.old.symbols.rest.now) }
    {
        let mut tree = first;
        while let Some(next) = self.next_left(nesting, operands, commas, precedence, start, tree)? {
            tree = next;
        }
        Ok(tree)
    }

    #[cycle(parser)]
    fn next_left(
        &mut self,
        nesting: usize,
        operands: Operands,
        commas: Commas,
        precedence: Precedence,
        start: usize,
        tree: TreeId,
    ) -> Result<Option<TreeId>, Stop>
        requires height { (0 < precedence) × (precedence ≤ 5) }
        requires inside { tree < length (trees self.old.arena) }
        ensures is { GivesTurn self.old self.new result
            (left_turn (phrase (within nesting) operands commas (precedence - 1)) operands commas (precedence + 1) start
            (tree_at (trees self.old.arena) tree) self.old.symbols.rest.now) }
        ensures shorter { IfOk result (λ o. OnSome o (length self.new.symbols.rest.now < length self.old.symbols.rest.now)) }
    {
        match self.symbols.operator_of(operands, commas, precedence + 1) {
            None => Ok(None),
            Some(op) => {
                let second = self.phrase(nesting, operands, commas, precedence - 1)?;
                Ok(Some(self.arena.push(TreeNode::Binary(op, tree, second), start)?))
            }
        }
    }

    #[cycle(parser)]
    fn rights(
        &mut self,
        nesting: usize,
        operands: Operands,
        commas: Commas,
        precedence: Precedence,
    ) -> Result<TreeId, Stop>
        requires { (5 < precedence) × (precedence ≤ 8) }
        ensures is { Gives self.old self.new result
            (chain (phrase (within nesting) operands commas (precedence - 1)) operands commas (precedence + 1) self.old.symbols.rest.now) }
        ensures shorter { OnOk result (length self.new.symbols.rest.now < length self.old.symbols.rest.now) }
    {
        let mut pending = Vec::new(self.alloc);
        loop {
            let start = self.symbols.rest.len();
            let tree = self.phrase(nesting, operands, commas, precedence - 1)?;
            match self.symbols.operator_of(operands, commas, precedence + 1) {
                None => return Ok(join(&mut self.arena, pending, tree)?),
                Some(op) => pending.push(Pending {
                    left: tree,
                    op,
                    start,
                })?,
            }
        }
    }

    #[tactic(auto, unfolding(fv_parse_grammar::specs::Descent::expression))]
    #[cycle(parser)]
    pub(crate) fn expression(&mut self, nesting: usize) -> Result<TreeId, Stop>
        ensures is { Gives self.old self.new result (expression (within nesting) self.old.symbols.rest.now) }
        ensures shorter { OnOk result (length self.new.symbols.rest.now < length self.old.symbols.rest.now) }
    {
        let start = self.symbols.rest.len();
        let first = self.phrase(nesting, Operands::Expressions, Commas::Join, LOOSEST)?;
        self.withs(nesting, start, first)
    }

    #[cycle(parser)]
    fn withs(&mut self, nesting: usize, start: usize, first: TreeId) -> Result<TreeId, Stop>
        requires { first < length (trees self.old.arena) }
        ensures is { Gives self.old self.new result (run (with_turn (within nesting) start) (tree_at (trees self.old.arena) first) self.old.symbols.rest.now) }
        ensures shorter { OnOk result (length self.new.symbols.rest.now ≤ length self.old.symbols.rest.now) }
    {
        let mut tree = first;
        while let Some(next) = self.next_with(nesting, start, tree)? {
            tree = next;
        }
        Ok(tree)
    }

    #[cycle(parser)]
    fn next_with(
        &mut self,
        nesting: usize,
        start: usize,
        tree: TreeId,
    ) -> Result<Option<TreeId>, Stop>
        requires { tree < length (trees self.old.arena) }
        ensures is { GivesTurn self.old self.new result (with_turn (within nesting) start (tree_at (trees self.old.arena) tree) self.old.symbols.rest.now) }
        ensures shorter { IfOk result (λ o. OnSome o (length self.new.symbols.rest.now < length self.old.symbols.rest.now)) }
    {
        match self.symbols.rest {
            [Symbol::With, after @ ..] => {
                self.symbols.rest = after;
                self.with_part(nesting, start, tree)
            }
            _ => Ok(None),
        }
    }

    #[cycle(parser)]
    fn with_part(
        &mut self,
        nesting: usize,
        start: usize,
        tree: TreeId,
    ) -> Result<Option<TreeId>, Stop>
        requires { tree < length (trees self.old.arena) }
        ensures is { GivesTurn self.old self.new result (with_part (within nesting) start (tree_at (trees self.old.arena) tree) self.old.symbols.rest.now) }
        ensures shorter { IfOk result (λ o. OnSome o (length self.new.symbols.rest.now < length self.old.symbols.rest.now)) }
    {
        self.symbols.take(Mark::OpenBrace)?;
        let definitions = self.inside(nesting, Inside::Definitions)?;
        self.symbols.take(Mark::CloseBrace)?;
        Ok(Some(self.arena.push(TreeNode::Where(tree, definitions), start)?))
    }
}
