// Definitions, rules and lists.

ghost use Rattle.std.specs.Prelude.{◌≡◌, ◌<◌, ◌≤◌, ◌++◌, length, OnOk, IfOk, OnSome};
ghost use Rattle.fv_parse_grammar.specs.Descent.{within, ended, function_after, constant_after, after_name, definition, one_rule, statement, inner_definition};
ghost use Rattle.fv_parse_grammar.specs.Descent.{next_rule, next_part, item, further, first_item, listed};
ghost use Rattle.fv_parse_tree.specs.Arena.{trees, AllBelow};
ghost use Rattle.fv_parse_tree.specs.Gives.{Gives, GivesItem, in_front, list_of};

use crate::node::{TreeId, TreeNode};
use crate::phrases::LOOSEST;
use crate::reader::{Reader, Stop};
use fv_lex::Symbol;
use fv_parse_grammar::{Commas, Inside, Items, Mark, Operands};
use std::alloc::{AllocError, Global};

/// The list of a first part, if there is one.
fn begun(alloc: Global, first: Option<TreeId>) -> Result<Vec<TreeId>, AllocError>
    ensures { IfOk result (λ parts. parts.items ≡ list_of first) }
{
    let mut parts = Vec::new(alloc);
    keep(&mut parts, first)?;
    Ok(parts)
}

/// Keeps what was found of a list.
fn keep(parts: &mut Vec<TreeId>, found: Option<TreeId>) -> Result<(), AllocError>
    ensures { IfOk result (λ _. parts.new.items ≡ parts.old.items ++ list_of found) }
{
    match found {
        None => Ok(()),
        Some(id) => {
            parts.push(id)?;
            Ok(())
        }
    }
}

impl Reader<'_> {
    /// Reads an expression, and the semicolon after it.
    #[tactic(auto, unfolding(fv_parse_grammar::specs::Descent::ended))]
    #[cycle(parser)]
    fn ended(&mut self, nesting: usize) -> Result<TreeId, Stop>
        ensures is { Gives self.old self.new result (ended (within nesting) self.old.symbols.rest.now) }
        ensures shorter { OnOk result (length self.new.symbols.rest.now < length self.old.symbols.rest.now) }
    {
        let tree = self.expression(nesting)?;
        self.symbols.take(Mark::Semicolon)?;
        Ok(tree)
    }

    #[tactic(auto, unfolding(fv_parse_grammar::specs::Descent::function_after))]
    #[cycle(parser)]
    fn function_after(&mut self, nesting: usize, start: usize, name: u64) -> Result<TreeId, Stop>
        ensures is { Gives self.old self.new result (function_after (within nesting) start name self.old.symbols.rest.now) }
        ensures shorter { OnOk result (length self.new.symbols.rest.now < length self.old.symbols.rest.now) }
    {
        let patterns = self.enclosed(nesting, Inside::Patterns)?;
        self.symbols.take(Mark::Equals)?;
        let side = self.ended(nesting)?;
        Ok(
            self.arena
                .push(TreeNode::Function(name, patterns, side), start)?,
        )
    }

    #[tactic(auto, unfolding(fv_parse_grammar::specs::Descent::constant_after))]
    #[cycle(parser)]
    fn constant_after(&mut self, nesting: usize, start: usize, name: u64) -> Result<TreeId, Stop>
        ensures is { Gives self.old self.new result (constant_after (within nesting) start name self.old.symbols.rest.now) }
        ensures shorter { OnOk result (length self.new.symbols.rest.now < length self.old.symbols.rest.now) }
    {
        self.symbols.take(Mark::Equals)?;
        let side = self.ended(nesting)?;
        Ok(self.arena.push(TreeNode::Constant(name, side), start)?)
    }

    #[cycle(parser)]
    fn after_name(&mut self, nesting: usize, start: usize, name: u64) -> Result<TreeId, Stop>
        ensures is { Gives self.old self.new result (after_name (within nesting) start name self.old.symbols.rest.now) }
        ensures shorter { OnOk result (length self.new.symbols.rest.now < length self.old.symbols.rest.now) }
    {
        match self.symbols.rest {
            [Symbol::Open, after @ ..] => {
                self.symbols.rest = after;
                self.function_after(nesting, start, name)
            }
            _ => self.constant_after(nesting, start, name),
        }
    }

    #[tactic(auto, unfolding(fv_parse_grammar::specs::Descent::definition))]
    #[cycle(parser)]
    fn definition(&mut self, nesting: usize) -> Result<TreeId, Stop>
        ensures is { Gives self.old self.new result (definition (within nesting) self.old.symbols.rest.now) }
        ensures shorter { OnOk result (length self.new.symbols.rest.now < length self.old.symbols.rest.now) }
    {
        let start = self.symbols.rest.len();
        let name = self.symbols.name()?;
        self.after_name(nesting, start, name)
    }

    #[tactic(auto, unfolding(fv_parse_grammar::specs::Descent::one_rule))]
    #[cycle(parser)]
    fn one_rule(&mut self, nesting: usize) -> Result<TreeId, Stop>
        ensures is { Gives self.old self.new result (one_rule (within nesting) self.old.symbols.rest.now) }
        ensures shorter { OnOk result (length self.new.symbols.rest.now < length self.old.symbols.rest.now) }
    {
        let start = self.symbols.rest.len();
        self.symbols.take(Mark::Open)?;
        let patterns = self.enclosed(nesting, Inside::Patterns)?;
        self.symbols.take(Mark::Arrow)?;
        let side = self.ended(nesting)?;
        Ok(self.arena.push(TreeNode::Rule(patterns, side), start)?)
    }

    #[cycle(parser)]
    fn statement(&mut self, nesting: usize) -> Result<Option<Option<TreeId>>, Stop>
        ensures is { GivesItem self.old self.new result (statement (within nesting) self.old.symbols.rest.now) }
        ensures shorter { IfOk result (λ o. OnSome o (length self.new.symbols.rest.now < length self.old.symbols.rest.now)) }
    {
        match self.symbols.rest {
            [Symbol::Name(_), ..] => Ok(Some(Some(self.definition(nesting)?))),
            [Symbol::Declare, after @ ..] => {
                self.symbols.rest = after;
                self.symbols.declaration()?;
                Ok(Some(None))
            }
            _ => Ok(None),
        }
    }

    #[cycle(parser)]
    fn inner_definition(&mut self, nesting: usize) -> Result<Option<Option<TreeId>>, Stop>
        ensures is { GivesItem self.old self.new result (inner_definition (within nesting) self.old.symbols.rest.now) }
        ensures shorter { IfOk result (λ o. OnSome o (length self.new.symbols.rest.now < length self.old.symbols.rest.now)) }
    {
        match self.symbols.rest {
            [Symbol::Name(_), ..] => Ok(Some(Some(self.definition(nesting)?))),
            _ => Ok(None),
        }
    }

    #[cycle(parser)]
    fn next_rule(&mut self, nesting: usize) -> Result<Option<Option<TreeId>>, Stop>
        ensures is { GivesItem self.old self.new result (next_rule (within nesting) self.old.symbols.rest.now) }
        ensures shorter { IfOk result (λ o. OnSome o (length self.new.symbols.rest.now < length self.old.symbols.rest.now)) }
    {
        match self.symbols.rest {
            [Symbol::Open, ..] => Ok(Some(Some(self.one_rule(nesting)?))),
            _ => Ok(None),
        }
    }

    #[cycle(parser)]
    fn next_part(
        &mut self,
        nesting: usize,
        operands: Operands,
    ) -> Result<Option<Option<TreeId>>, Stop>
        ensures is { GivesItem self.old self.new result (next_part (within nesting) operands self.old.symbols.rest.now) }
        ensures shorter { IfOk result (λ o. OnSome o (length self.new.symbols.rest.now < length self.old.symbols.rest.now)) }
    {
        match self.symbols.rest {
            [Symbol::Comma, after @ ..] => {
                self.symbols.rest = after;
                Ok(Some(Some(self.phrase(nesting, operands, Commas::Separate, LOOSEST)?)))
            }
            _ => Ok(None),
        }
    }

    #[cycle(parser)]
    fn next_item(&mut self, nesting: usize, items: Items) -> Result<Option<Option<TreeId>>, Stop>
        ensures is { GivesItem self.old self.new result (item (within nesting) items self.old.symbols.rest.now) }
        ensures shorter { IfOk result (λ o. OnSome o (length self.new.symbols.rest.now < length self.old.symbols.rest.now)) }
    {
        match items {
            Items::Statements => self.statement(nesting),
            Items::Definitions => self.inner_definition(nesting),
            Items::Rules => self.next_rule(nesting),
            Items::Parts(operands) => self.next_part(nesting, operands),
        }
    }

    /// Reads a list: the part that was read, if any, and any number of further ones. A list has no place of its own.
    #[cycle(parser)]
    pub(crate) fn further(
        &mut self,
        nesting: usize,
        items: Items,
        first: Option<TreeId>,
    ) -> Result<TreeId, Stop>
        requires { AllBelow (length (trees self.old.arena)) (list_of first) }
        ensures is { Gives self.old self.new result (in_front (trees self.old.arena) (list_of first)
            (further (within nesting) items self.old.symbols.rest.now)) }
        ensures shorter { OnOk result (length self.new.symbols.rest.now ≤ length self.old.symbols.rest.now) }
    {
        let mut parts = begun(self.alloc, first)?;
        while let Some(found) = self.next_item(nesting, items)? {
            keep(&mut parts, found)?;
        }
        Ok(self.arena.push(TreeNode::List(parts), 0)?)
    }

    #[cycle(parser)]
    fn first_item(&mut self, nesting: usize, items: Items) -> Result<TreeId, Stop>
        ensures is { Gives self.old self.new result (first_item (within nesting) items self.old.symbols.rest.now) }
        ensures shorter { OnOk result (length self.new.symbols.rest.now < length self.old.symbols.rest.now) }
    {
        match items {
            Items::Rules => self.one_rule(nesting),
            Items::Parts(operands) => self.phrase(nesting, operands, Commas::Separate, LOOSEST),
            _ => Err(Stop::Syntax),
        }
    }

    /// Reads a list that has a part.
    #[tactic(auto, unfolding(fv_parse_grammar::specs::Descent::listed))]
    #[cycle(parser)]
    pub(crate) fn listed(&mut self, nesting: usize, items: Items) -> Result<TreeId, Stop>
        ensures is { Gives self.old self.new result (listed (within nesting) items self.old.symbols.rest.now) }
        ensures shorter { OnOk result (length self.new.symbols.rest.now < length self.old.symbols.rest.now) }
    {
        let first = self.first_item(nesting, items)?;
        self.further(nesting, items, Some(first))
    }
}
