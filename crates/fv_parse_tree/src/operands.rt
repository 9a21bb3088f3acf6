// Reading from left to right, with one token of lookahead: what stands in an operand's place.
// What stands in brackets is read by a call that has one bracket less to open; nothing else recurses.

ghost use Rattle.std.specs.Prelude.{◌≡◌, ◌-◌, ◌<◌, ◌≤◌, ◌∷◌, true, false, length, OnOk, IfOk, OnSome};
ghost use Rattle.fv_parse_grammar.specs.declared.symbol.Inside.TheVariants as insides;
ghost use Rattle.fv_parse_grammar.specs.declared.symbol.Items.TheVariants.{Rules, Parts};
ghost use Rattle.fv_parse_grammar.specs.Descent.{within, enclosed, argument, group, abstraction, case_of, iteration, ports, slider, panel, by_first, primary};
ghost use Rattle.fv_parse_grammar.specs.Descent.{applied_to, postfix_turn, postfix, atom_by_first, operand, run};
ghost use Rattle.fv_parse_tree.specs.Arena.{tree_at, trees};
ghost use Rattle.fv_parse_tree.specs.Gives.{Gives, GivesTurn};

use crate::node::{TreeId, TreeNode};
use crate::phrases::LOOSEST;
use crate::reader::{Reader, Stop};
use fv_lex::Symbol;
use fv_parse_grammar::{Commas, Inside, Items, Iteration, Mark, Operands, Panel, Side, Slider};

impl<'a> Reader<'a> {
    /// Reads what follows an open bracket. All recursion goes by here.
    #[cycle(parser)]
    pub(crate) fn inside(&mut self, nesting: usize, what: Inside) -> Result<TreeId, Stop>
        ensures is { Gives self.old self.new result (within nesting what self.old.symbols.rest.now) }
        ensures shorter { OnOk result (length self.new.symbols.rest.now ≤ length self.old.symbols.rest.now) }
    {
        if nesting == 0 {
            return Err(Stop::Syntax);
        }
        match what {
            Inside::Expression => self.expression(nesting - 1),
            Inside::Argument => self.phrase(
                nesting - 1,
                Operands::Expressions,
                Commas::Separate,
                LOOSEST,
            ),
            Inside::Pattern => self.phrase(nesting - 1, Operands::Patterns, Commas::Join, LOOSEST),
            Inside::Arguments => self.listed(nesting - 1, Items::Parts(Operands::Expressions)),
            Inside::Patterns => self.listed(nesting - 1, Items::Parts(Operands::Patterns)),
            Inside::Rules => self.listed(nesting - 1, Items::Rules),
            Inside::Definitions => self.further(nesting - 1, Items::Definitions, None),
        }
    }

    /// Reads what follows an open bracket, and the bracket that closes it.
    #[cycle(parser)]
    pub(crate) fn enclosed(&mut self, nesting: usize, what: Inside) -> Result<TreeId, Stop>
        ensures is { Gives self.old self.new result (enclosed (within nesting) what self.old.symbols.rest.now) }
        ensures shorter { OnOk result (length self.new.symbols.rest.now < length self.old.symbols.rest.now) }
    {
        let tree = self.inside(nesting, what)?;
        self.symbols.take(Mark::Close)?;
        Ok(tree)
    }

    /// Reads an argument, and the comma after it.
    #[cycle(parser)]
    fn argument(&mut self, nesting: usize) -> Result<TreeId, Stop>
        ensures is { Gives self.old self.new result (argument (within nesting) self.old.symbols.rest.now) }
        ensures shorter { OnOk result (length self.new.symbols.rest.now < length self.old.symbols.rest.now) }
    {
        let tree = self.inside(nesting, Inside::Argument)?;
        self.symbols.take(Mark::Comma)?;
        Ok(tree)
    }

    #[cycle(parser)]
    fn group(&mut self, nesting: usize, start: usize) -> Result<TreeId, Stop>
        ensures is { Gives self.old self.new result (group (within nesting) start self.old.symbols.rest.now) }
        ensures shorter { OnOk result (length self.new.symbols.rest.now < length self.old.symbols.rest.now) }
    {
        let tree = self.enclosed(nesting, Inside::Expression)?;
        Ok(self.arena.push(TreeNode::Group(tree), start)?)
    }

    #[tactic(auto, unfolding(fv_parse_grammar::specs::Descent::abstraction))]
    #[cycle(parser)]
    fn abstraction(&mut self, nesting: usize, start: usize) -> Result<TreeId, Stop>
        ensures is { Gives self.old self.new result (abstraction (within nesting) start self.old.symbols.rest.now) }
        ensures shorter { OnOk result (length self.new.symbols.rest.now < length self.old.symbols.rest.now) }
    {
        self.symbols.take(Mark::Open)?;
        let parameters = self.symbols.names(self.alloc)?;
        self.symbols.take(Mark::Close)?;
        self.symbols.take(Mark::Dot)?;
        self.symbols.take(Mark::Open)?;
        let body = self.enclosed(nesting, Inside::Expression)?;
        Ok(
            self.arena
                .push(TreeNode::Abstraction(parameters, body), start)?,
        )
    }

    #[tactic(auto, unfolding(fv_parse_grammar::specs::Descent::case_of))]
    #[cycle(parser)]
    fn case_of(&mut self, nesting: usize, start: usize) -> Result<TreeId, Stop>
        ensures is { Gives self.old self.new result (case_of (within nesting) start self.old.symbols.rest.now) }
        ensures shorter { OnOk result (length self.new.symbols.rest.now < length self.old.symbols.rest.now) }
    {
        self.symbols.take(Mark::OpenBrace)?;
        let rules = self.inside(nesting, Inside::Rules)?;
        self.symbols.take(Mark::CloseBrace)?;
        Ok(self.arena.push(TreeNode::Case(rules), start)?)
    }

    #[tactic(auto, unfolding(fv_parse_grammar::specs::Descent::iteration))]
    #[cycle(parser)]
    fn iteration(&mut self, nesting: usize, start: usize, kind: Iteration) -> Result<TreeId, Stop>
        ensures is { Gives self.old self.new result (iteration (within nesting) start kind self.old.symbols.rest.now) }
        ensures shorter { OnOk result (length self.new.symbols.rest.now < length self.old.symbols.rest.now) }
    {
        self.symbols.take(Mark::Open)?;
        let index = self.symbols.name()?;
        self.symbols.take(Mark::Comma)?;
        let count = self.argument(nesting)?;
        let body = self.enclosed(nesting, Inside::Expression)?;
        Ok(
            self.arena
                .push(TreeNode::Iteration(kind, index, count, body), start)?,
        )
    }

    #[tactic(auto, unfolding(fv_parse_grammar::specs::Descent::ports))]
    #[cycle(parser)]
    fn ports(&mut self, nesting: usize, start: usize, side: Side) -> Result<TreeId, Stop>
        ensures is { Gives self.old self.new result (ports (within nesting) start side self.old.symbols.rest.now) }
        ensures shorter { OnOk result (length self.new.symbols.rest.now < length self.old.symbols.rest.now) }
    {
        self.symbols.take(Mark::Open)?;
        let tree = self.enclosed(nesting, Inside::Expression)?;
        Ok(self.arena.push(TreeNode::Ports(side, tree), start)?)
    }

    #[tactic(auto, unfolding(fv_parse_grammar::specs::Descent::slider))]
    #[cycle(parser)]
    fn slider(&mut self, nesting: usize, start: usize, kind: Slider) -> Result<TreeId, Stop>
        ensures is { Gives self.old self.new result (slider (within nesting) start kind self.old.symbols.rest.now) }
        ensures shorter { OnOk result (length self.new.symbols.rest.now < length self.old.symbols.rest.now) }
    {
        let text = self.symbols.label()?;
        let init = self.argument(nesting)?;
        let min = self.argument(nesting)?;
        let max = self.argument(nesting)?;
        let step = self.enclosed(nesting, Inside::Argument)?;
        Ok(
            self.arena
                .push(TreeNode::Slider(kind, text, init, min, max, step), start)?,
        )
    }

    #[tactic(auto, unfolding(fv_parse_grammar::specs::Descent::panel))]
    #[cycle(parser)]
    fn panel(&mut self, nesting: usize, start: usize, kind: Panel) -> Result<TreeId, Stop>
        ensures is { Gives self.old self.new result (panel (within nesting) start kind self.old.symbols.rest.now) }
        ensures shorter { OnOk result (length self.new.symbols.rest.now < length self.old.symbols.rest.now) }
    {
        let text = self.symbols.label()?;
        let tree = self.enclosed(nesting, Inside::Expression)?;
        Ok(self.arena.push(TreeNode::Panel(kind, text, tree), start)?)
    }

    /// Reads an operand, by the first of all its symbols, which was passed.
    #[tactic(auto, unfolding(fv_parse_grammar::specs::Descent::by_first))]
    #[cycle(parser)]
    fn by_first(&mut self, nesting: usize, first: Symbol, all: &'a [Symbol]) -> Result<TreeId, Stop>
        requires { length self.old.symbols.rest.now < length all.now }
        ensures is { Gives self.old self.new result (by_first (within nesting) first all.now self.old.symbols.rest.now) }
        ensures shorter { OnOk result (length self.new.symbols.rest.now < length all.now) }
    {
        let start = all.len();
        match first {
            Symbol::Integer(n) => Ok(self.arena.push(TreeNode::Number(n), start)?),
            Symbol::Name(n) => Ok(self.arena.push(TreeNode::Named(n), start)?),
            Symbol::Plus => self.plus(start),
            Symbol::Minus => self.minus(start),
            Symbol::Primitive(p) => Ok(self.arena.push(TreeNode::Primitive(p), start)?),
            Symbol::Open => self.group(nesting, start),
            Symbol::Backslash => self.abstraction(nesting, start),
            Symbol::Case => self.case_of(nesting, start),
            Symbol::Waveform => self.waveform(start),
            Symbol::Iteration(kind) => self.iteration(nesting, start, kind),
            Symbol::Ports(side) => self.ports(nesting, start, side),
            Symbol::Switch(kind) => self.switch(start, kind),
            Symbol::Slider(kind) => self.slider(nesting, start, kind),
            Symbol::Panel(kind) => self.panel(nesting, start, kind),
            _ => {
                self.symbols.rest = all;
                Err(Stop::Syntax)
            }
        }
    }

    #[cycle(parser)]
    fn primary(&mut self, nesting: usize) -> Result<TreeId, Stop>
        ensures is { Gives self.old self.new result (primary (within nesting) self.old.symbols.rest.now) }
        ensures shorter { OnOk result (length self.new.symbols.rest.now < length self.old.symbols.rest.now) }
    {
        let all = self.symbols.rest;
        match all {
            [] => Err(Stop::Syntax),
            [symbol, after @ ..] => {
                self.symbols.rest = after;
                self.by_first(nesting, *symbol, all)
            }
        }
    }

    #[tactic(auto, unfolding(fv_parse_grammar::specs::Descent::postfix))]
    #[cycle(parser)]
    fn postfix(&mut self, nesting: usize) -> Result<TreeId, Stop>
        ensures is { Gives self.old self.new result (postfix (within nesting) self.old.symbols.rest.now) }
        ensures shorter { OnOk result (length self.new.symbols.rest.now < length self.old.symbols.rest.now) }
    {
        let start = self.symbols.rest.len();
        let first = self.primary(nesting)?;
        self.postfixes(nesting, start, first)
    }

    #[cycle(parser)]
    fn postfixes(&mut self, nesting: usize, start: usize, first: TreeId) -> Result<TreeId, Stop>
        requires { first < length (trees self.old.arena) }
        ensures is { Gives self.old self.new result (run (postfix_turn (within nesting) start) (tree_at (trees self.old.arena) first)
            self.old.symbols.rest.now) }
        ensures shorter { OnOk result (length self.new.symbols.rest.now ≤ length self.old.symbols.rest.now) }
    {
        let mut tree = first;
        while let Some(next) = self.next_postfix(nesting, start, tree)? {
            tree = next;
        }
        Ok(tree)
    }

    #[cycle(parser)]
    fn next_postfix(
        &mut self,
        nesting: usize,
        start: usize,
        tree: TreeId,
    ) -> Result<Option<TreeId>, Stop>
        requires { tree < length (trees self.old.arena) }
        ensures is { GivesTurn self.old self.new result (postfix_turn (within nesting) start (tree_at (trees self.old.arena) tree) self.old.symbols.rest.now) }
        ensures shorter { IfOk result (λ o. OnSome o (length self.new.symbols.rest.now < length self.old.symbols.rest.now)) }
    {
        match self.symbols.rest {
            [Symbol::Tick, after @ ..] => {
                self.symbols.rest = after;
                Ok(Some(self.arena.push(TreeNode::Delayed(tree), start)?))
            }
            [Symbol::Open, after @ ..] => {
                self.symbols.rest = after;
                self.applied(nesting, start, tree)
            }
            _ => Ok(None),
        }
    }

    /// Reads what follows the bracket of an application.
    #[cycle(parser)]
    fn applied(
        &mut self,
        nesting: usize,
        start: usize,
        tree: TreeId,
    ) -> Result<Option<TreeId>, Stop>
        requires { tree < length (trees self.old.arena) }
        ensures is { GivesTurn self.old self.new result (applied_to (within nesting) start (tree_at (trees self.old.arena) tree) self.old.symbols.rest.now) }
        ensures shorter { IfOk result (λ o. OnSome o (length self.new.symbols.rest.now < length self.old.symbols.rest.now)) }
    {
        let arguments = self.enclosed(nesting, Inside::Arguments)?;
        Ok(Some(self.arena.push(TreeNode::Apply(tree, arguments), start)?))
    }

    /// Reads what stands in a pattern, by the first of all its symbols, which was passed.
    #[cycle(parser)]
    fn atom_by_first(
        &mut self,
        nesting: usize,
        first: Symbol,
        all: &'a [Symbol],
    ) -> Result<TreeId, Stop>
        requires { length self.old.symbols.rest.now < length all.now }
        ensures is { Gives self.old self.new result (atom_by_first (within nesting) first all.now self.old.symbols.rest.now) }
        ensures shorter { OnOk result (length self.new.symbols.rest.now < length all.now) }
    {
        let start = all.len();
        match first {
            Symbol::Integer(n) => Ok(self.arena.push(TreeNode::Number(n), start)?),
            Symbol::Name(n) => Ok(self.arena.push(TreeNode::Named(n), start)?),
            Symbol::Plus => self.plus_in_pattern(start),
            Symbol::Minus => self.minus_in_pattern(start),
            Symbol::Open => self.enclosed(nesting, Inside::Pattern),
            _ => {
                self.symbols.rest = all;
                Err(Stop::Syntax)
            }
        }
    }

    /// Reads what the operators join.
    #[cycle(parser)]
    pub(crate) fn operand(&mut self, nesting: usize, operands: Operands) -> Result<TreeId, Stop>
        ensures is { Gives self.old self.new result (operand (within nesting) operands self.old.symbols.rest.now) }
        ensures shorter { OnOk result (length self.new.symbols.rest.now < length self.old.symbols.rest.now) }
    {
        if operands == Operands::Expressions {
            return self.postfix(nesting);
        }
        let all = self.symbols.rest;
        match all {
            [] => Err(Stop::Syntax),
            [symbol, after @ ..] => {
                self.symbols.rest = after;
                self.atom_by_first(nesting, *symbol, all)
            }
        }
    }
}
