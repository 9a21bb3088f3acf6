// What is read symbol by symbol.

ghost use Rattle.std.specs.Prelude.{◌≡◌, ◌<◌, length, OnOk};
ghost use Rattle.fv_parse_grammar.specs.Symbols.{is_mark};
ghost use Rattle.fv_parse_grammar.specs.Descent.{expect, a_name, a_text, at_comma, label, name_list, declared_text, declared_for, declaration};
ghost use Rattle.fv_parse_grammar.specs.Descent.{a_value, a_literal, literal_list};
ghost use Rattle.fv_parse_tree.specs.Gives.{Takes, Skips, IsOperatorAt};

use crate::reader::{Stop, Symbols};
use crate::tables::{operator, power};
use fv_lex::Symbol;
use fv_parse_grammar::{Commas, Literal, Mark, Operands, Operator};
use std::alloc::Global;

fn is_mark(mark: Mark, symbol: Symbol) -> bool
    ensures { result ≡ is_mark mark symbol }
{
    match mark {
        Mark::Open => matches!(symbol, Symbol::Open),
        Mark::Close => matches!(symbol, Symbol::Close),
        Mark::OpenBrace => matches!(symbol, Symbol::OpenBrace),
        Mark::CloseBrace => matches!(symbol, Symbol::CloseBrace),
        Mark::Comma => matches!(symbol, Symbol::Comma),
        Mark::Equals => matches!(symbol, Symbol::Equals),
        Mark::Arrow => matches!(symbol, Symbol::Arrow),
        Mark::Semicolon => matches!(symbol, Symbol::Semicolon),
        Mark::Dot => matches!(symbol, Symbol::Dot),
    }
}

impl Symbols<'_> {
    /// Passes a mark.
    pub(crate) fn take(&mut self, mark: Mark) -> Result<(), Stop>
        ensures is { Takes (λ _ rest. rest) self.new result (expect mark self.old.rest.now) }
        ensures shorter { OnOk result (length self.new.rest.now < length self.old.rest.now) }
    {
        match self.rest {
            [] => Err(Stop::Syntax),
            [symbol, after @ ..] => {
                if is_mark(mark, *symbol) {
                    self.rest = after;
                    Ok(())
                } else {
                    Err(Stop::Syntax)
                }
            }
        }
    }

    /// Passes a name and returns its number.
    pub(crate) fn name(&mut self) -> Result<u64, Stop>
        ensures is { Takes (λ n rest. (n, rest)) self.new result (a_name self.old.rest.now) }
        ensures shorter { OnOk result (length self.new.rest.now < length self.old.rest.now) }
    {
        match self.rest {
            [Symbol::Name(n), after @ ..] => {
                self.rest = after;
                Ok(*n)
            }
            _ => Err(Stop::Syntax),
        }
    }

    /// Passes a string and returns its number.
    pub(crate) fn text(&mut self) -> Result<u64, Stop>
        ensures is { Takes (λ n rest. (n, rest)) self.new result (a_text self.old.rest.now) }
        ensures shorter { OnOk result (length self.new.rest.now < length self.old.rest.now) }
    {
        match self.rest {
            [Symbol::Text(n), after @ ..] => {
                self.rest = after;
                Ok(*n)
            }
            _ => Err(Stop::Syntax),
        }
    }

    /// Passes a comma, if there is one. Returns whether there was one.
    fn skip_comma(&mut self) -> bool
        ensures { Skips at_comma self.old self.new result }
    {
        match self.rest {
            [Symbol::Comma, after @ ..] => {
                self.rest = after;
                true
            }
            _ => false,
        }
    }

    /// Passes the operator of this power, if it stands there.
    pub(crate) fn operator_of(
        &mut self,
        operands: Operands,
        commas: Commas,
        wanted: usize,
    ) -> Option<Operator>
        requires { wanted < 10 }
        ensures { IsOperatorAt operands commas wanted self.old self.new result }
    {
        match self.rest {
            [] => None,
            [symbol, after @ ..] => {
                if power(operands, commas, *symbol) == wanted {
                    self.rest = after;
                    Some(operator(*symbol))
                } else {
                    None
                }
            }
        }
    }

    /// Reads: "(" string ","
    #[tactic(auto, unfolding(fv_parse_grammar::specs::Descent::label))]
    pub(crate) fn label(&mut self) -> Result<u64, Stop>
        ensures is { Takes (λ n rest. (n, rest)) self.new result (label self.old.rest.now) }
        ensures shorter { OnOk result (length self.new.rest.now < length self.old.rest.now) }
    {
        self.take(Mark::Open)?;
        let text = self.text()?;
        self.take(Mark::Comma)?;
        Ok(text)
    }

    /// Reads: name {"," name}
    pub(crate) fn names(&mut self, alloc: Global) -> Result<Vec<u64>, Stop>
        ensures is { Takes (λ ns rest. (ns.items, rest)) self.new result (name_list self.old.rest.now) }
        ensures shorter { OnOk result (length self.new.rest.now < length self.old.rest.now) }
    {
        let mut items = Vec::new(alloc);
        loop {
            let item = self.name()?;
            items.push(item)?;
            if !self.skip_comma() {
                return Ok(items);
            }
        }
    }

    // Passes an integer and returns its number.
    fn value(&mut self) -> Result<u32, Stop>
        ensures is { Takes (λ n rest. (n, rest)) self.new result (a_value self.old.rest.now) }
        ensures shorter { OnOk result (length self.new.rest.now < length self.old.rest.now) }
    {
        match self.rest {
            [Symbol::Integer(n), after @ ..] => {
                self.rest = after;
                Ok(*n)
            }
            _ => Err(Stop::Syntax),
        }
    }

    /// Passes an integer, with or without a sign.
    fn literal(&mut self) -> Result<Literal, Stop>
        ensures is { Takes (λ x rest. (x, rest)) self.new result (a_literal self.old.rest.now) }
        ensures shorter { OnOk result (length self.new.rest.now < length self.old.rest.now) }
    {
        match self.rest {
            [Symbol::Integer(n), after @ ..] => {
                self.rest = after;
                Ok(Literal::Plain(*n))
            }
            [Symbol::Plus, after @ ..] => {
                self.rest = after;
                let n = self.value()?;
                Ok(Literal::Plain(n))
            }
            [Symbol::Minus, after @ ..] => {
                self.rest = after;
                let n = self.value()?;
                Ok(Literal::Negative(n))
            }
            _ => Err(Stop::Syntax),
        }
    }

    /// Reads: number {"," number}
    pub(crate) fn literals(&mut self, alloc: Global) -> Result<Vec<Literal>, Stop>
        ensures is { Takes (λ xs rest. (xs.items, rest)) self.new result (literal_list self.old.rest.now) }
        ensures shorter { OnOk result (length self.new.rest.now < length self.old.rest.now) }
    {
        let mut items = Vec::new(alloc);
        loop {
            let item = self.literal()?;
            items.push(item)?;
            if !self.skip_comma() {
                return Ok(items);
            }
        }
    }

    fn declared_text(&mut self) -> Result<(), Stop>
        ensures is { Takes (λ _ rest. rest) self.new result (declared_text self.old.rest.now) }
        ensures shorter { OnOk result (length self.new.rest.now < length self.old.rest.now) }
    {
        self.text()?;
        self.take(Mark::Semicolon)
    }

    fn declared_for(&mut self) -> Result<(), Stop>
        ensures is { Takes (λ _ rest. rest) self.new result (declared_for self.old.rest.now) }
        ensures shorter { OnOk result (length self.new.rest.now < length self.old.rest.now) }
    {
        match self.rest {
            [Symbol::Name(_), after @ ..] => {
                self.rest = after;
                self.declared_text()
            }
            _ => self.declared_text(),
        }
    }

    /// Passes what follows "declare".
    pub(crate) fn declaration(&mut self) -> Result<(), Stop>
        ensures is { Takes (λ _ rest. rest) self.new result (declaration self.old.rest.now) }
        ensures shorter { OnOk result (length self.new.rest.now < length self.old.rest.now) }
    {
        self.name()?;
        self.declared_for()
    }
}
