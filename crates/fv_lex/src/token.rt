// Tokens, and the list of those of a text.

ghost use Rattle.std.specs.Prelude.{◌≡◌, ◌+◌, ◌<◌, ◌≤◌, Some, length, slice_get, take, drop};
ghost use Rattle.fv_lex.specs.Carried.{AllCarry};
ghost use Rattle.fv_lex.specs.headline.Token.{symbols_of, texts_of, places_of};
ghost use Rattle.fv_lex.specs.Token.{kinds_of};
ghost use Rattle.fv_lex.specs.Cuts.{HasTokens};

use crate::form::{Iteration, Panel, Side, Slider, Switch};
use fv_num::Primitive;
use std::marker::Model;

/// What kind of token it is. A reserved word is a `Name`.
#[derive(Clone, Copy, PartialEq, Eq, Debug)]
pub enum Kind {
    Name,
    Integer,
    Text,
    Sign,
}

/// A line and a column, both from 1. A column is one byte.
#[derive(Clone, Copy, PartialEq, Eq, Debug)]
pub struct Place {
    pub line: u32,
    pub column: u32,
}

/// What the grammar sees of a token.
/// Where a variant carries a `u64`, that is the number of the token in its list, counted from 0.
#[derive(Clone, Copy, PartialEq, Eq, Debug)]
pub enum Symbol {
    /// A name that is no reserved word.
    Name(u64),
    /// A string, with its quotes.
    Text(u64),
    /// An integer, with its value.
    Integer(u32),
    /// A word of Faust that is not supported.
    Unsupported(u64),
    /// The sign or the word of a primitive, apart from `+` and `-`, which may be part of a number.
    Primitive(Primitive),
    /// `+`
    Plus,
    /// `-`
    Minus,
    /// `,`
    Comma,
    /// `:`
    Colon,
    /// `<:`
    Split,
    /// `:>`
    Merge,
    /// `~`
    Tilde,
    /// `'`
    Tick,
    /// `(`
    Open,
    /// `)`
    Close,
    /// `{`
    OpenBrace,
    /// `}`
    CloseBrace,
    /// `=`
    Equals,
    /// `=>`
    Arrow,
    /// `;`
    Semicolon,
    /// `.`
    Dot,
    /// `\`
    Backslash,
    /// `^`
    Caret,
    Case,
    Waveform,
    With,
    Declare,
    Iteration(Iteration),
    Ports(Side),
    Switch(Switch),
    Slider(Slider),
    Panel(Panel),
}

/// Where a token stands in its text.
#[derive(Clone, Copy, PartialEq, Eq, Debug)]
pub(crate) struct Span {
    pub(crate) kind: Kind,
    pub(crate) start: u32,
    pub(crate) length: u32,
    pub(crate) place: Place,
}

fn part(text: &[u8], start: usize, count: usize) -> &[u8]
    requires { start + count ≤ length text.now }
    ensures { result.now ≡ take count (drop start text.now) }
{
    &text[start..start + count]
}

/// The tokens of a text, in order.
#[derive(Drop)]
pub struct Tokens<'a> {
    pub(crate) text: &'a [u8],
    pub(crate) symbols: Vec<Symbol>,
    pub(crate) spans: Vec<Span>,
    pub(crate) end: Place,
}

impl<'a> Model for Tokens<'a> {
    ghost use Rattle.fv_lex.specs.headline.Token.{Lexed};

    ghost Value = { Lexed };

    ghost use Rattle.fv_lex.specs.Spans.{lexed_in, IsWhole};

    ghost view = { lexed_in };

    ghost invariant = { IsWhole };
}

impl Tokens<'_> {
    /// The text that they are the tokens of.
    pub fn source(&self) -> &[u8]
        ensures { HasTokens result.now self.now }
    {
        self.text
    }

    /// How many tokens there are.
    pub fn len(&self) -> u32
        ensures { result ≡ length self.now.tokens }
    {
        self.spans.len() as u32
    }

    /// The kind of a token.
    pub fn kind(&self, i: u32) -> Kind
        requires { i < length self.now.tokens }
        ensures { slice_get (kinds_of self.now.tokens) i ≡ Some result }
    {
        self.spans[i as usize].kind
    }

    /// The bytes of a token, as they stand in the text.
    pub fn text(&self, i: u32) -> &[u8]
        requires { i < length self.now.tokens }
        ensures { slice_get (texts_of self.now.tokens) i ≡ Some result.now }
    {
        let span = self.spans[i as usize];
        part(self.text, span.start as usize, span.length as usize)
    }

    /// The place of a token's first byte.
    pub fn place(&self, i: u32) -> Place
        requires { i < length self.now.tokens }
        ensures { slice_get (places_of self.now.tokens) i ≡ Some result }
    {
        self.spans[i as usize].place
    }

    /// What the grammar sees: the symbol of each token.
    pub fn symbols(&self) -> &[Symbol]
        ensures symbols { result.now ≡ symbols_of self.now.tokens }
        ensures carried { AllCarry result.now }
    {
        self.symbols.as_slice()
    }

    /// The place after the last byte of the text.
    pub fn end(&self) -> Place
        ensures { result ≡ self.now.end }
    {
        self.end
    }
}
