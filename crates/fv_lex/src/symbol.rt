// The symbol of a token.

ghost use Rattle.std.specs.Prelude.{◌≡◌, ◌≤◌, true};
ghost use Rattle.std.specs.List.{list_any};
ghost use Rattle.std.specs.Str.{bytes_eq};
ghost use Rattle.fv_lex.specs.declared.token.Kind.TheVariants.{Integer};
ghost use Rattle.fv_lex.specs.headline.Symbols.{at_byte, at_word, singles, double, sign, primitive_words, form_words};
ghost use Rattle.fv_lex.specs.headline.Symbols.{control_words, unsupported_forms, real_words, word_symbol, symbol_of, value};
ghost use Rattle.fv_lex.specs.headline.Pieces.{is_token};
ghost use Rattle.fv_base.specs.declared.limits.TheConstants.{GREATEST_LITERAL};

use crate::form::{Iteration, Panel, Side, Slider, Switch};
use crate::scan::number;
use crate::token::{Kind, Symbol};
use fv_num::{Op, Primitive};

/// The sign of one byte.
pub(crate) fn single(b: u8) -> Option<Symbol>
    ensures { result ≡ at_byte singles b }
{
    let symbol = match b {
        b'_' => Symbol::Primitive(Primitive::Wire),
        b'!' => Symbol::Primitive(Primitive::Cut),
        b',' => Symbol::Comma,
        b':' => Symbol::Colon,
        b'~' => Symbol::Tilde,
        b'+' => Symbol::Plus,
        b'-' => Symbol::Minus,
        b'*' => Symbol::Primitive(Primitive::Point(Op::Mul)),
        b'/' => Symbol::Primitive(Primitive::Point(Op::Div)),
        b'%' => Symbol::Primitive(Primitive::Point(Op::Rem)),
        b'&' => Symbol::Primitive(Primitive::Point(Op::And)),
        b'|' => Symbol::Primitive(Primitive::Point(Op::Or)),
        b'<' => Symbol::Primitive(Primitive::Point(Op::Lt)),
        b'>' => Symbol::Primitive(Primitive::Point(Op::Gt)),
        b'@' => Symbol::Primitive(Primitive::Delay),
        b'\'' => Symbol::Tick,
        b'(' => Symbol::Open,
        b')' => Symbol::Close,
        b'{' => Symbol::OpenBrace,
        b'}' => Symbol::CloseBrace,
        b'=' => Symbol::Equals,
        b';' => Symbol::Semicolon,
        b'.' => Symbol::Dot,
        b'\\' => Symbol::Backslash,
        b'^' => Symbol::Caret,
        _ => return None,
    };
    Some(symbol)
}

/// The sign of two bytes.
pub(crate) fn double(b: u8, c: u8) -> Option<Symbol>
    ensures { result ≡ double b c }
{
    let symbol = match (b, c) {
        (b'<', b':') => Symbol::Split,
        (b'<', b'<') => Symbol::Primitive(Primitive::Point(Op::Shl)),
        (b'<', b'=') => Symbol::Primitive(Primitive::Point(Op::Le)),
        (b'>', b'>') => Symbol::Primitive(Primitive::Point(Op::Shr)),
        (b'>', b'=') => Symbol::Primitive(Primitive::Point(Op::Ge)),
        (b'=', b'=') => Symbol::Primitive(Primitive::Point(Op::Eq)),
        (b'=', b'>') => Symbol::Arrow,
        (b':', b'>') => Symbol::Merge,
        (b'!', b'=') => Symbol::Primitive(Primitive::Point(Op::Ne)),
        _ => return None,
    };
    Some(symbol)
}

fn sign(bytes: &[u8]) -> Option<Symbol>
    ensures { result ≡ sign bytes.now }
{
    match bytes {
        [b] => single(*b),
        [b, c] => double(*b, *c),
        _ => None,
    }
}

fn is(bytes: &[u8], word: &[u8]) -> bool
    ensures { result ≡ bytes_eq bytes.now word.now }
{
    bytes == word
}

/// The word of a primitive.
fn primitive_word(word: &[u8]) -> Option<Symbol>
    ensures { result ≡ at_word primitive_words word.now }
{
    if is(word, b"xor") {
        Some(Symbol::Primitive(Primitive::Point(Op::Xor)))
    } else if is(word, b"mem") {
        Some(Symbol::Primitive(Primitive::Mem))
    } else if is(word, b"prefix") {
        Some(Symbol::Primitive(Primitive::Prefix))
    } else if is(word, b"int") {
        Some(Symbol::Primitive(Primitive::Int))
    } else if is(word, b"attach") {
        Some(Symbol::Primitive(Primitive::Attach))
    } else if is(word, b"select2") {
        Some(Symbol::Primitive(Primitive::Point(Op::Select2)))
    } else if is(word, b"select3") {
        Some(Symbol::Primitive(Primitive::Point(Op::Select3)))
    } else if is(word, b"min") {
        Some(Symbol::Primitive(Primitive::Point(Op::Min)))
    } else if is(word, b"max") {
        Some(Symbol::Primitive(Primitive::Point(Op::Max)))
    } else if is(word, b"abs") {
        Some(Symbol::Primitive(Primitive::Point(Op::Abs)))
    } else if is(word, b"rdtable") {
        Some(Symbol::Primitive(Primitive::ReadTable))
    } else if is(word, b"rwtable") {
        Some(Symbol::Primitive(Primitive::WriteTable))
    } else {
        None
    }
}

/// The word that begins a form of the grammar.
fn form_word(word: &[u8]) -> Option<Symbol>
    ensures { result ≡ at_word form_words word.now }
{
    if is(word, b"par") {
        Some(Symbol::Iteration(Iteration::Parallel))
    } else if is(word, b"seq") {
        Some(Symbol::Iteration(Iteration::Sequence))
    } else if is(word, b"sum") {
        Some(Symbol::Iteration(Iteration::Sum))
    } else if is(word, b"prod") {
        Some(Symbol::Iteration(Iteration::Product))
    } else if is(word, b"inputs") {
        Some(Symbol::Ports(Side::Inputs))
    } else if is(word, b"outputs") {
        Some(Symbol::Ports(Side::Outputs))
    } else if is(word, b"case") {
        Some(Symbol::Case)
    } else if is(word, b"with") {
        Some(Symbol::With)
    } else if is(word, b"declare") {
        Some(Symbol::Declare)
    } else if is(word, b"waveform") {
        Some(Symbol::Waveform)
    } else {
        None
    }
}

/// The word of a control or a group.
fn control_word(word: &[u8]) -> Option<Symbol>
    ensures { result ≡ at_word control_words word.now }
{
    if is(word, b"button") {
        Some(Symbol::Switch(Switch::Button))
    } else if is(word, b"checkbox") {
        Some(Symbol::Switch(Switch::Checkbox))
    } else if is(word, b"hslider") {
        Some(Symbol::Slider(Slider::Horizontal))
    } else if is(word, b"vslider") {
        Some(Symbol::Slider(Slider::Vertical))
    } else if is(word, b"nentry") {
        Some(Symbol::Slider(Slider::Number))
    } else if is(word, b"hgroup") {
        Some(Symbol::Panel(Panel::Horizontal))
    } else if is(word, b"vgroup") {
        Some(Symbol::Panel(Panel::Vertical))
    } else if is(word, b"tgroup") {
        Some(Symbol::Panel(Panel::Tabs))
    } else {
        None
    }
}

/// Whether it is a word of Faust's programs that is not supported.
fn is_unsupported_form(word: &[u8]) -> bool
    ensures { result ≡ list_any (bytes_eq word.now) unsupported_forms }
{
    is(word, b"import")
        || is(word, b"library")
        || is(word, b"component")
        || is(word, b"environment")
        || is(word, b"letrec")
        || is(word, b"route")
        || is(word, b"soundfile")
        || is(word, b"hbargraph")
        || is(word, b"vbargraph")
        || is(word, b"ffunction")
        || is(word, b"fconstant")
        || is(word, b"fvariable")
}

/// Whether it is a word of real numbers.
fn is_real_word(word: &[u8]) -> bool
    ensures { result ≡ list_any (bytes_eq word.now) real_words }
{
    is(word, b"float")
        || is(word, b"sin")
        || is(word, b"cos")
        || is(word, b"tan")
        || is(word, b"asin")
        || is(word, b"acos")
        || is(word, b"atan")
        || is(word, b"atan2")
        || is(word, b"exp")
        || is(word, b"exp10")
        || is(word, b"log")
        || is(word, b"log10")
        || is(word, b"pow")
        || is(word, b"sqrt")
        || is(word, b"fmod")
        || is(word, b"remainder")
        || is(word, b"floor")
        || is(word, b"ceil")
        || is(word, b"rint")
}

/// The symbol of token `n`, which is a name.
fn word_symbol(n: u64, word: &[u8]) -> Symbol
    ensures { result ≡ word_symbol n word.now }
{
    if let Some(symbol) = primitive_word(word) {
        return symbol;
    }
    if let Some(symbol) = form_word(word) {
        return symbol;
    }
    if let Some(symbol) = control_word(word) {
        return symbol;
    }
    if is_unsupported_form(word) || is_real_word(word) {
        Symbol::Unsupported(n)
    } else {
        Symbol::Name(n)
    }
}

/// The symbol of token `n`, which has this kind and these bytes.
pub(crate) fn symbol_of(n: u64, kind: Kind, bytes: &[u8]) -> Symbol
    requires token { is_token kind bytes.now ≡ true }
    requires small { kind ≡ Integer → value bytes.now ≤ GREATEST_LITERAL }
    ensures { result ≡ symbol_of n kind bytes.now }
{
    match kind {
        Kind::Name => word_symbol(n, bytes),
        Kind::Integer => Symbol::Integer(number(bytes).unwrap()),
        Kind::Text => Symbol::Text(n),
        Kind::Sign => sign(bytes).unwrap(),
    }
}
