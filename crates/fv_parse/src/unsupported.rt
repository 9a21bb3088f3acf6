// Tokens that are not supported.

ghost use Rattle.std.specs.Prelude.{◌≡◌, ◌<◌, length, slice_get, Some, codes, IfOk};
ghost use Rattle.fv_lex.specs.headline.Token.{symbols_of};
ghost use Rattle.fv_parse.specs.headline.Unsupported.{is_control, is_open, has_percent, unsupported, first_unsupported, some_if};

use fv_base::Word;
use fv_lex::{Symbol, Tokens};
use std::alloc::{AllocError, Global};

/// The byte that no label of a control has.
const PERCENT: u8 = b'%';

/// Whether a label stands after this word.
fn is_control(symbol: Symbol) -> bool
    ensures { result ≡ is_control symbol }
{
    matches!(symbol, Symbol::Switch(_) | Symbol::Slider(_))
}

fn is_open(symbol: Symbol) -> bool
    ensures { result ≡ is_open symbol }
{
    matches!(symbol, Symbol::Open)
}

fn has_percent(text: &[u8]) -> bool
    ensures { result ≡ has_percent text.now }
{
    text.contains(&PERCENT)
}

fn symbol_at(tokens: &Tokens, i: u32) -> Symbol
    requires { i < length tokens.now.tokens }
    ensures { slice_get (symbols_of tokens.now.tokens) i ≡ Some result }
{
    tokens.symbols()[i as usize]
}

fn percent(alloc: Global, there: bool) -> Result<Option<Word>, AllocError>
    ensures { IfOk result (λ o. o ≡ some_if there (codes "%")) }
{
    if there {
        Ok(Some(Word::new(alloc, b"%")?))
    } else {
        Ok(None)
    }
}

/// The word that makes a token unsupported, with its two symbols before and its own.
fn unsupported(
    alloc: Global,
    before: Symbol,
    last: Symbol,
    symbol: Symbol,
    text: &[u8],
) -> Result<Option<Word>, AllocError>
    ensures { IfOk result (λ o. o ≡ unsupported before last symbol text.now) }
{
    match symbol {
        Symbol::Unsupported(_) | Symbol::Caret => Ok(Some(Word::new(alloc, text)?)),
        Symbol::Text(_) => percent(
            alloc,
            is_control(before) && is_open(last) && has_percent(text),
        ),
        _ => Ok(None),
    }
}

/// The word of the first unsupported token.
pub(crate) fn first_unsupported(alloc: Global, tokens: &Tokens) -> Result<Option<Word>, AllocError>
    ensures { IfOk result (λ o. o ≡ first_unsupported tokens.now.tokens) }
{
    let mut before = Symbol::Semicolon;
    let mut last = Symbol::Semicolon;
    for i in 0..tokens.len() {
        let symbol = symbol_at(tokens, i);
        let found = unsupported(alloc, before, last, symbol, tokens.text(i))?;
        if let Some(word) = found {
            return Ok(Some(word));
        }
        before = last;
        last = symbol;
    }
    Ok(None)
}
