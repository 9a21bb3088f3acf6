// Cutting a whole text into tokens.

ghost use Rattle.std.specs.Prelude.{◌≡◌, ◌⊎◌, ◌+◌, ◌<◌, ◌≤◌, ◌^◌, ◌++◌, Result, length, IfOk, IfErr, OnOk, IsOkUnless, vec_len};
ghost use Rattle.fv_base.specs.declared.limits.TheConstants.{DEEPEST_NESTING};
ghost use Rattle.fv_lex.specs.declared.refusal.LexRefusal.{LexRefusal};
ghost use Rattle.fv_lex.specs.declared.refusal.LexRefusal.TheVariants.{NoMemory};
ghost use Rattle.fv_lex.specs.headline.Token.{Lexed};
ghost use Rattle.fv_lex.specs.Spans.{new_symbols, new_spans, HasSymbol};
ghost use Rattle.fv_lex.specs.headline.Cuts.{depth_after, place_after, Has};
ghost use Rattle.fv_lex.specs.Cuts.{HasTokens, HasRefusal, HasAtMostOne, HasAtLeastOne};
ghost use Rattle.fv_base.specs.declared.limits.TheConstants.{LONGEST_TEXT};

use crate::next::{Next, bare_underscores, next_piece};
use crate::refusal::{Fault, LexRefusal, refusal_at};
use crate::symbol::symbol_of;
use crate::token::{Kind, Place, Span, Symbol, Tokens};
use fv_base::Role;
use fv_base::limits::{DEEPEST_NESTING, LONGEST_TEXT};
use std::alloc::Global;

/// The place after some bytes that begin at a place.
fn place_after(place: Place, bytes: &[u8]) -> Place
    requires { (place.line + length bytes.now < 2 ^ 32) × (place.column + length bytes.now < 2 ^ 32) }
    ensures is { result ≡ place_after place bytes.now }
    ensures near { (result.line ≤ place.line + length bytes.now) × (result.column ≤ place.column + length bytes.now) }
{
    let mut here = place;
    let mut rest = bytes;
    while let [b, after @ ..] = rest {
        here = if *b == b'\n' {
            Place {
                line: here.line + 1,
                column: 1,
            }
        } else {
            Place {
                line: here.line,
                column: here.column + 1,
            }
        };
        rest = after;
    }
    here
}

/// How many brackets are open after a piece.
fn depth_after(depth: u32, bytes: &[u8]) -> u32
    requires { depth ≤ DEEPEST_NESTING }
    ensures { result ≡ depth_after depth bytes.now }
{
    match bytes {
        [b'('] | [b'{'] => depth + 1,
        [b')'] | [b'}'] => depth.saturating_sub(1),
        _ => depth,
    }
}

/// Adds a piece, if it is a token, to the symbols and spans.
fn push_piece(
    symbols: &mut Vec<Symbol>,
    spans: &mut Vec<Span>,
    kind: Option<Kind>,
    bytes: &[u8],
    start: u32,
    place: Place,
) -> Result<(), LexRefusal>
    requires few { length bytes.now < 2 ^ 32 }
    requires token { HasSymbol kind bytes.now }
    ensures symbols { OnOk result (symbols.new.items ≡ symbols.old.items ++ new_symbols (vec_len spans.old) kind bytes.now) }
    ensures spans { OnOk result (spans.new.items ≡ spans.old.items ++ new_spans kind start bytes.now place) }
    ensures err { IsOkUnless result NoMemory }
{
    let Some(kind) = kind else {
        return Ok(());
    };
    let symbol = symbol_of(spans.len() as u64, kind, bytes);
    symbols.push(symbol)?;
    spans.push(Span {
        kind,
        start,
        length: bytes.len() as u32,
        place,
    })?;
    Ok(())
}

/// The tokens of a text that is not too long.
fn cut<'a>(alloc: Global, text: &'a [u8]) -> Result<Tokens<'a>, LexRefusal>
    requires { length text.now ≤ LONGEST_TEXT }
    ensures tokens { IfOk result (HasTokens text.now) }
    ensures refusal { IfErr result (λ e. (e ≡ NoMemory) ⊎ HasRefusal text.now e) }
{
    let mut symbols = Vec::new(alloc);
    let mut spans = Vec::new(alloc);
    let mut place = Place { line: 1, column: 1 };
    let mut depth = 0;
    let mut known = 0;
    let mut rest = text;
    loop {
        let bare = bare_underscores(rest, known);
        match next_piece(rest, bare) {
            Next::End => {
                return Ok(Tokens {
                    text,
                    symbols,
                    spans,
                    end: place,
                });
            }
            Next::Refused(fault) => return Err(refusal_at(place, fault)),
            Next::Found(count, kind) => {
                let start = text.len() - rest.len();
                let (bytes, after) = rest.split_at(count);
                let inside = depth_after(depth, bytes);
                if inside > DEEPEST_NESTING {
                    return Err(refusal_at(place, Fault::Nesting));
                }
                push_piece(&mut symbols, &mut spans, kind, bytes, start as u32, place)?;
                depth = inside;
                place = place_after(place, bytes);
                known = bare.saturating_sub(1);
                rest = after;
            }
        }
    }
}

/// The tokens of a text: the one list that it has.
/// A text of more than 1,048,576 bytes is refused first. Otherwise the first place in the text at which it can't be
/// cut further, or at which a 129th bracket is open, is refused.
pub fn tokens<'a>(alloc: Global, text: &'a [u8]) -> Result<Tokens<'a>, LexRefusal>
    ensures tokens { IfOk result (HasTokens text.now) }
    ensures refusal { IfErr result (λ e. (e ≡ NoMemory) ⊎ HasRefusal text.now e) }

    // What the text has is the answer, where memory lasts.
    ensures only { (answer : Result Lexed LexRefusal) → Has text.now answer → (result ≡ answer) ⊎ (result ≡ Err NoMemory) }
{
    if text.len() > LONGEST_TEXT {
        return Err(LexRefusal::TextTooLong {
            role: Role::Program,
        });
    }
    cut(alloc, text)
}

/// A text has either one list of tokens or one first refusal.
pub fn one_answer()
    ensures at_most { HasAtMostOne }
    ensures at_least { HasAtLeastOne }
{}
