// The next piece of a text.

ghost use Rattle.std.specs.Prelude.{◌≡◌, ◌∷◌};
ghost use Rattle.fv_lex.specs.headline.Bytes.{is_name_byte, begins};
ghost use Rattle.fv_lex.specs.headline.Pieces.{is_exponent, is_real_tail};
ghost use Rattle.fv_lex.specs.inner.Steps.{bare_underscores, IsBare, number_next, slash_next, sign_next, first_next, next_piece};

use crate::refusal::Fault;
use crate::scan::{
    Class, begins_with_digit, begins_with_letter, is_blank, is_in, is_letter, number, prefix_len,
    to_close, to_quote,
};
use crate::symbol::{double, single};
use crate::token::Kind;
use fv_base::is_digit;

/// What a text begins with.
#[derive(Clone, Copy, PartialEq, Eq, Debug)]
pub(crate) enum Next {
    End,
    /// A piece, with its number of bytes: a token of a kind, or a blank byte or a comment, of no kind.
    Found(usize, Option<Kind>),
    Refused(Fault),
}

/// How many `_` stand at the front, if no letter follows them, and 0 otherwise.
/// A `bare` above 0 is that number, known already, so that a long run is read once.
pub(crate) fn bare_underscores(text: &[u8], bare: usize) -> usize
    requires { IsBare bare text.now }
    ensures { result ≡ bare_underscores text.now }
{
    if bare > 0 {
        return bare;
    }
    let n = prefix_len(Class::Underscore, text);
    if begins_with_letter(&text[n..]) { 0 } else { n }
}

/// The first piece of a text. `bare` is how many `_` stand at its front that no letter follows.
pub(crate) fn next_piece(text: &[u8], bare: usize) -> Next
    requires { bare ≡ bare_underscores text.now }
    ensures { result ≡ next_piece text.now }
{
    match text {
        [] => Next::End,
        [b, rest @ ..] => {
            if bare > 0 {
                Next::Found(1, Some(Kind::Sign))
            } else {
                first_next(*b, rest, text)
            }
        }
    }
}

fn first_next(b: u8, rest: &[u8], text: &[u8]) -> Next
    requires { text.now ≡ b ∷ rest.now }
    ensures { result ≡ first_next b rest.now }
{
    if is_blank(b) {
        Next::Found(1, None)
    } else if is_letter(b) || b == b'_' {
        Next::Found(1 + prefix_len(Class::NameByte, rest), Some(Kind::Name))
    } else if is_digit(b) {
        number_next(text)
    } else if b == b'"' {
        match to_quote(rest) {
            None => Next::Refused(Fault::Unclosed),
            Some(n) => Next::Found(1 + n, Some(Kind::Text)),
        }
    } else if b == b'/' {
        slash_next(rest)
    } else if b == b'.' && begins_with_digit(rest) {
        Next::Refused(Fault::RealLiteral)
    } else {
        sign_next(b, rest)
    }
}

fn number_next(text: &[u8]) -> Next
    ensures { result ≡ number_next text.now }
{
    let n = prefix_len(Class::Digit, text);
    let (digits, rest) = text.split_at(n);
    if is_real_tail(rest) {
        return Next::Refused(Fault::RealLiteral);
    }
    match number(digits) {
        None => Next::Refused(Fault::LiteralTooLarge),
        Some(_) => Next::Found(n, Some(Kind::Integer)),
    }
}

/// Whether digits before these bytes make a real literal of them.
fn is_real_tail(rest: &[u8]) -> bool
    ensures { result ≡ is_real_tail rest.now }
{
    match rest {
        [] => false,
        [b, after @ ..] => *b == b'.'
            || ((*b == b'e' || *b == b'E') && is_exponent(after))
            || (*b == b'f' && !continues_name(after)),
    }
}

fn is_exponent(rest: &[u8]) -> bool
    ensures { result ≡ is_exponent rest.now }
{
    match rest {
        [] => false,
        [b, after @ ..] => is_digit(*b) || ((*b == b'+' || *b == b'-') && begins_with_digit(after)),
    }
}

fn continues_name(rest: &[u8]) -> bool
    ensures { result ≡ begins is_name_byte rest.now }
{
    match rest {
        [] => false,
        [b, ..] => is_in(Class::NameByte, *b),
    }
}

fn slash_next(rest: &[u8]) -> Next
    ensures { result ≡ slash_next rest.now }
{
    match rest {
        [b'/', body @ ..] => Next::Found(2 + prefix_len(Class::InLine, body), None),
        [b'*', body @ ..] => match to_close(body) {
            None => Next::Refused(Fault::Unclosed),
            Some(n) => Next::Found(2 + n, None),
        },
        _ => Next::Found(1, Some(Kind::Sign)),
    }
}

fn sign_next(b: u8, rest: &[u8]) -> Next
    ensures { result ≡ sign_next b rest.now }
{
    if let [c, ..] = rest {
        if double(b, *c).is_some() {
            return Next::Found(2, Some(Kind::Sign));
        }
    }
    if single(b).is_some() {
        Next::Found(1, Some(Kind::Sign))
    } else {
        Next::Refused(Fault::BadByte)
    }
}
