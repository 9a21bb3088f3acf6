// How many bytes of a kind stand at the front.

ghost use Rattle.std.specs.Prelude.{◌≡◌, ◌==◌, ◌≤◌, ◌<◌, true, length, IfSome, MatchOption};
ghost use Rattle.std.specs.List.{list_all, prefix_len};
ghost use Rattle.fv_lex.specs.headline.Bytes.{is_blank, is_letter, is_digit, begins};
ghost use Rattle.fv_lex.specs.headline.Symbols.{value};
ghost use Rattle.fv_lex.specs.inner.Steps.{is_in, to_quote, to_close};
ghost use Rattle.fv_base.specs.declared.limits.TheConstants.{GREATEST_LITERAL};

use fv_base::is_digit;
use fv_base::limits::GREATEST_LITERAL;

pub(crate) fn is_blank(b: u8) -> bool
    ensures { result ≡ is_blank b }
{
    b == b'\t' || b == b'\n' || b == b'\r' || b == b' '
}

pub(crate) fn is_letter(b: u8) -> bool
    ensures { result ≡ is_letter b }
{
    (65 <= b && b <= 90) || (97 <= b && b <= 122)
}

pub(crate) fn begins_with_letter(text: &[u8]) -> bool
    ensures { result ≡ begins is_letter text.now }
{
    match text {
        [] => false,
        [b, ..] => is_letter(*b),
    }
}

pub(crate) fn begins_with_digit(text: &[u8]) -> bool
    ensures { result ≡ begins is_digit text.now }
{
    match text {
        [] => false,
        [b, ..] => is_digit(*b),
    }
}

/// The bytes of which a run consists.
#[derive(Clone, Copy, PartialEq, Eq, Debug)]
pub(crate) enum Class {
    NameByte,
    Digit,
    Underscore,
    InLine,
}

pub(crate) fn is_in(class: Class, b: u8) -> bool
    ensures { result ≡ is_in class b }
{
    match class {
        Class::NameByte => is_letter(b) || is_digit(b) || b == b'_',
        Class::Digit => is_digit(b),
        Class::Underscore => b == b'_',
        Class::InLine => b != b'\n',
    }
}

/// How many bytes of a class stand at the front.
pub(crate) fn prefix_len(class: Class, bytes: &[u8]) -> usize
    ensures is { result ≡ prefix_len (is_in class) bytes.now }
    ensures short { result ≤ length bytes.now }
{
    let mut n = 0;
    let mut rest = bytes;
    while let [b, after @ ..] = rest {
        if !is_in(class, *b) {
            return n;
        }
        n += 1;
        rest = after;
    }
    n
}

/// How many bytes there are up to the first quote, with it.
pub(crate) fn to_quote(bytes: &[u8]) -> Option<usize>
    ensures is { result ≡ to_quote bytes.now }
    ensures short { IfSome result (λ n. n ≤ length bytes.now) }
{
    let mut n = 0;
    let mut rest = bytes;
    while let [b, after @ ..] = rest {
        n += 1;
        if *b == b'"' {
            return Some(n);
        }
        rest = after;
    }
    None
}

/// How many bytes there are up to the first `*/`, with it.
pub(crate) fn to_close(bytes: &[u8]) -> Option<usize>
    ensures is { result ≡ to_close bytes.now }
    ensures short { IfSome result (λ n. n ≤ length bytes.now) }
{
    let mut n = 0;
    let mut rest = bytes;
    while let [b, after @ ..] = rest {
        if *b == b'*' && begins_with_slash(after) {
            return Some(n + 2);
        }
        n += 1;
        rest = after;
    }
    None
}

fn begins_with_slash(text: &[u8]) -> bool
    ensures { result ≡ begins (λ c. c == 47) text.now }
{
    match text {
        [] => false,
        [b, ..] => *b == b'/',
    }
}

/// The number that decimal digits spell, if it is no greater than the greatest integer literal.
pub(crate) fn number(digits: &[u8]) -> Option<u32>
    requires { list_all is_digit digits.now ≡ true }
    ensures { MatchOption result (GREATEST_LITERAL < value digits.now) (λ n. (n ≡ value digits.now) × (n ≤ GREATEST_LITERAL)) }
{
    let mut n: u64 = 0;
    let mut rest = digits;
    while let [b, after @ ..] = rest {
        n = n * 10 + u64::from(*b - b'0');
        if n > GREATEST_LITERAL {
            return None;
        }
        rest = after;
    }
    Some(n as u32)
}
