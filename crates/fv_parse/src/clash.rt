// Static errors in a list of definitions, rules or names.

ghost use Rattle.std.specs.Prelude.{◌≡◌, ◌<◌, [], IfOk};
ghost use Rattle.fv_parse.specs.headline.StaticErrors.{kind_order, comes_first, earlier, clash, clash_with, first_clash, differing, rule_widths};

use crate::definitions::Defined;
use crate::parsed::text_of;
use fv_lex::Tokens;
use std::alloc::{AllocError, Global};
use std::collections::BTreeMap;

/// What kind of error it is.
#[derive(Clone, Copy, Debug)]
pub(crate) enum ErrorKind {
    Redefined,
    Repeated,
    Widths,
}

/// What is wrong, and the number of the token where it is.
#[derive(Clone, Copy, Debug)]
pub(crate) struct StaticError {
    pub(crate) token: u64,
    pub(crate) kind: ErrorKind,
}

/// What the names of a list are.
#[derive(Clone, Copy, Debug)]
pub(crate) enum Among {
    /// Names of definitions.
    Definitions,
    /// Names of parameters.
    Names,
}

fn kind_order(kind: ErrorKind) -> u8
    ensures { result ≡ kind_order kind }
{
    match kind {
        ErrorKind::Redefined => 0,
        ErrorKind::Repeated => 1,
        ErrorKind::Widths => 2,
    }
}

fn comes_first(a: StaticError, b: StaticError) -> bool
    ensures { result ≡ comes_first a b }
{
    a.token < b.token || (a.token == b.token && kind_order(a.kind) <= kind_order(b.kind))
}

/// The first of two errors, at one token in the order of the kinds.
pub(crate) fn earlier(a: Option<StaticError>, b: Option<StaticError>) -> Option<StaticError>
    ensures { result ≡ earlier a b }
{
    match a {
        None => b,
        Some(x) => match b {
            None => Some(x),
            Some(y) => { if comes_first(x, y) { Some(x) } else { Some(y) } }
        },
    }
}

/// The error of a definition whose name stood before. The first definition of that name has `width` patterns.
fn clash(among: Among, defined: Defined, width: u64) -> Option<StaticError>
    ensures { result ≡ clash among defined width }
{
    let kind = match among {
        Among::Names => ErrorKind::Repeated,
        Among::Definitions => {
            if defined.width == 0 || width == 0 {
                ErrorKind::Redefined
            } else if width == defined.width {
                return None;
            } else {
                ErrorKind::Widths
            }
        }
    };
    Some(StaticError {
        token: defined.name,
        kind,
    })
}

fn clash_with(among: Among, defined: Defined, found: Option<u64>) -> Option<StaticError>
    ensures { result ≡ clash_with among defined found }
{
    match found {
        None => None,
        Some(width) => clash(among, defined, width),
    }
}

/// The first definition that clashes with an earlier one.
pub(crate) fn first_clash(
    alloc: Global,
    among: Among,
    tokens: &Tokens,
    list: &[Defined],
) -> Result<Option<StaticError>, AllocError>
    ensures { IfOk result (λ o. o ≡ first_clash among tokens.now [] list.now) }
{
    let mut seen: BTreeMap<&[u8], u64> = BTreeMap::new(alloc);
    for i in 0..list.len() {
        let defined = list[i];
        let name = text_of(tokens, defined.name);
        let found = seen.get(&name).copied();
        if let Some(error) = clash_with(among, defined, found) {
            return Ok(Some(error));
        }
        let first = found.unwrap_or(defined.width);
        seen.insert(name, first)?;
    }
    Ok(None)
}

/// The first rule that has another number of patterns than this.
fn differing(width: u64, rules: &[Defined]) -> Option<StaticError>
    ensures { result ≡ differing width rules.now }
{
    for rule in rules {
        if rule.width != width {
            return Some(StaticError {
                token: rule.name,
                kind: ErrorKind::Widths,
            });
        }
    }
    None
}

/// The first rule that has another number of patterns than the first one.
pub(crate) fn rule_widths(rules: &[Defined]) -> Option<StaticError>
    ensures { result ≡ rule_widths rules.now }
{
    match rules {
        [] => None,
        [first, rest @ ..] => differing(first.width, rest),
    }
}
