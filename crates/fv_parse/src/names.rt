// The canonical numbers of names.

ghost use Rattle.std.specs.Prelude.{◌≡◌, IfOk};
ghost use Rattle.fv_parse.specs.Trees.{canonical_of};

use fv_lex::Tokens;
use std::alloc::{AllocError, Global};
use std::collections::BTreeMap;

/// The canonical number of each token, which is that of the first one with its bytes, and after them that of no bytes.
pub(crate) fn canonical_numbers(alloc: Global, tokens: &Tokens) -> Result<Vec<u64>, AllocError>
    ensures { IfOk result (λ v. v.items ≡ canonical_of tokens.now) }
{
    let mut seen: BTreeMap<&[u8], u64> = BTreeMap::new(alloc);
    let mut numbers = Vec::new(alloc);
    for i in 0..tokens.len() {
        let text = tokens.text(i);
        let number = seen.get(&text).copied().unwrap_or(u64::from(i));
        numbers.push(number)?;
        seen.insert(text, number)?;
    }
    let nothing: &[u8] = &[];
    let last = seen
        .get(&nothing)
        .copied()
        .unwrap_or(u64::from(tokens.len()));
    numbers.push(last)?;
    Ok(numbers)
}
