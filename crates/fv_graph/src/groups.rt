// Which pairs are of which loop.

ghost use Rattle.std.specs.Prelude.{◌≡◌, ℕ, ◌+◌, ◌<◌, length, map, IfOk, slice_index_or, vec_len};
ghost use Rattle.fv_graph.specs.inner.Lists.{Grouped};
ghost use Rattle.fv_outside.specs.declared.tasks.Reads.{Reads};

use fv_outside::Reads;
use std::alloc::{AllocError, Global};

// List j has the indices of the keys that are j, in order.
pub(crate) fn group(alloc: Global, loops: u64, keys: &[u64]) -> Result<Vec<Vec<u64>>, AllocError>
    requires { (k : ℕ) → k < length keys.now → slice_index_or keys.now k 0 < loops }
    ensures { IfOk result (λ v. (vec_len v ≡ loops) × Grouped keys.now loops (length keys.now) v.items) }
{
    let mut lists = Vec::with_capacity(alloc, loops as usize)?;
    for _j in 0..loops {
        lists.push_reserved(Vec::new(alloc));
    }
    for k in 0..keys.len() {
        let list: &mut Vec<u64> = &mut lists[keys[k] as usize];
        list.push(k as u64)?;
    }
    Ok(lists)
}

// The reader of each pair.
pub(crate) fn readers(alloc: Global, pairs: &[Reads]) -> Result<Vec<u64>, AllocError>
    ensures { IfOk result (λ v. v.items ≡ map (λ (r : Reads). r.reader) pairs.now) }
{
    pairs.iter().map(|r| r.reader).collect(alloc)
}

// The source of each pair.
pub(crate) fn sources(alloc: Global, pairs: &[Reads]) -> Result<Vec<u64>, AllocError>
    ensures { IfOk result (λ v. v.items ≡ map (λ (r : Reads). r.source) pairs.now) }
{
    pairs.iter().map(|r| r.source).collect(alloc)
}
