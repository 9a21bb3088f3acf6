// The numbers of loops.

ghost use Rattle.std.specs.Prelude.{◌≡◌, ℕ, ◌+◌, ◌<◌, ◌≤◌, length, All, IfOk};
ghost use Rattle.fv_components.specs.headline.Reach.{at};
ghost use Rattle.fv_split_lanes.specs.inner.Ranks.{rank_of, AreMet, AreRanks};

use std::alloc::{AllocError, Global};

// Which components have a marked signal.
fn met(alloc: Global, numbers: &[u64], marked: &[bool]) -> Result<Vec<bool>, AllocError>
    requires marked { length marked.now ≡ length numbers.now }
    requires numbers { All (λ c. c < length numbers.now) numbers.now }
    ensures { IfOk result (λ met. AreMet numbers.now marked.now met.items) }
{
    let mut met = vec![in alloc; false; numbers.len()]?;
    for s in 0..numbers.len() {
        if marked[s] {
            met[numbers[s] as usize] = true;
        }
    }
    Ok(met)
}

// How many bits are true before each place, and before the end.
fn counts(alloc: Global, bits: &[bool]) -> Result<Vec<u64>, AllocError>
    ensures { IfOk result (λ v. (length v.items ≡ length bits.now + 1) × ((c : ℕ) → c ≤ length bits.now → at v.items c ≡ rank_of bits.now c)) }
{
    let mut counts = Vec::with_capacity(alloc, bits.len() + 1)?;
    let mut count = 0_u64;
    for i in 0..bits.len() {
        counts.push(count)?;
        if bits[i] {
            count += 1;
        }
    }
    counts.push(count)?;
    Ok(counts)
}

/// The loop of each component, and how many loops there are.
pub fn ranks(alloc: Global, numbers: &[u64], marked: &[bool]) -> Result<Vec<u64>, AllocError>
    requires marked { length marked.now ≡ length numbers.now }
    requires numbers { All (λ c. c < length numbers.now) numbers.now }
    ensures { IfOk result (λ v. AreRanks numbers.now marked.now v.items) }
{
    let met = met(alloc, numbers, marked)?;
    counts(alloc, &met)
}
