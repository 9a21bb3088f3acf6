// The loop in whose code each signal is computed.

ghost use Rattle.std.specs.Prelude.{◌≡◌, ◌<◌, ◌≤◌, length, All, IfOk};
ghost use Rattle.fv_components.specs.Reach.{next_of};
ghost use Rattle.fv_split_lanes.specs.inner.Homes.{bit_at, AreLower, AreSingle, AreLaneless, given, AreHomes};

use fv_components::Rows;
use std::alloc::{AllocError, Global};

// Gives a home to the inner ones among some signals.
fn give(homes: &mut Vec<u64>, inner: &[bool], signals: &[u64], home: u64)
    requires inner { length inner.now ≡ length homes.old.items }
    requires signals { All (λ r. r < length homes.old.items) signals.now }
    ensures { homes.new.items ≡ given (bit_at inner.now) homes.old.items signals.now home }
{
    for r in signals {
        if inner[*r as usize] {
            homes[*r as usize] = home;
        }
    }
}

/// Where signals are at home: one with a lane in its loop, and an inner one in the loop of the one that reads it.
pub fn homes(
    alloc: Global,
    reads: &Rows,
    inner: &[bool],
    owners: &[u64],
    loops: u64,
) -> Result<Vec<u64>, AllocError>
    requires long { length reads.now ≡ length owners.now }
    requires inner { length inner.now ≡ length owners.now }
    requires lower { AreLower (next_of reads.now) }
    requires single { AreSingle (next_of reads.now) (bit_at inner.now) }
    requires laneless { AreLaneless (bit_at inner.now) owners.now loops }
    ensures { IfOk result (λ homes. AreHomes (next_of reads.now) (bit_at inner.now) owners.now loops homes.items) }
{
    let mut homes = Vec::from_slice(alloc, owners)?;
    let mut s = owners.len();
    while s > 0 {
        s -= 1;
        let home = homes[s];
        if home < loops {
            give(&mut homes, inner, reads.row(s as u64), home);
        }
    }
    Ok(homes)
}
