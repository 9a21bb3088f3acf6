// The lengths of the parts, in order.

ghost use Rattle.std.specs.Prelude.{◌≡◌, ◌↔◌, ◌<◌, ◌^◌, length, slice_index, sum, take, IfOk, IsTrue};
ghost use Rattle.fv_pool.specs.Layout.{ArePlaces};

use std::alloc::{AllocError, Global};
use std::marker::Model;

/// The lengths of the parts of a region, and where each part begins.
#[derive(Drop)]
pub struct Layout {
    lengths: Vec<u64>,
    places: Vec<u64>,
    total: u64,
}

impl Model for Layout {
    ghost use Rattle.std.specs.Prelude.{ℕ, List, ◌≡◌, sum};
    ghost use Rattle.fv_pool.specs.Layout.{ArePlaces};

    ghost Value = { List ℕ };

    ghost view = { λ t. t.lengths.items };

    ghost invariant = { λ t. ArePlaces t.lengths.items t.places.items × (t.total ≡ sum t.lengths.items) };
}

impl Layout {
    /// Parts of these lengths, in cells, one after another.
    pub fn new(alloc: Global, lengths: &[u64]) -> Result<Layout, AllocError>
        requires { sum lengths.now < 2 ^ 63 }
        ensures { IfOk result (λ layout. layout ≡ lengths.now) }
    {
        let mut kept = Vec::new(alloc);
        let mut places = Vec::new(alloc);
        let mut place = 0;
        for i in 0..lengths.len() {
            kept.push(lengths[i])?;
            places.push(place)?;
            place += lengths[i];
        }
        Ok(Layout {
            lengths: kept,
            places,
            total: place,
        })
    }

    /// The number of cells of all parts.
    pub fn total(&self) -> u64
        ensures { result ≡ sum self.now }
    {
        self.total
    }

    /// The number of parts.
    pub fn len(&self) -> u64
        ensures { result ≡ length self.now }
    {
        self.lengths.len() as u64
    }

    /// Whether there are no parts.
    pub fn is_empty(&self) -> bool
        ensures { IsTrue result ↔ (length self.now ≡ 0) }
    {
        self.lengths.is_empty()
    }

    /// The length of part `i`, in cells.
    pub fn length(&self, i: u64) -> u64
        requires { i < length self.now }
        ensures { result ≡ slice_index self.now i }
    {
        self.lengths[i as usize]
    }

    /// The cell where part `i` begins.
    pub fn place(&self, i: u64) -> u64
        requires { i < length self.now }
        ensures { result ≡ sum (take i self.now) }
    {
        self.places[i as usize]
    }

    /// Where the parts begin, one after another.
    pub fn places(&self) -> &[u64]
        ensures { ArePlaces self.now result.now }
    {
        &self.places
    }
}
