// The one region.

ghost use types.Logic.{sem};

use crate::layout::Layout;
use crate::part::Cutter;
use std::alloc::{AllocError, Global};

/// Cells of 32 bits that lie one after another.
#[derive(Drop)]
pub struct Region {
    cells: Vec<i32>,
}

impl Region {
    ghost use Rattle.std.specs.Prelude.{◌≡◌, ◌↔◌, IfOk, IsTrue, length, replicate, pos};
    ghost use Rattle.fv_pool.specs.Layout.{HaveRoom};
    ghost use Rattle.fv_pool.specs.Region.{cells_of, LendsCells, LendsParts};
    ghost use Rattle.fv_pool.specs.Parts.{IsCutter};

    /// A region of `len` zeros.
    pub fn new(alloc: Global, len: u64) -> Result<Region, AllocError>
        ensures { IfOk result (λ region. cells_of region ≡ replicate len (pos 0)) }
    {
        Ok(Region {
            cells: Vec::from_elem(alloc, 0, len as usize)?,
        })
    }

    /// The number of cells.
    pub fn len(&self) -> u64
        ensures { result ≡ length (cells_of self.now) }
    {
        self.cells.len() as u64
    }

    /// Whether there are no cells.
    pub fn is_empty(&self) -> bool
        ensures { IsTrue result ↔ (length (cells_of self.now) ≡ 0) }
    {
        self.cells.is_empty()
    }

    /// Whether the parts of a layout find room in the region.
    pub fn has_room(&self, layout: &Layout) -> bool
        ensures { IsTrue result ↔ HaveRoom layout.now (cells_of self.now) }
    {
        layout.total() <= self.len()
    }

    /// All cells.
    pub fn cells(&mut self) -> &mut [i32]
        ensures* writes_back { sem 𝓛 (LendsCells self.entry result) }
        ensures value { result.now ≡ cells_of self.old }
    {
        self.cells.as_mut_slice()
    }

    /// The cells, to be cut in parts. Where the loan ends, the region holds what the parts then hold.
    pub fn cut<'a>(&'a mut self, layout: &'a Layout) -> Cutter<'a>
        requires { HaveRoom layout.now (cells_of self.old) }
        ensures* writes_back { sem 𝓛 (LendsParts self.entry result) }
        ensures value { IsCutter layout.now 0 (cells_of self.old) result }
    {
        Cutter::over(self.cells(), layout)
    }
}
