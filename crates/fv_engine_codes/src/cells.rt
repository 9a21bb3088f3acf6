// The places of cells in the lists of their loops.

ghost use Rattle.std.specs.Prelude.{IfOk};
ghost use Rattle.fv_engine_codes.specs.Cells.{ArePlaced};

use crate::CellPlaces;
use fv_split_plan::Plan;
use std::alloc::{AllocError, Global};

/// The cells of each loop get places in their order.
pub fn place_cells(alloc: Global, plan: &Plan) -> Result<CellPlaces, AllocError>
    ensures { IfOk result (λ c. ArePlaced plan.now c.places.items c.counts.items) }
{
    let cells = plan.cells();
    let mut counts = Vec::from_elem(alloc, 0, plan.loops() as usize)?;
    let mut places = Vec::with_capacity(alloc, cells.len())?;
    for k in 0..cells.len() {
        let owner = cells[k].owner as usize;
        places.push_reserved(counts[owner]);
        counts[owner] += 1;
    }
    Ok(CellPlaces { places, counts })
}
