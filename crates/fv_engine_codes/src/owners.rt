// Which lanes are of which loop.

ghost use Rattle.std.specs.Prelude.{IfOk};
ghost use Rattle.fv_engine_codes.specs.inner.Numbered.{AreLanesByLoop};

use fv_split_plan::Plan;
use std::alloc::{AllocError, Global};

/// The lanes of each loop, in their order.
pub(crate) fn lanes_by_loop(alloc: Global, plan: &Plan) -> Result<Vec<Vec<u64>>, AllocError>
    ensures { IfOk result (λ v. AreLanesByLoop plan.now v.items) }
{
    let loops = plan.loops();
    let mut lists = Vec::with_capacity(alloc, loops as usize)?;
    for _j in 0..loops {
        lists.push_reserved(Vec::new(alloc));
    }
    let lanes = plan.lanes();
    for l in 0..lanes.len() {
        let list: &mut Vec<u64> = &mut lists[lanes[l].owner as usize];
        list.push(l as u64)?;
    }
    Ok(lists)
}
