// The cut of a run into blocks.

ghost use Rattle.std.specs.Prelude.{◌≡◌, ◌+◌, ◌-◌, ◌<◌, ◌≤◌, ◌^◌, ℤ, List, length, take};
ghost use Rattle.std.specs.List.{AllByRecursion};
ghost use Rattle.fv_control.specs.Laws.{NeverFall, applied};
ghost use Rattle.fv_engine_render.specs.headline.Blocks.{block_at};
ghost use Rattle.fv_engine_render.specs.Blocks.{AreNext};
ghost use Rattle.fv_engine_render.specs.inner.Runs.{BlockBegins};

use crate::blocks::RunSizes;
use fv_control::{Change, listen};

/// How many frames the next block has. `next` is the index of the first change after the frame.
pub fn next_block(block: u32, total: u32, changes: &[Change], next: usize, frame: u32) -> u32
    requires inside { frame < total }
    requires some { 1 ≤ block }
    requires next { AreNext changes.now frame next }
    ensures length { result ≡ block_at block total changes.now frame }
    ensures some { 1 ≤ result }
    ensures inside { result ≤ total - frame }
    ensures short { result ≤ block }
{
    let most = block.min(total - frame);
    if next < changes.len() {
        // No change at this place is before the frame.
        most.min(changes[next].frame.saturating_sub(frame))
    } else {
        most
    }
}

/// Makes the changes that come at a frame. Returns the index of the first change after them, and how many frames the block has that
/// begins there.
pub(crate) fn begin_block(
    sizes: &RunSizes,
    changes: &[Change],
    next: usize,
    frame: u32,
    values: &mut [i32],
) -> (usize, u32)
    requires inside { frame < sizes.now.frames }
    requires some { 1 ≤ sizes.now.block }
    requires order { NeverFall 0 changes.now }
    requires named { AllByRecursion (λ c. c.control < length values.old) changes.now }
    requires there { next ≤ length changes.now }
    requires come { AllByRecursion (λ c. c.frame ≤ frame) (take next changes.now) }
    ensures begins { (initial : List ℤ) → values.old ≡ applied initial (take next changes.now) → length values.old ≡ length initial
        → BlockBegins changes.now initial values.new frame result.1 result.0 sizes.now.block sizes.now.frames }
    ensures some { 1 ≤ result.1 }
    ensures inside { result.1 ≤ sizes.now.frames - frame }
    ensures short { result.1 ≤ sizes.now.block }
    ensures fits { frame + result.1 < 2 ^ 32 }
{
    let next = listen(changes, next, frame as usize, values);
    let frames = next_block(sizes.block, sizes.frames, changes, next, frame);
    (next, frames)
}
