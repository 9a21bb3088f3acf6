// One lane's cells, as a worker that has all lanes reads and writes them. Its origin is the number of cells before the block's first sample.

ghost use Rattle.std.specs.Prelude.{◌≡◌, ◌+◌, ◌-◌, ◌^◌, ◌<◌, ◌≤◌, ◌++◌, [], ◌∷◌, length, take, drop, slice_index_or, pos};
ghost use Rattle.fv_lines.specs.Hold.{from_start, held, Holds};
ghost use Rattle.fv_lines.specs.Flat.{HasOrigin, IsBegun};
ghost use Rattle.fv_lines.specs.Shape.{copied_history, Turned};

use crate::items::copy_if_some;
use crate::shape::{COPIED_HISTORY, LaneShape, LaneState};

/// Writes the block's sample number `index`, after all before it.
pub(crate) fn put(cells: &mut [i32], shape: &LaneShape, origin: u64, index: u64, value: i32)
    requires begun { IsBegun shape.now.history shape.now.len origin cells.old }
    requires room { shape.now.history + index < shape.now.len }
    ensures len { length cells.new ≡ length cells.old }
    ensures list { take (shape.now.history + index + 1) (from_start (origin - shape.now.history) cells.new)
        ≡ take (shape.now.history + index) (from_start (origin - shape.now.history) cells.old) ++ value ∷ [] }
{
    cells[shape.cell(origin + index) as usize] = value;
}

/// The sample that lies `back` samples before the block's sample number `index`.
pub(crate) fn get(cells: &[i32], shape: &LaneShape, origin: u64, index: u64, back: u64) -> i32
    requires begun { IsBegun shape.now.history shape.now.len origin cells.now }
    requires small { index < 2 ^ 32 }
    requires there { back ≤ shape.now.history + index }
    requires room { shape.now.history + index < shape.now.len + back }
    ensures { result ≡ slice_index_or (from_start (origin - shape.now.history) cells.now) (shape.now.history + index - back) (pos 0) }
{
    cells[shape.cell(origin + index - back) as usize]
}

/// Writes these samples of the block from number `index` on, after all before them.
pub(crate) fn put_many(
    cells: &mut [i32],
    shape: &LaneShape,
    origin: u64,
    index: u64,
    values: &[i32],
)
    requires begun { IsBegun shape.now.history shape.now.len origin cells.old }
    requires room { shape.now.history + index + length values.now ≤ shape.now.len }
    ensures len { length cells.new ≡ length cells.old }
    ensures list { take (shape.now.history + index + length values.now) (from_start (origin - shape.now.history) cells.new)
        ≡ take (shape.now.history + index) (from_start (origin - shape.now.history) cells.old) ++ values.now }
{
    let first = shape.cell(origin + index) as usize;
    // As many as lie before the end of the cells, and then the others from their beginning on.
    let before = values.len().min(cells.len() - first);
    cells[first..first + before].copy_from_slice(&values[..before]);
    copy_if_some(&mut cells[..values.len() - before], &values[before..]);
}

/// Fills `to` with the samples that lie `back` samples before the block's samples from number `index` on.
pub(crate) fn get_many(
    cells: &[i32],
    shape: &LaneShape,
    origin: u64,
    index: u64,
    back: u64,
    to: &mut [i32],
)
    requires begun { IsBegun shape.now.history shape.now.len origin cells.now }
    requires small { index + length to.old ≤ 2 ^ 32 }
    requires there { back ≤ shape.now.history + index }
    requires room { shape.now.history + index + length to.old ≤ shape.now.len + back }
    ensures len { length to.new ≡ length to.old }
    ensures samples { to.new ≡ take (length to.old) (drop (shape.now.history + index - back) (from_start (origin - shape.now.history) cells.now)) }
{
    let first = shape.cell(origin + index - back) as usize;
    let before = to.len().min(cells.len() - first);
    let after = to.len() - before;
    to[..before].copy_from_slice(&cells[first..first + before]);
    copy_if_some(&mut to[before..], &cells[..after]);
}

/// Makes the history that the state names begin at the front, where the lane is copied. Returns the origin.
pub(crate) fn settle(cells: &mut [i32], shape: &LaneShape, state: LaneState) -> u64
    requires { Holds shape.now state.start cells.old }
    ensures begun { IsBegun shape.now.history shape.now.len result cells.new }
    ensures held { held shape.now (result - shape.now.history) cells.new ≡ held shape.now state.start cells.old }
{
    let shape = *shape;
    let history = u64::from(shape.history);
    if shape.history <= COPIED_HISTORY {
        let start = state.start as usize;
        cells.copy_within(start..start + history as usize, 0);
        history
    } else {
        state.start + history
    }
}

/// Where the next history lies, after `frames` frames.
pub(crate) fn advance(shape: &LaneShape, origin: u64, frames: u32) -> LaneState
    requires begun { HasOrigin shape.now.history shape.now.len origin }
    requires frames { frames ≤ shape.now.block }
    ensures copied { shape.now.history ≤ copied_history → result.start ≡ frames }
    ensures ring { copied_history < shape.now.history → Turned shape.now.len (origin - shape.now.history + frames) result.start }
{
    let lane = *shape;
    // The block's range is needed in the proof.
    let _block = lane.block;
    LaneState {
        start: shape.cell(origin - u64::from(shape.history) + u64::from(frames)),
    }
}
