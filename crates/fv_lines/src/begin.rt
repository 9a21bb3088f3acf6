// All lanes as a block begins.

ghost use Rattle.std.specs.Prelude.{◌≡◌, ◌≤◌, [], length, vec_capacity};
ghost use Rattle.fv_pool.specs.Uncut.{left_of, loan_of};
ghost use Rattle.fv_lines.specs.Cut.{IsChain, MayBegin, AreBegun};

use crate::{LaneShape, LaneState, LaneWriter};
use fv_pool::Uncut;

/// Begins the lanes one after another, each over the next cells that are left.
pub fn begin_lanes<'a>(
    uncut: &mut Uncut<'a>,
    shapes: &[LaneShape],
    states: &[LaneState],
    frames: u32,
    all: &mut Vec<LaneWriter<'a>>,
)
    requires empty { all.old.items ≡ [] }
    requires room { length shapes.now ≤ vec_capacity all.old }
    requires may { MayBegin shapes.now states.now frames (left_of uncut.old) }
    ensures begun { AreBegun shapes.now states.now frames (left_of uncut.old) (length shapes.now) all.new.items }
    ensures chain { IsChain (loan_of uncut.old) (loan_of uncut.new) all.new.items }
    ensures room { vec_capacity all.new ≡ vec_capacity all.old }
{
    for i in 0..shapes.len() {
        let part = uncut.next(shapes[i].len() as usize);
        all.push_reserved(LaneWriter::begin(part, shapes[i], states[i], frames));
    }
}
