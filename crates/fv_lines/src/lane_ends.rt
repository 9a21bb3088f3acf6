// All lanes as a block ends, or where it is given up.

ghost use Rattle.std.specs.Prelude.{◌≡◌, ◌++◌, length, All};
ghost use Rattle.std.specs.List.{flat_map};
ghost use base.Fml.{GName};
ghost use Rattle.fv_lines.specs.Writer.{content_of, written_by, frames_of};
ghost use Rattle.fv_lines.specs.Cut.{IsChain, HoldEnds, HoldStarts};

use crate::{LaneState, LaneWriter};
use fv_pool::Ended;

/// Ends the lanes, which are written whole, from the last one on. The states then name each lane's next history. `rest` is how the
/// loan of the cells ended that come after the lanes.
pub fn end_lanes<'a>(mut all: Vec<LaneWriter<'a>>, rest: Ended, states: &mut [LaneState]) -> Ended
    requires full { All (λ w. written_by w ≡ frames_of w) all.items }
    requires count { length states.old ≡ length all.items }
    requires chain { (γ : GName) × IsChain γ rest.name all.items }
    ensures name { (γ : GName) → IsChain γ rest.name all.entry.items → result.name ≡ γ }
    ensures last { result.last ≡ flat_map content_of all.entry.items ++ rest.last }
    ensures states { HoldEnds all.entry.items states.new }
{
    let mut ended = rest;
    while let Some(writer) = all.pop() {
        let (_seen, state, part, halves) = writer.close();
        states[all.len()] = state;
        ended = halves.end(part, ended);
    }
    ended
}

/// Ends the lanes, however much of them is written. The states then name the histories with which they began.
pub fn stop_lanes<'a>(mut all: Vec<LaneWriter<'a>>, rest: Ended, states: &mut [LaneState]) -> Ended
    requires count { length states.old ≡ length all.items }
    requires chain { (γ : GName) × IsChain γ rest.name all.items }
    ensures name { (γ : GName) → IsChain γ rest.name all.entry.items → result.name ≡ γ }
    ensures last { result.last ≡ flat_map content_of all.entry.items ++ rest.last }
    ensures states { HoldStarts all.entry.items states.new }
{
    let mut ended = rest;
    while let Some(writer) = all.pop() {
        let (begun, part, halves) = writer.stop();
        states[all.len()] = begun;
        ended = halves.end(part, ended);
    }
    ended
}
