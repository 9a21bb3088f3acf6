// Callers of lanes that are lent to threads.

ghost use Rattle.std.specs.Prelude.{◌≡◌, ◌<◌, ◌++◌, [], ◌∷◌};
ghost use Rattle.fv_lines.specs.Lanes.{sample_at};
ghost use Rattle.fv_lines.specs.LanesBeside.{HasSample};
ghost use Rattle.fv_pool.specs.Layout.{HaveRoom};
ghost use Rattle.fv_pool.specs.Region.{cells_of};
ghost use Rattle.fv_lines.specs.Seen.{lane_seen};
ghost use Rattle.fv_lines.specs.Writer.{list_of, written_by, frames_of, lane_written};

use fv_lines::{LaneShape, LaneState, LaneWriter};
use fv_pool::{Layout, Region};
use std::thread::{Threads, join};

/// Appends a sample to a lane of the first part, and reads it in what was seen, before the region is cut anew.
pub fn seen_before_the_next_cut(region: &mut Region, layout: &Layout, shape: LaneShape) -> i32
    requires { HaveRoom layout.now (cells_of region.old) }
{
    let mut sample = 0;
    let mut cutter = region.cut(layout);
    if let Some(part) = cutter.next() {
        if part.len as u64 == shape.len() && shape.history == 0 {
            let mut writer = LaneWriter::begin(part, shape, LaneState { start: 0 }, 1);
            writer.append(7);
            let seen = writer.seen();
            sample = seen.at(0, 0);
        }
    }
    if region.has_room(layout) {
        let _again = region.cut(layout);
    }
    sample
}

/// One thread reads the first sample of a block in what was seen, while another writes the same lane further. That what
/// is read is the sample of the lane as it was seen is what the reading closure promises.
pub fn read_while_written<R: Threads + Sync>(rt: &R, writer: &mut LaneWriter<'_>, value: i32) -> i32
    requires room { written_by writer.old < frames_of writer.old }
    requires seen { HasSample (lane_written writer.old) 0 0 }
{
    let seen = writer.seen();
    let (sample, ()) = join(
        rt,
        move || -> i32
            requires { HasSample (lane_seen seen) 0 0 }
            ensures { result ≡ sample_at (lane_seen seen.entry) 0 0 }
        { seen.at(0, 0) },
        ||
            requires { written_by writer.now < frames_of writer.now }
        { writer.append(value) },
    );
    sample
}

fn appended<'a>(writer: LaneWriter<'a>, value: i32) -> LaneWriter<'a>
    requires { written_by writer < frames_of writer }
    ensures { list_of result ≡ list_of writer.entry ++ value ∷ [] }
{
    let mut writer = writer;
    writer.append(value);
    writer
}

/// Two threads, of which each takes a lane, append to it and hand it back.
pub fn append_side_by_side<'a, R: Threads + Sync>(
    rt: &R,
    first: LaneWriter<'a>,
    second: LaneWriter<'a>,
    value: i32,
) -> (LaneWriter<'a>, LaneWriter<'a>)
    requires room { (written_by first < frames_of first) × (written_by second < frames_of second) }
    ensures first { list_of result.0 ≡ list_of first.entry ++ value ∷ [] }
    ensures second { list_of result.1 ≡ list_of second.entry ++ value ∷ [] }
{
    join(
        rt,
        move || -> LaneWriter
            requires { written_by first < frames_of first }
            ensures { list_of result ≡ list_of first.entry ++ value ∷ [] }
        { appended(first, value) },
        move || -> LaneWriter
            requires { written_by second < frames_of second }
            ensures { list_of result ≡ list_of second.entry ++ value ∷ [] }
        { appended(second, value) },
    )
}
