// Shapes, and lanes that one writer has.

ghost use Rattle.std.specs.Prelude.{◌≡◌};
ghost use Rattle.fv_lines.specs.Writer.{written_by, frames_of};

use crate::caller::append_side_by_side;
use crate::parts::assert_cells;
use fv_lines::{LaneShape, LaneState, LaneWriter, Seen};
use fv_pool::{Layout, Part, Region, Uncut};
use std::marker::Sync;
use std::process::Abort;
use std::test::Fail;
use std::thread::Threads;

// A history, the frames of a block, and a lane's length.
static LENGTHS: [(u32, u32, u64); 5] = [
    (0, 4096, 4096),
    (16, 512, 528),
    (17, 512, 1024),
    (17, 15, 32),
    (1_048_575, 1, 1_048_576),
];

#[test]
fn lanes_have_these_lengths(rt: HostRuntime) {
    for (history, block, len) in &LENGTHS {
        assert!(rt; *block >= 1 && *history <= 1 << 30 && *block <= 1 << 30);
        assert_eq!(rt;
            LaneShape::new(*history, *block).len(),
            *len,
            "{history} {block}"
        );
    }
}

// A writer over a part, where the part has the lane's length and holds a short history from the start on.
fn begin<'a>(
    rt: &impl Abort,
    part: Option<Part<'a>>,
    shape: LaneShape,
    start: u64,
    frames: u32,
) -> LaneWriter<'a> {
    let part = part.expect(rt, "a part");
    assert!(rt; part.len as u64 == shape.len && frames <= shape.block && shape.history <= 16);
    assert!(rt; start < shape.len && start + u64::from(shape.history) <= shape.len);
    LaneWriter::begin(part, shape, LaneState { start }, frames)
}

// Begins a lane that is a ring.
fn begin_ring<'a>(
    rt: &impl Abort,
    part: Option<Part<'a>>,
    shape: LaneShape,
    start: u64,
    frames: u32,
) -> LaneWriter<'a>
    ensures { (written_by result ≡ 0) × (frames_of result ≡ frames) }
{
    let part = part.expect(rt, "a part");
    assert!(rt; part.len as u64 == shape.len && frames <= shape.block && shape.history > 16);
    assert!(rt; start < shape.len);
    LaneWriter::begin(part, shape, LaneState { start }, frames)
}

fn append(rt: &impl Abort, writer: &mut LaneWriter<'_>, value: i32) {
    assert!(rt; !writer.is_full());
    writer.append(value);
}

fn at(rt: &impl Abort, seen: &Seen<'_>, index: u32, back: u32) -> i32 {
    assert!(rt; seen.has_sample(index, back));
    seen.at(index, back)
}

// A lane of three samples without a history.
fn assert_seen(rt: &impl Abort, mut writer: LaneWriter<'_>) {
    append(rt, &mut writer, 7);
    append(rt, &mut writer, 8);
    let seen = writer.seen();
    append(rt, &mut writer, 9);
    assert!(rt; at(rt, &seen, 0, 0) == 7 && at(rt, &seen, 1, 0) == 8 && !seen.has_sample(2, 0));
    let seen = writer.seen();
    assert!(rt; at(rt, &seen, 2, 0) == 9 && at(rt, &seen, 2, 2) == 7 && writer.is_full());
}

#[test]
fn what_was_seen_stays(rt: HostRuntime) -> Result<(), Fail> {
    let layout = Layout::new(rt.alloc(), &[3])?;
    let mut region = Region::new(rt.alloc(), 3)?;
    assert!(rt; region.has_room(&layout));
    let mut cutter = region.cut(&layout);
    let writer = begin(&rt, cutter.next(), LaneShape::new(0, 3), 0, 3);
    assert_seen(&rt, writer);
    Ok(())
}

// A lane of five cells shows these samples before the first one.
fn assert_history(
    rt: &impl Abort,
    region: &mut Region,
    layout: &Layout,
    shape: LaneShape,
    start: u64,
) {
    assert!(rt; region.has_room(layout));
    let mut cutter = region.cut(layout);
    let seen = begin(rt, cutter.next(), shape, start, 2).seen();
    assert_eq!(rt;
        [
            at(rt, &seen, 0, 3),
            at(rt, &seen, 0, 2),
            at(rt, &seen, 0, 1)
        ],
        [4, 5, 6]
    );
}

#[test]
fn a_history_begins_again(rt: HostRuntime) -> Result<(), Fail> {
    let shape = LaneShape::new(3, 2);
    let layout = Layout::new(rt.alloc(), &[5])?;
    let mut region = Region::new(rt.alloc(), 5)?;
    region.cells().copy_from_slice(&[9, 9, 4, 5, 6]);
    assert_history(&rt, &mut region, &layout, shape, 2);
    let begun = shape.begun(LaneState { start: 2 });
    assert_history(&rt, &mut region, &layout, shape, begun.start);
    Ok(())
}

// The lane has this sample, and ends where it stands.
fn assert_stops(rt: &impl Abort, writer: LaneWriter<'_>) {
    let seen = writer.seen();
    assert!(rt; seen.has_sample(0, 0));
    let sample = seen.sample(0, 0);
    let (state, _ended, _outer) = writer.stop();
    assert_eq!(rt; (sample, state.start), (8, 0));
}

// Two lanes of five cells each get a sample side by side, and end.
fn append_and_stop<R: Abort + Threads + Sync>(rt: &R, cells: &mut [i32]) {
    let shape = LaneShape::new(2, 3);
    let mut uncut = Uncut::of(cells);
    assert!(rt; uncut.len() == 10);
    let first = begin(rt, Some(uncut.next(5)), shape, 3, 3);
    let second = begin(rt, Some(uncut.next(5)), shape, 3, 3);
    assert!(rt; uncut.is_empty() && !first.is_full() && !second.is_full());
    let (first, second) = append_side_by_side(rt, first, second, 8);
    assert_stops(rt, first);
    assert_stops(rt, second);
}

#[test]
fn lanes_end_where_they_stand(rt: HostRuntime) -> Result<(), Fail> {
    let mut region = Region::new(rt.alloc(), 10)?;
    region
        .cells()
        .copy_from_slice(&[9, 9, 9, 4, 5, 9, 9, 9, 6, 7]);
    append_and_stop(&rt, region.cells());
    assert_cells(&rt, &mut region, &[4, 5, 8, 4, 5, 6, 7, 8, 6, 7]);
    Ok(())
}

// Four samples of a lane, at once.
fn four_samples(rt: &impl Abort, seen: &Seen<'_>, back: u32) -> [i32; 4] {
    let mut to = [-1; 4];
    assert!(rt; seen.has_sample(0, back) && seen.has_sample(3, back));
    seen.samples(0, u64::from(back), &mut to);
    to
}

// How far back four samples are looked for, and what they are.
static PIECES: [(u32, [i32; 4]); 4] = [
    (0, [18, 19, 20, 21]),
    (1, [17, 18, 19, 20]),
    (4, [14, 15, 16, 17]),
    (17, [1, 2, 3, 4]),
];

fn assert_pieces(rt: &impl Abort, seen: &Seen<'_>) {
    for (back, wanted) in &PIECES {
        assert_eq!(rt; four_samples(rt, seen, *back), *wanted, "{back}");
    }
}

// The history of 17 samples begins at the 14th of 32 cells, so two samples lie before the end of the cells and two at their beginning.
#[test]
fn many_samples_lie_in_two_pieces(rt: HostRuntime) -> Result<(), Fail> {
    let layout = Layout::new(rt.alloc(), &[32])?;
    let mut region = Region::new(rt.alloc(), 32)?;
    region.cells().copy_from_slice(&[
        0, 0, 0, 0, 0, 0, 0, 0, 0, 0, 0, 0, 0, 1, 2, 3, 4, 5, 6, 7, 8, 9, 10, 11, 12, 13, 14, 15,
        16, 17, 0, 0,
    ]);
    assert!(rt; region.has_room(&layout));
    let mut cutter = region.cut(&layout);
    let mut writer = begin_ring(&rt, cutter.next(), LaneShape::new(17, 4), 13, 4);
    writer.append_many(&[18, 19, 20, 21]);
    assert!(rt; writer.is_full());
    assert_pieces(&rt, &writer.seen());
    Ok(())
}
