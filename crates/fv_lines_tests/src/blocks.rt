// All lanes, for one worker, over several blocks.

ghost use Rattle.std.specs.Prelude.{◌<◌, ◌≤◌, IsTrue};
ghost use Rattle.fv_lines.specs.Solo.{IsHeld, AreLists, AreHeld, AreFramed, AreFull, IsSolo, lanes_of};

use fv_lines::{BegunLane, LaneShape, LaneState, Solo};
use fv_pool::{Layout, Region};
use std::process::Abort;
use std::test::Fail;

const FRAMES: u32 = 4;

// Whether the lists have one entry for each lane, and there is room for all parts.
fn are_lists(
    layout: &Layout,
    shapes: &[LaneShape],
    states: &[LaneState],
    begun: &[BegunLane],
    cells: &[i32],
) -> bool
    ensures { IsTrue result → AreLists layout.now shapes.now states.now begun.now cells.now }
{
    let lanes = layout.len();
    shapes.len() as u64 == lanes
        && states.len() as u64 == lanes
        && begun.len() as u64 == lanes
        && layout.total() <= cells.len() as u64
}

// Whether a lane's part has its length, and its state names a history there.
fn is_held(shape: LaneShape, state: LaneState, length: u64, frames: u32) -> bool
    ensures held { IsTrue result → IsHeld shape.history shape.len length state.start }
    ensures framed { IsTrue result → frames ≤ shape.block }
{
    let starts = if shape.history > 16 {
        state.start < shape.len
    } else {
        state.start <= shape.len && state.start + u64::from(shape.history) <= shape.len
    };
    starts && length == shape.len && frames <= shape.block
}

// Whether a block may begin.
fn may_begin(
    layout: &Layout,
    shapes: &[LaneShape],
    states: &[LaneState],
    begun: &[BegunLane],
    cells: &[i32],
    frames: u32,
) -> bool
    ensures lists { IsTrue result → AreLists layout.now shapes.now states.now begun.now cells.now }
    ensures held { IsTrue result → AreHeld layout.now shapes.now states.now }
    ensures framed { IsTrue result → AreFramed layout.now shapes.now frames }
{
    if !are_lists(layout, shapes, states, begun, cells) {
        return false;
    }
    for lane in 0..layout.len() {
        let i = lane as usize;
        if !is_held(shapes[i], states[i], layout.length(lane), frames) {
            return false;
        }
    }
    true
}

// Whether no lane takes one sample more.
fn are_full(solo: &Solo<'_, '_, '_, '_, '_>) -> bool
    requires { IsSolo solo.now }
    ensures { IsTrue result → AreFull (lanes_of solo.now) }
{
    for lane in 0..solo.len() {
        if solo.room(lane) > 0 {
            return false;
        }
    }
    true
}

// These samples, one for each lane in turn.
fn append_each(rt: &impl Abort, solo: &mut Solo<'_, '_, '_, '_, '_>, values: &[i32; 3])
    requires { IsSolo solo.old }
    ensures { IsSolo solo.new }
{
    for lane in 0..3 {
        assert!(rt; lane < solo.len() && solo.room(lane) > 0);
        solo.append(lane, values[lane as usize]);
    }
}

// The sample of a lane so far back.
fn at(rt: &impl Abort, solo: &Solo<'_, '_, '_, '_, '_>, lane: u64, index: u64, back: u64) -> i32
    requires solo { IsSolo solo.now }
    requires index { index < 4 }
{
    assert!(rt; lane < solo.len() && solo.has_sample(lane, index, back));
    solo.at(lane, index, back)
}

// As many samples of lane 0 as a block has, at once.
fn load_block(rt: &impl Abort, solo: &Solo<'_, '_, '_, '_, '_>, back: u64) -> [i32; FRAMES as usize]
    requires { IsSolo solo.now }
{
    let mut to = [-1; FRAMES as usize];
    assert!(rt; solo.len() == 1 && solo.has_sample(0, 0, back) && solo.has_sample(0, 3, back));
    solo.load_many(0, 0, back, &mut to);
    to
}

// The sample so far back of a lane to which 1, 2, 3, .. are appended, where `now` is the last one.
fn counted(now: i32, back: i32) -> i32 {
    now.saturating_sub(back).max(0)
}

// The samples of such a lane so far back of a block whose first one is `first`.
fn counted_block(first: i32, back: i32) -> [i32; FRAMES as usize] {
    let mut block = [0; FRAMES as usize];
    for i in 0..FRAMES {
        block[i as usize] = counted(first.saturating_add(i as i32), back);
    }
    block
}

// What three lanes show after the n-th sample of a block, which is `now` on the first lane.
fn assert_shown(rt: &impl Abort, solo: &Solo<'_, '_, '_, '_, '_>, n: u64, now: i32)
    requires solo { IsSolo solo.now }
    requires n { n < 4 }
{
    let seen = [
        at(rt, solo, 0, n, 0),
        at(rt, solo, 0, n, 2),
        at(rt, solo, 1, n, 0),
        at(rt, solo, 2, n, 0),
        at(rt, solo, 2, n, 17),
    ];
    let wanted = [
        now,
        counted(now, 2),
        7,
        0i32.saturating_sub(now),
        0i32.saturating_sub(counted(now, 17)),
    ];
    assert_eq!(rt; seen, wanted);
}

// A block, in which each lane is appended and looked back into as far as its history goes.
fn play(
    rt: &impl Abort,
    cells: &mut [i32],
    layout: &Layout,
    shapes: &[LaneShape],
    states: &mut [LaneState],
    begun: &mut [BegunLane],
    first: i32,
) {
    assert!(rt; may_begin(layout, shapes, states, begun, cells, FRAMES));
    let mut solo = Solo::begin(cells, layout, shapes, states, begun, FRAMES);
    for n in 0..u64::from(FRAMES) {
        let now = first.saturating_add(n as i32);
        append_each(rt, &mut solo, &[now, 7, 0i32.saturating_sub(now)]);
        assert_shown(rt, &solo, n, now);
    }
    assert!(rt; !solo.is_empty() && are_full(&solo));
    solo.finish();
}

#[test]
fn lanes_go_on_from_block_to_block(rt: HostRuntime) -> Result<(), Fail> {
    let shapes = [
        LaneShape::new(2, FRAMES),
        LaneShape::new(0, FRAMES),
        LaneShape::new(17, FRAMES),
    ];
    let layout = Layout::new(
        rt.alloc(),
        &[shapes[0].len(), shapes[1].len(), shapes[2].len()],
    )?;
    let mut states = [LaneState { start: 0 }; 3];
    let mut begun = [BegunLane::blank(); 3];
    let mut region = Region::new(rt.alloc(), layout.total())?;
    for first in [1, 5, 9, 13, 17, 21, 25, 29] {
        play(
            &rt,
            region.cells(),
            &layout,
            &shapes,
            &mut states,
            &mut begun,
            first,
        );
    }
    Ok(())
}

// What is loaded of a ring, a block at once.
fn assert_loaded(rt: &impl Abort, solo: &Solo<'_, '_, '_, '_, '_>, first: i32)
    requires { IsSolo solo.now }
{
    for back in [0u32, 1, 16, 17] {
        let wanted = counted_block(first, back as i32);
        assert_eq!(rt; load_block(rt, solo, u64::from(back)), wanted, "{first}");
    }
}

// A block of a ring, which is written and read at once, some samples before the end of its cells and the others after it.
fn play_at_once(
    rt: &impl Abort,
    cells: &mut [i32],
    layout: &Layout,
    shapes: &[LaneShape],
    states: &mut [LaneState],
    begun: &mut [BegunLane],
    first: i32,
) {
    assert!(rt; may_begin(layout, shapes, states, begun, cells, FRAMES));
    let mut solo = Solo::begin(cells, layout, shapes, states, begun, FRAMES);
    assert!(rt; solo.len() == 1 && solo.room(0) >= FRAMES);
    solo.append_many(0, &counted_block(first, 0));
    assert_loaded(rt, &solo, first);
    assert!(rt; are_full(&solo));
    solo.finish();
}

#[test]
fn many_samples_pass_the_end_of_a_ring(rt: HostRuntime) -> Result<(), Fail> {
    let shapes = [LaneShape::new(17, FRAMES)];
    let layout = Layout::new(rt.alloc(), &[shapes[0].len()])?;
    let mut states = [LaneState { start: 3 }];
    let mut begun = [BegunLane::blank()];
    let mut region = Region::new(rt.alloc(), layout.total())?;
    for first in [1, 5, 9, 13, 17, 21, 25, 29, 33] {
        play_at_once(
            &rt,
            region.cells(),
            &layout,
            &shapes,
            &mut states,
            &mut begun,
            first,
        );
    }
    Ok(())
}
