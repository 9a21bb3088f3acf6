// Parts of lengths 2, 0 and 3 in a region of five cells, and parts that two threads write.

use fv_pool::{Cutter, Layout, Part, Region, Uncut};
use std::marker::Sync;
use std::process::Abort;
use std::test::Fail;
use std::thread::{Threads, join};

// The cells of the next part.
fn next<'a>(rt: &impl Abort, cutter: &mut Cutter<'a>) -> &'a mut [i32] {
    match cutter.next() {
        Some(part) => part.into_slice(),
        None => panic!(rt; "no part"),
    }
}

// A part, its length and its place.
static PLACES: [(u64, u64, u64); 3] = [(0, 2, 0), (1, 0, 2), (2, 3, 2)];

fn assert_places(rt: &impl Abort, layout: &Layout) {
    assert!(rt; layout.len() == 3 && !layout.is_empty() && layout.total() == 5);
    for (i, length, place) in &PLACES {
        assert!(rt; *i < layout.len());
        assert_eq!(rt;
            (layout.length(*i), layout.place(*i)),
            (*length, *place),
            "part {i}"
        );
    }
}

#[test]
fn parts_have_places(rt: HostRuntime) -> Result<(), Fail> {
    let layout = Layout::new(rt.alloc(), &[2, 0, 3])?;
    assert_places(&rt, &layout);
    Ok(())
}

// Writes 1, 2, .. into the parts, the last one first.
fn write_parts(rt: &impl Abort, region: &mut Region, layout: &Layout) {
    assert!(rt; region.has_room(layout));
    let mut cutter = region.cut(layout);
    let first = next(rt, &mut cutter);
    let second = next(rt, &mut cutter);
    let third = next(rt, &mut cutter);
    assert!(rt;
        first.len() == 2 && second.is_empty() && third.len() == 3 && cutter.next().is_none()
    );
    third.copy_from_slice(&[3, 4, 5]);
    first.copy_from_slice(&[1, 2]);
}

/// The region has these cells.
pub(crate) fn assert_cells(rt: &impl Abort, region: &mut Region, wanted: &[i32]) {
    assert_eq!(rt; &*region.cells(), wanted);
}

// They hold these numbers.
fn assert_parts(rt: &impl Abort, region: &mut Region, layout: &Layout, parts: [&[i32]; 3]) {
    assert!(rt; region.has_room(layout));
    let mut cutter = region.cut(layout);
    for part in parts {
        assert_eq!(rt; &*next(rt, &mut cutter), part);
    }
}

#[test]
fn parts_lie_one_after_another(rt: HostRuntime) -> Result<(), Fail> {
    let layout = Layout::new(rt.alloc(), &[2, 0, 3])?;
    let mut region = Region::new(rt.alloc(), 5)?;
    assert!(rt; region.len() == 5 && !region.is_empty());
    write_parts(&rt, &mut region, &layout);
    assert_cells(&rt, &mut region, &[1, 2, 3, 4, 5]);
    assert_parts(&rt, &mut region, &layout, [&[1, 2], &[], &[3, 4, 5]]);
    Ok(())
}

#[test]
fn parts_that_find_no_room(rt: HostRuntime) -> Result<(), Fail> {
    let layout = Layout::new(rt.alloc(), &[2, 4])?;
    let region = Region::new(rt.alloc(), 5)?;
    assert!(rt; !region.has_room(&layout));
    Ok(())
}

// Fills a part.
fn fill(part: Part<'_>, value: i32) {
    for cell in part.into_slice() {
        *cell = value;
    }
}

// Two threads fill two parts of two cells each, and one cell is left.
fn fill_by_threads<R: Abort + Threads + Sync>(rt: &R, cells: &mut [i32]) {
    let mut uncut = Uncut::of(cells);
    assert!(rt; uncut.len() == 5 && !uncut.is_empty());
    let first = uncut.next(2);
    let second = uncut.next(2);
    let ((), ()) = join(rt, move || fill(first, 7), move || fill(second, 8));
    let (left, _ended) = uncut.end();
    assert_eq!(rt; left, [0].as_slice());
}

#[test]
fn threads_write_parts(rt: HostRuntime) -> Result<(), Fail> {
    let mut region = Region::new(rt.alloc(), 5)?;
    fill_by_threads(&rt, region.cells());
    assert_cells(&rt, &mut region, &[7, 7, 8, 8, 0]);
    Ok(())
}
