// Programs with waveforms and tables.

use crate::cases::Case;
use crate::plays::{Wanted, assert_plays};
use std::alloc::Global;
use std::marker::Sync;
use std::process::Abort;
use std::sync::Wait;
use std::test::Fail;
use std::thread::Threads;

/// A program, its input, how many frames, and what it gives.
type Row = (&'static str, &'static [i32], u32, &'static [i32]);

// How many frames a block and a vector have at most.
static SIZES: [(u32, u32); 2] = [(1, 1), (512, 32)];

// Each program gives its samples, whatever the sizes and however many workers.
fn assert_all_sound<R: Abort + Threads + Wait + Sync>(
    rt: &R,
    alloc: Global,
    rows: &[Row],
) -> Result<(), Fail> {
    for (program, input, frames, samples) in rows {
        let case = Case {
            program,
            script: "",
            input,
            frames: *frames,
        };
        let wanted = Wanted {
            samples,
            loops: None,
        };
        for workers in [1, 2] {
            assert_plays(rt, alloc, &case, &SIZES, workers, wanted)?;
        }
    }
    Ok(())
}

static READ: [Row; 6] = [
    (
        "process = rdtable(4, (+(1) ~ _), _);",
        &[0, 3, 9, -5],
        4,
        &[1, 4, 4, 1],
    ),
    (
        "process = waveform{10,-20,30}, _ : rdtable;",
        &[0, 1, 2, 3, -1],
        5,
        &[10, -20, 30, 30, 10],
    ),
    ("process = waveform{5,6};", &[], 3, &[2, 5, 2, 6, 2, 5]),
    // One item, at the ends of what an index may be.
    (
        "process = waveform{9}, _ : rdtable;",
        &[0, 2147483647, -2147483648],
        3,
        &[9, 9, 9],
    ),
    // An item that never changes, which no loop computes.
    (
        "process = _ * (waveform{4,-5,6}, 1 : rdtable);",
        &[1, -2, 3],
        3,
        &[-5, 10, -15],
    ),
    // Many items.
    (
        "process = rdtable(100000, (+(1) ~ _), _);",
        &[99999, 100000, 0, 99998],
        4,
        &[100000, 100000, 1, 99999],
    ),
];

#[test]
fn tables_that_are_read(rt: HostRuntime) -> Result<(), Fail> {
    assert_all_sound(&rt, rt.alloc(), &READ)
}

static WRITTEN: [Row; 5] = [
    (
        "process = rwtable(2,7,_,_,_);",
        &[0, 1, 0, 1, 5, 0, 0, 9, 1],
        3,
        &[1, 1, 5],
    ),
    ("process = + ~ rwtable(2,3,1,_,0);", &[1, 2], 2, &[4, 5]),
    // One item, wherever it is written and read.
    (
        "process = rwtable(1,7,_,_,_);",
        &[-9, 1, 9, 2147483647, 2, -1, 0, 3, 0],
        3,
        &[1, 2, 3],
    ),
    // Two tables of one list, of which the first is written at its first place and the second at its second one.
    (
        "process = _ <: rwtable(2,7,0,_,1), rwtable(2,7,1,_,1);",
        &[1, -2],
        2,
        &[7, 1, 7, -2],
    ),
    // A table that is both: what is read of it stays what it was.
    (
        "list = waveform{7,8}; process = \\(x).((list, 0 : rdtable), (list, 0, x, 0 : rwtable));",
        &[1, -2],
        2,
        &[7, 1, 7, -2],
    ),
];

#[test]
fn tables_that_are_written(rt: HostRuntime) -> Result<(), Fail> {
    assert_all_sound(&rt, rt.alloc(), &WRITTEN)
}
