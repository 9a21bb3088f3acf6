// The gate in memory.

use fv_outside::{Gate, Line, Reads, Recorder, Task};
use std::test::Fail;

// A line of a task of loop 0.
fn line(start: u64, finish: u64) -> Line {
    Line {
        task: Task {
            loop_no: 0,
            vector: 0,
        },
        worker: 0,
        start,
        finish,
    }
}

#[test]
fn keeps_two_blocks(rt: HostRuntime) -> Result<(), Fail> {
    let mut gate = Recorder::new(rt.alloc(), 2, 3)?;
    let pair = Reads {
        reader: 1,
        source: 0,
    };
    let lines = [line(0, 1), line(2, 3)];
    gate.at(
        0,
        Task {
            loop_no: 0,
            vector: 0,
        },
    );
    gate.block_done(2, 1, &[pair], &lines);
    gate.block_done(1, 5, &[], &lines[..1]);
    let numbers = (gate.calls(), gate.loops(0), gate.vectors(1));
    assert_eq!(rt; numbers, (Some(2), 2, 5));
    let pairs = (gate.reads(0).len(), gate.reads(1).len());
    assert_eq!(rt; pairs, (1, 0));
    assert_eq!(rt; gate.lines(0), lines.as_slice());
    assert_eq!(rt; gate.lines(1), &lines[..1]);
    gate.block_done(1, 1, &[], &[]);
    assert_eq!(rt; gate.calls(), None, "a third block");
    Ok(())
}

#[test]
fn tells_nothing_without_room(rt: HostRuntime) -> Result<(), Fail> {
    let mut gate = Recorder::new(rt.alloc(), 9, 1)?;
    let first = gate.calls();
    gate.block_done(2, 1, &[], &[line(0, 1), line(2, 3)]);
    let second = gate.calls();
    gate.block_done(1, 1, &[], &[]);
    assert_eq!(rt; (first, second, gate.calls()), (Some(0), None, None));
    Ok(())
}
