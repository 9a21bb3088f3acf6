// The blocks of whole runs, as gates see them.

use crate::hostile::FIVE;
use fv_outside::{Gate, Line, Reads, Recorder, Task};
use fv_top::Tally;
use std::alloc::{AllocError, Global};
use std::process::Abort;
use std::sync::Wait;
use std::test::Fail;
use std::thread::Threads;
use test_blocks::{Counter, block_of};
use test_runs::{BLOCKS_OF_FOUR, GAIN, Played, assert_plays, desk_of, tally_of};

/// What is counted where nothing ran.
pub const NOTHING: Tally = Tally {
    frames: 0,
    blocks: 0,
    loops: 0,
    loop_runs: 0,
};

static CHANGES: Played = (
    &BLOCKS_OF_FOUR,
    GAIN,
    (1, &[5, 5, 5, 5, 5]),
    (1, &[5, 5, 15, 0, 0]),
    "done 5 frames\n",
);

// A program that is played under a gate is counted so.
fn assert_counts<G: Gate + Sync>(
    rt: &(impl Threads + Wait + Sync + Abort),
    alloc: Global,
    played: &Played<'_>,
    gate: &mut G,
    wanted: Tally,
) -> Result<(), Fail> {
    let tally = assert_plays(rt, alloc, played, gate)?;
    assert_eq!(rt; tally, wanted);
    Ok(())
}

// The loops and vectors of a block, and how many pairs and lines it has.
fn sizes_of(gate: &Recorder, block: u32) -> Option<(u64, u32, usize, usize)> {
    let (loops, vectors, reads, lines) = block_of(gate, block)?;
    Some((loops, vectors, reads.len(), lines.len()))
}

// A gate was told of the wanted number of blocks.
fn assert_calls(rt: &impl Abort, gate: &Recorder, wanted: Option<u32>) {
    assert_eq!(rt; gate.calls(), wanted);
}

// A gate was told of three blocks with a loop and a line each.
fn assert_three_blocks(rt: &impl Abort, gate: &Recorder) {
    assert_calls(rt, gate, Some(3));
    for block in 0..3 {
        assert_eq!(rt; sizes_of(gate, block), Some((1, 1, 0, 1)), "block {block}");
    }
}

// A gain that changes at frames 2 and 3, on five frames.
#[test]
fn tells_a_block_for_each_change(rt: HostRuntime) -> Result<(), Fail> {
    let mut gate = Recorder::new(rt.alloc(), 8, 64)?;
    let wanted = Tally {
        frames: 5,
        blocks: 3,
        loops: 1,
        loop_runs: 3,
    };
    assert_counts(&rt, rt.alloc(), &CHANGES, &mut gate, wanted)?;
    assert_three_blocks(&rt, &gate);
    Ok(())
}

// A line of the first vector of a loop, by the first worker.
fn line(loop_no: u64, start: u64, finish: u64) -> Line {
    Line {
        task: Task { loop_no, vector: 0 },
        worker: 0,
        start,
        finish,
    }
}

static DIFFERENCE: Played = (
    &["run", "p.dsp", "in.wav", "out.wav"],
    "process = _ <: _, mem : -;",
    (1, &[1, -2, 3]),
    (1, &[1, -3, 5]),
    "done 3 frames\n",
);

// A signal less its `mem` under a gate: two loops, of which the second reads the first.
fn play_difference(
    rt: &(impl Threads + Wait + Sync + Abort),
    alloc: Global,
    gate: &mut Recorder,
) -> Result<(), Fail> {
    let wanted = Tally {
        frames: 3,
        blocks: 1,
        loops: 2,
        loop_runs: 2,
    };
    assert_counts(rt, alloc, &DIFFERENCE, gate, wanted)
}

static PAIRS: [Reads; 1] = [Reads {
    reader: 1,
    source: 0,
}];

// A gate was told of its one block.
fn assert_one_block(rt: &impl Abort, gate: &Recorder) {
    assert_calls(rt, gate, Some(1));
    let lines = [line(0, 0, 1), line(1, 2, 3)];
    assert_eq!(rt;
        block_of(gate, 0),
        Some((2, 1, PAIRS.as_slice(), lines.as_slice()))
    );
}

#[test]
fn tells_which_loop_reads_which(rt: HostRuntime) -> Result<(), Fail> {
    let mut gate = Recorder::new(rt.alloc(), 1, 2)?;
    play_difference(&rt, rt.alloc(), &mut gate)?;
    assert_one_block(&rt, &gate);
    Ok(())
}

// A gate without room for both lines tells nothing any more.
#[test]
fn tells_nothing_without_room(rt: HostRuntime) -> Result<(), Fail> {
    let mut gate = Recorder::new(rt.alloc(), 1, 1)?;
    play_difference(&rt, rt.alloc(), &mut gate)?;
    assert_calls(&rt, &gate, None);
    Ok(())
}

// What is counted of a run over the gain and five frames, with these words.
fn tally_of_gain<G: Gate + Sync>(
    rt: &(impl Threads + Wait + Sync),
    alloc: Global,
    words: &[&str],
    gate: &mut G,
) -> Result<Option<Tally>, AllocError> {
    let mut desk = desk_of(alloc, GAIN.as_bytes(), &FIVE)?;
    tally_of(rt, alloc, &mut desk, words, gate)
}

static COUNTED: [(&[&str], u32, u64); 2] = [
    (&BLOCKS_OF_FOUR, 5, 3),
    (&["make", "5", "1000", "1"], 1000, 4),
];

#[test]
fn counts_what_runs(rt: HostRuntime) -> Result<(), Fail> {
    for (words, frames, blocks) in &COUNTED {
        let mut gate = Counter::new();
        let tally = tally_of_gain(&rt, rt.alloc(), words, &mut gate)?.unwrap_or(NOTHING);
        assert_eq!(rt;
            (tally.frames, tally.blocks, tally.loop_runs),
            (*frames, *blocks, u128::from(gate.tasks()))
        );
    }
    Ok(())
}

// What is only checked has no blocks.
#[test]
fn counts_nothing_of_a_check(rt: HostRuntime) -> Result<(), Fail> {
    let mut gate = Recorder::new(rt.alloc(), 1, 1)?;
    let tally = tally_of_gain(&rt, rt.alloc(), &["check", "p.dsp"], &mut gate)?;
    assert_calls(&rt, &gate, Some(0));
    assert!(rt; tally == Some(NOTHING), "{tally:?}");
    Ok(())
}
