// Rows of programs.

use crate::cases::{Case, numbers_of, rendered, stepped};
use crate::plays::{Wanted, assert_answer, assert_plays};
use fv_engine_render::Ran;
use fv_num::Span;
use fv_outside::{FreeGate, Line, Reads, Recorder, Task};
use std::alloc::Global;
use std::marker::Sync;
use std::process::Abort;
use std::sync::Wait;
use std::test::Fail;
use std::thread::Threads;
use test_blocks::{Counter, block_of};

// An echo three frames later, half as loud each time.
const ECHO: Case = Case {
    program: "process = + ~ (@(2) : /(2));",
    script: "",
    input: &[80, 0, 0, -7, 3, 0, 0, 0, 12, 0, 0, 5, 0],
    frames: 13,
};

// A signal less its `mem`.
const DIFFERENCE: Case = Case {
    program: "process = _ <: _,mem : -;",
    script: "",
    input: &[5, 7, 4],
    frames: 3,
};

// A fader that moves within a block.
const FADER: Case = Case {
    program: "process = _ * hslider(\"gain\", 1, 0, 10, 1);",
    script: "2 gain 3\n3 gain 0\n",
    input: &[5, 5, 5, 5, 5],
    frames: 5,
};

// A clock and a noise, without an input.
const NOISE: Case = Case {
    program: "random = +(12345) ~ *(1103515245); clock = +(1) ~ _; process = random, clock, random - clock;",
    script: "",
    input: &[],
    frames: 700,
};

// A waveform, and another one that is read at a count.
const WAVES: Case = Case {
    program: "process = (waveform{1,-5,9} : !,_), (waveform{3,-1,4,2}, (+(3) ~ _) % 4 : rdtable);",
    script: "",
    input: &[],
    frames: 600,
};

// A table of the numbers 1 to 4 whose index is a control.
const CHOSEN: Case = Case {
    program: "process = _ * rdtable(4, (+(1) ~ _), hslider(\"which\", 1, -2, 9, 1));",
    script: "1 which 3\n4 which 9\n5 which -2\n",
    input: &[1, 2, 3, 4, 5, 6, 7],
    frames: 7,
};

// A list of five numbers that goes round: what is written comes back three frames later.
const LOOPER: Case = Case {
    program: "n = (+(1) : %(5)) ~ _; process = \\(x).(rwtable(5, -7, n, x, (n + 2) % 5));",
    script: "",
    input: &[1, 2, 3, 4, 5, 6, 7, 8, 9],
    frames: 9,
};

// Two tables of one list, in a loop, of which each has its own items.
const SUMS: Case = Case {
    program: "process = _ <: (+ ~ rwtable(2, 3, 0, _, 0)), (+ ~ rwtable(2, 3, 1, _, 0));",
    script: "",
    input: &[1, -2, 3, 9, 9, 9],
    frames: 6,
};

// Two delays in a row, which are one.
const DELAYS: Case = Case {
    program: "process = _ : @(2) : @(3);",
    script: "",
    input: &[1, 2, 3, 4, 5, 6, 7],
    frames: 7,
};

// A number two frames later.
const LATER: Case = Case {
    program: "process = 5 : mem : mem;",
    script: "",
    input: &[],
    frames: 3,
};

// A product that wraps before it is divided.
const WRAPPED: Case = Case {
    program: "process = 2147483647 * 2 / 2;",
    script: "",
    input: &[],
    frames: 1,
};

// How many frames a block and a vector have at most.
static SIZES: [(u32, u32); 5] = [(1, 1), (7, 7), (7, 3), (512, 32), (4096, 64)];

static CASES: [Case; 8] = [ECHO, DIFFERENCE, FADER, NOISE, WAVES, CHOSEN, LOOPER, SUMS];

#[test]
fn blocks_give_what_the_runner_gives(rt: HostRuntime) -> Result<(), Fail> {
    let alloc = rt.alloc();
    for case in &CASES {
        let samples = stepped(alloc, case)?;
        let wanted = Wanted {
            samples: samples.as_slice(),
            loops: None,
        };
        assert_plays(&rt, alloc, case, &SIZES, 1, wanted)?;
    }
    Ok(())
}

#[test]
fn an_echo(rt: HostRuntime) -> Result<(), Fail> {
    let answer = rendered(&rt, rt.alloc(), &ECHO, 7, 7, &mut FreeGate)?;
    let wanted = [80, 0, 0, 33, 3, 0, 16, 1, 12, 8, 0, 11, 4];
    let ran = Ran {
        blocks: 2,
        loops: 1,
        loop_runs: 2,
    };
    assert_answer(&rt, &answer, &wanted, ran);
    Ok(())
}

static SIMPLER: [(&Case, &[i32], u64); 3] = [
    (&DELAYS, &[0, 0, 0, 0, 0, 1, 2], 2),
    (&LATER, &[0, 0, 5], 2),
    (&WRAPPED, &[-1], 1),
];

// Loops are those of the simpler graph: of two delays in a row none for the first, and of numbers what they come to.
#[test]
fn graphs_are_simpler(rt: HostRuntime) -> Result<(), Fail> {
    for (case, samples, loops) in &SIMPLER {
        let wanted = Wanted {
            samples,
            loops: Some(*loops),
        };
        assert_plays(&rt, rt.alloc(), case, &SIZES, 1, wanted)?;
    }
    Ok(())
}

static TABLES: [(&Case, &[i32]); 3] = [
    (&CHOSEN, &[2, 8, 12, 16, 20, 6, 7]),
    (&LOOPER, &[-7, -7, -7, 1, 2, 3, 4, 5, 6]),
    (&SUMS, &[1, 4, -1, 1, 2, 6, 11, 12, 20, 12, 29, 12]),
];

// Of 5 numbers that were -7, and of sums whose table is read where it is written, and where it never is.
#[test]
fn tables_over_blocks(rt: HostRuntime) -> Result<(), Fail> {
    for (case, samples) in &TABLES {
        let wanted = Wanted {
            samples,
            loops: None,
        };
        assert_plays(&rt, rt.alloc(), case, &SIZES, 1, wanted)?;
    }
    Ok(())
}

// `blocks` blocks were told, each with one vector of one loop.
fn assert_blocks(rt: &impl Abort, recorder: &Recorder, blocks: u32) {
    assert_eq!(rt; recorder.calls(), Some(blocks));
    for i in 0..blocks {
        let Some((loops, vectors, _, _)) = block_of(recorder, i) else {
            panic!(rt; "no block");
        };
        assert_eq!(rt; (loops, vectors), (1, 1));
    }
}

// A change cuts a block: frames 0 and 1, frame 2, frames 3 and 4.
#[test]
fn changes_cut_blocks(rt: HostRuntime) -> Result<(), Fail> {
    let mut recorder = Recorder::new(rt.alloc(), 3, 100)?;
    let answer = rendered(&rt, rt.alloc(), &FADER, 4, 4, &mut recorder)?;
    let ran = Ran {
        blocks: 3,
        loops: 1,
        loop_runs: 3,
    };
    assert_answer(&rt, &answer, &[5, 5, 15, 0, 0], ran);
    assert_blocks(&rt, &recorder, 3);
    Ok(())
}

// The second loop reads the first.
static READS: [Reads; 1] = [Reads {
    reader: 1,
    source: 0,
}];

// The first loop has finished before the second starts.
static LINES: [Line; 2] = [
    Line {
        task: Task {
            loop_no: 0,
            vector: 0,
        },
        worker: 0,
        start: 0,
        finish: 1,
    },
    Line {
        task: Task {
            loop_no: 1,
            vector: 0,
        },
        worker: 0,
        start: 2,
        finish: 3,
    },
];

// One block was told, of two loops, of which the second ran after the first, which it reads.
fn assert_ordered(rt: &impl Abort, recorder: &Recorder) {
    assert_eq!(rt; recorder.calls(), Some(1));
    let Some((loops, vectors, reads, lines)) = block_of(recorder, 0) else {
        panic!(rt; "no block");
    };
    assert!(rt; loops == 2 && vectors == 1);
    assert_eq!(rt; reads, READS.as_slice());
    assert_eq!(rt; lines, LINES.as_slice());
}

#[test]
fn loops_run_after_what_they_read(rt: HostRuntime) -> Result<(), Fail> {
    let mut recorder = Recorder::new(rt.alloc(), 1, 2)?;
    let answer = rendered(&rt, rt.alloc(), &DIFFERENCE, 512, 32, &mut recorder)?;
    let ran = Ran {
        blocks: 1,
        loops: 2,
        loop_runs: 2,
    };
    assert_answer(&rt, &answer, &[5, 2, -3], ran);
    assert_ordered(&rt, &recorder);
    Ok(())
}

// Without room for the second line nothing is told.
#[test]
fn a_gate_without_room(rt: HostRuntime) -> Result<(), Fail> {
    let mut recorder = Recorder::new(rt.alloc(), 1, 1)?;
    let ran = rendered(&rt, rt.alloc(), &DIFFERENCE, 512, 32, &mut recorder)?.ran;
    assert!(rt; ran.blocks == 1 && recorder.calls().is_none());
    Ok(())
}

static COUNTED: [Case; 4] = [ECHO, DIFFERENCE, FADER, NOISE];

// How many runs of loops the gate saw, and how many were counted.
fn runs_of<R: Threads + Wait + Sync>(
    rt: &R,
    alloc: Global,
    case: &Case,
    block: u32,
    vector: u32,
) -> Result<(u128, u128), Fail> {
    let mut counter = Counter::new();
    let answer = rendered(rt, alloc, case, block, vector, &mut counter)?;
    Ok((u128::from(counter.tasks()), answer.ran.loop_runs))
}

// The gate sees each loop before it runs, as often as is counted.
#[test]
fn each_run_is_seen(rt: HostRuntime) -> Result<(), Fail> {
    for case in &COUNTED {
        for (block, vector) in &SIZES {
            let (seen, counted) = runs_of(&rt, rt.alloc(), case, *block, *vector)?;
            assert_eq!(rt; seen, counted);
        }
    }
    Ok(())
}

// Those of the slider and of the button.
fn assert_numbers(rt: &impl Abort, initial: &[i32], spans: &[Span]) {
    assert_eq!(rt; initial, [4, 0].as_slice());
    let wanted = [Span { lo: -3, hi: 10 }, Span { lo: 0, hi: 1 }];
    assert_eq!(rt; spans, wanted.as_slice());
}

// A slider begins where it says and stays between its bounds; a button is 0 or 1.
#[test]
fn numbers_of_controls(rt: HostRuntime) -> Result<(), Fail> {
    let text = "process = hslider(\"a\", 4, -3, 10, 1), button(\"b\");";
    let (initial, spans) = numbers_of(rt.alloc(), text)?;
    assert_numbers(&rt, &initial, &spans);
    Ok(())
}

// No frame, no block.
#[test]
fn no_frames(rt: HostRuntime) -> Result<(), Fail> {
    let case = Case {
        input: &[],
        frames: 0,
        ..ECHO
    };
    let answer = rendered(&rt, rt.alloc(), &case, 512, 32, &mut FreeGate)?;
    let ran = Ran {
        blocks: 0,
        loops: 0,
        loop_runs: 0,
    };
    assert_answer(&rt, &answer, &[], ran);
    Ok(())
}
