// How many samples strips have at most.

use crate::blocks::{Went, both_ways, whole};
use crate::checks::Block;
use crate::random_codes::{ALL, given_of, pair_of};
use fv_loopcode::Step;
use fv_loopcode_machine::{Code, Scratch};
use fv_num::Op;
use std::alloc::{AllocError, Global};
use std::test::Fail;

// How long a run is: a strip of 128 samples, or several.
const COUNT: u64 = 128;

// How many lanes are a code's own: up to the one with the longest history.
const OWN: u64 = 6;

// How a code went, and how many samples its strips had: the last sample of the run is the last of its strip.
fn went_over(alloc: Global, steps: &[Step]) -> Result<(Went, u64), AllocError> {
    let Some(code) = Code::new(alloc, steps, ALL)? else {
        return Ok((Went::Refused, 0));
    };
    let mut pair = pair_of(alloc, 1, OWN, COUNT * 8, COUNT)?;
    let given = given_of(alloc, 1, COUNT)?;
    let mut scratch = Scratch::new(alloc, code.len())?;
    let block = Block {
        from: 0,
        count: COUNT,
    };
    let trial = both_ways(alloc, &code, &given, block, &mut scratch, &mut pair)?;
    let width = scratch.last + 1;
    Ok((whole(trial, &mut scratch), width))
}

// The input, and to it what it was or became some samples before.
fn echo(back: i32, value: u64) -> [Step; 5] {
    [
        Step::Number(back),
        Step::Input(0),
        Step::Load {
            lane: 5,
            back: 0,
            max: 150,
        },
        Step::Point {
            op: Op::Add,
            args: [1, 2, 2, 2],
        },
        Step::Append { lane: 5, value },
    ]
}

// How far echoes go back, and the width. In strips longer than that their steps would be a cycle, which goes sample by sample; but so
// they are in any strips where they go back less than 32 samples.
static ECHOES: [(i32, u64); 11] = [
    (1, 128),
    (31, 128),
    (32, 32),
    (39, 32),
    (63, 32),
    (64, 64),
    (76, 64),
    (113, 64),
    (127, 64),
    (128, 128),
    (150, 128),
];

#[test]
fn echoes_have_widths(rt: HostRuntime) -> Result<(), Fail> {
    for (back, width) in &ECHOES {
        // What comes back is heard again.
        let (went, was) = went_over(rt.alloc(), &echo(*back, 3))?;
        assert!(rt; went == Went::Alike && was == *width, "{back}: {was}");
        // The input alone comes back.
        let (went, was) = went_over(rt.alloc(), &echo(*back, 1))?;
        assert!(rt; went == Went::Alike && was == 128, "{back}, once: {was}");
    }
    Ok(())
}
