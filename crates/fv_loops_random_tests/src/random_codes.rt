// Codes at random, by samples and by strips.

ghost use Rattle.std.specs.Prelude.{◌≡◌, ◌<◌, ◌≤◌, ◌*◌, ◌+◌, ◌^◌};
ghost use Rattle.fv_num.specs.headline.Words.{argument};
ghost use Rattle.fv_loopcode_machine.specs.Scratches.{Serves};

use crate::blocks::{Given, Pair, Went, both_ways, whole};
use crate::checks::Block;
use crate::maker::{LANES, LISTS, below, history, made, number};
use crate::shelves::{Items, Shelves, Track};
use fv_loopcode::{Counts, Step};
use fv_loopcode_machine::{Code, Scratch};
use fv_num::Op;
use rand_core::Rng;
use rand_pcg::Pcg32;
use std::alloc::{AllocError, Global};
use std::process::Abort;
use std::test::Fail;

// How many samples a block may have: parts of strips, strips, and more.
static LENGTHS: [u64; 14] = [1, 2, 7, 31, 32, 33, 50, 63, 64, 65, 127, 128, 129, 300];

pub(crate) const ALL: Counts = Counts {
    lanes: LANES,
    tables: LISTS,
    cells: LISTS,
};

// This many numbers.
fn numbers(alloc: Global, rng: &mut Pcg32, count: u64) -> Result<Vec<i32>, AllocError> {
    let mut numbers = Vec::new(alloc);
    for _i in 0..count {
        numbers.push(number(rng))?;
    }
    Ok(numbers)
}

// Fills them with numbers.
fn fill(rng: &mut Pcg32, to: &mut [i32]) {
    for x in to.iter_mut() {
        *x = number(rng);
    }
}

// A lane with its history, `total` samples too where the code does not append it, and room for `room` samples more.
fn track_of(
    alloc: Global,
    rng: &mut Pcg32,
    lane: u64,
    own: u64,
    room: u64,
    total: u64,
) -> Result<Track, AllocError>
    requires room { room < 2 ^ 32 }
    requires total { total ≤ 900 }
{
    let past = history(lane);
    let written = if lane < own { past } else { past + total };
    let mut samples = Vec::from_elem(alloc, 0, (written + room) as usize)?;
    fill(rng, &mut samples[..written as usize]);
    Ok(Track {
        samples,
        history: past as u32,
        written,
    })
}

// One to nine lists of numbers.
fn lists_of(alloc: Global, rng: &mut Pcg32) -> Result<Vec<Items>, AllocError> {
    let mut lists = Vec::new(alloc);
    for _k in 0..LISTS {
        let count = below(rng, 9).saturating_add(1);
        let numbers = numbers(alloc, rng, count)?;
        lists.push(Items { numbers })?;
    }
    Ok(lists)
}

// What a code runs over, up to `total` samples.
fn shelves_of(
    alloc: Global,
    seed: u64,
    own: u64,
    room: u64,
    total: u64,
) -> Result<Shelves, AllocError>
    requires room { room < 2 ^ 32 }
    requires total { total ≤ 900 }
{
    let mut rng = Pcg32::new(seed, 55);
    let mut lanes = Vec::new(alloc);
    for lane in 0..LANES {
        lanes.push(track_of(alloc, &mut rng, lane, own, room, total)?)?;
    }
    let tables = lists_of(alloc, &mut rng)?;
    let cells = lists_of(alloc, &mut rng)?;
    Ok(Shelves {
        lanes,
        tables,
        cells,
    })
}

// So it is for both ways.
pub(crate) fn pair_of(
    alloc: Global,
    seed: u64,
    own: u64,
    room: u64,
    total: u64,
) -> Result<Pair, AllocError>
    requires room { room < 2 ^ 32 }
    requires total { total ≤ 900 }
{
    Ok(Pair {
        samples: shelves_of(alloc, seed, own, room, total)?,
        strips: shelves_of(alloc, seed, own, room, total)?,
    })
}

// Two held values, and frames for `total` samples.
pub(crate) fn given_of(alloc: Global, seed: u64, total: u64) -> Result<Given, AllocError>
    requires { total ≤ 900 }
{
    let mut rng = Pcg32::new(seed, 56);
    let held = numbers(alloc, &mut rng, 2)?;
    let input = numbers(alloc, &mut rng, total * 2)?;
    Ok(Given { held, input })
}

// How many samples a block has, at most this many.
fn block_length(rng: &mut Pcg32, most: u64) -> u64
    ensures { result ≤ most }
{
    LENGTHS[(rng.next_u32() % 14) as usize].min(most)
}

// How three blocks of a code, of at most this many samples each, went, one after another: as the first one that did not go alike. And
// whether the code went by strips.
fn three_blocks(
    alloc: Global,
    code: &Code,
    given: &Given,
    seed: u64,
    most: u64,
    pair: &mut Pair,
) -> Result<(Went, bool), AllocError>
    requires { most ≤ 300 }
{
    let mut rng = Pcg32::new(seed, 57);
    let mut scratch = Scratch::new(alloc, code.len())?;
    let a = block_length(&mut rng, most);
    let b = block_length(&mut rng, most);
    let c = block_length(&mut rng, most);
    let block = Block { from: 0, count: a };
    let first = both_ways(alloc, code, given, block, &mut scratch, pair)?;
    let block = Block { from: a, count: b };
    let second = both_ways(alloc, code, given, block, &mut scratch, pair)?;
    let block = Block {
        from: a + b,
        count: c,
    };
    let third = both_ways(alloc, code, given, block, &mut scratch, pair)?;
    let by_strips = scratch.settled;
    let went = first.went.and(second.went);
    Ok((went.and(whole(third, &mut scratch)), by_strips))
}

// How a code went, and whether by strips.
fn code_went(
    alloc: Global,
    steps: &[Step],
    own: u64,
    seed: u64,
    most: u64,
) -> Result<(Went, bool), AllocError>
    requires { most ≤ 300 }
{
    let Some(code) = Code::new(alloc, steps, ALL)? else {
        return Ok((Went::Refused, false));
    };
    let room = (steps.len() as u64 % 65536) * most + most * 3;
    let mut pair = pair_of(alloc, seed, own, room, most * 3)?;
    let given = given_of(alloc, seed, most * 3)?;
    three_blocks(alloc, &code, &given, seed, most, &mut pair)
}

// Fails where the code of this number does not go alike. Returns whether it went by strips.
fn assert_alike(
    rt: &impl Abort,
    alloc: Global,
    seed: u64,
    count: u64,
    most: u64,
) -> Result<bool, AllocError>
    requires { most ≤ 300 }
{
    let maker = made(alloc, seed, count)?;
    let (went, by_strips) = code_went(alloc, &maker.steps, maker.own, seed, most)?;
    assert!(rt; went != Went::Refused, "code {seed} may not run");
    assert!(rt; went == Went::Alike, "code {seed} goes otherwise by strips");
    Ok(by_strips)
}

// How many codes are made.
const CODES: u64 = 10_000;

#[test]
fn random_codes_go_alike(rt: HostRuntime) -> Result<(), Fail> {
    let mut by_strips: u64 = 0;
    for seed in 0..CODES {
        if assert_alike(&rt, rt.alloc(), seed, 1 + seed % 40, 50)? {
            by_strips = by_strips.saturating_add(1);
        }
    }
    assert!(rt; by_strips > 9_900, "by strips: {by_strips}");
    Ok(())
}

// Blocks of several strips of 128 samples.
#[test]
fn long_blocks_go_alike(rt: HostRuntime) -> Result<(), Fail> {
    for seed in 0..1_000 {
        let _by_strips = assert_alike(&rt, rt.alloc(), seed, 1 + seed % 25, 300)?;
    }
    Ok(())
}

// Codes with more steps than groups are sought for.
#[test]
fn long_codes_go_alike(rt: HostRuntime) -> Result<(), Fail> {
    for seed in 0..5 {
        let by_strips = assert_alike(&rt, rt.alloc(), seed, 8_400, 50)?;
        assert!(rt; !by_strips, "code {seed}");
    }
    Ok(())
}

// Small codes: what they are called, how many lanes are their own, and their steps.
static ROWS: [(&str, u64, &[Step]); 6] = [
    (
        "one sample back",
        1,
        &[
            Step::Number(1),
            Step::Input(0),
            Step::Load {
                lane: 0,
                back: 0,
                max: 1,
            },
            Step::Point {
                op: Op::Add,
                args: [2, 1, 1, 1],
            },
            Step::Append { lane: 0, value: 3 },
        ],
    ),
    (
        "a delay shorter than a strip",
        3,
        &[
            Step::Number(7),
            Step::Input(0),
            Step::Load {
                lane: 2,
                back: 0,
                max: 7,
            },
            Step::Point {
                op: Op::Xor,
                args: [2, 1, 1, 1],
            },
            Step::Append { lane: 2, value: 3 },
        ],
    ),
    (
        "a table in a cycle",
        1,
        &[
            Step::Number(1),
            Step::Input(0),
            Step::Load {
                lane: 0,
                back: 0,
                max: 1,
            },
            Step::Point {
                op: Op::Add,
                args: [2, 1, 1, 1],
            },
            Step::Read { table: 0, arg: 3 },
            Step::Append { lane: 0, value: 4 },
        ],
    ),
    (
        "cells in a cycle",
        1,
        &[
            Step::Number(1),
            Step::Input(0),
            Step::Load {
                lane: 0,
                back: 0,
                max: 1,
            },
            Step::Write {
                cells: 0,
                args: [1, 2, 2],
            },
            Step::Point {
                op: Op::Sub,
                args: [3, 1, 1, 1],
            },
            Step::Append { lane: 0, value: 4 },
        ],
    ),
    (
        "appends after a cycle",
        3,
        &[
            Step::Number(1),
            Step::Input(0),
            Step::Load {
                lane: 0,
                back: 0,
                max: 1,
            },
            Step::Point {
                op: Op::Add,
                args: [2, 1, 1, 1],
            },
            Step::Append { lane: 0, value: 3 },
            Step::Point {
                op: Op::Mul,
                args: [3, 3, 3, 3],
            },
            Step::Append { lane: 1, value: 5 },
            Step::Append { lane: 2, value: 3 },
        ],
    ),
    (
        "loads before and after an append",
        2,
        &[
            Step::Number(1),
            Step::Input(0),
            Step::Load {
                lane: 1,
                back: 0,
                max: 2,
            },
            Step::Point {
                op: Op::Sub,
                args: [1, 2, 2, 2],
            },
            Step::Append { lane: 1, value: 3 },
            Step::Load {
                lane: 1,
                back: 3,
                max: 2,
            },
            Step::Append { lane: 0, value: 5 },
        ],
    ),
];

#[test]
fn small_codes_go_alike(rt: HostRuntime) -> Result<(), Fail> {
    for (name, own, steps) in &ROWS {
        for seed in 0..20 {
            let (went, by_strips) = code_went(rt.alloc(), steps, *own, seed, 300)?;
            assert!(rt; went == Went::Alike && by_strips, "{name}, {seed}");
        }
    }
    Ok(())
}
