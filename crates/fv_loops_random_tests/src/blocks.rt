// Blocks of any code that passes the test, by samples and by strips.

ghost use Rattle.std.specs.Prelude.{◌≡◌, ◌<◌, ◌≤◌, ◌+◌, ◌*◌, ◌^◌, length, IsTrue, IfOk, All};
ghost use Rattle.fv_num.specs.headline.Words.{argument};
ghost use Rattle.fv_loopcode.specs.Code.{IsWithin};
ghost use Rattle.fv_loopcode_machine.specs.Scratches.{Serves};
ghost use Rattle.fv_loops_random_tests.specs.Shelves.{state_on};
ghost use Rattle.fv_loops_random_tests.specs.MayGo.{MayGo};

use crate::checks::{Block, are_within, may_go};
use crate::shelves::{Items, Shelves, Track};
use fv_loopcode::Step;
use fv_loopcode_machine::{Code, Scratch};
use std::alloc::{AllocError, Global};

/// What a code reads beside lanes, tables and cells.
#[derive(Drop)]
pub struct Given {
    /// The held values.
    pub held: Vec<i32>,
    /// Frames of two numbers, one after another.
    pub input: Vec<i32>,
}

// Whether the code may run over these samples, as far as a test can see.
fn may_run(steps: &[Step], given: &Given, shelves: &Shelves, block: Block) -> bool
    requires small { block.from + block.count < 2 ^ 32 }
    ensures go { IsTrue result → MayGo steps.now (state_on shelves.now) block.from block.count }
    ensures within { IsTrue result → All (λ s. IsWithin (length given.now.held.items) 2 s) steps.now }
    ensures input { IsTrue result → (block.from + block.count) * 2 ≤ length given.now.input.items }
{
    steps.len() <= 65536
        && (block.from + block.count) * 2 <= given.input.len() as u64
        && are_within(steps, given.held.len() as u64, 2)
        && may_go(steps, shelves, block)
}

// Runs the code sample by sample, if it may run. Whether it ran.
fn by_samples(
    code: &Code,
    given: &Given,
    block: Block,
    registers: &mut [i32],
    shelves: &mut Shelves,
) -> bool
    requires small { block.from + block.count < 2 ^ 32 }
    requires registers { length registers.old ≡ length code.now }
{
    let steps = code.steps();
    if !may_run(steps, given, shelves, block) {
        return false;
    }
    fv_loopcode::run(
        steps,
        &given.held,
        &given.input,
        2,
        block.from,
        block.count,
        registers,
        shelves,
    );
    true
}

// Runs the code strip by strip, if it may run. Whether it ran.
fn by_strips(
    code: &Code,
    given: &Given,
    block: Block,
    scratch: &mut Scratch,
    shelves: &mut Shelves,
) -> bool
    requires small { block.from + block.count < 2 ^ 32 }
    requires serves { Serves code.now (argument given.now.held.items) scratch.old }
    ensures serves { Serves code.now (argument given.now.held.items) scratch.new }
{
    let steps = code.steps();
    if !may_run(steps, given, shelves, block) {
        return false;
    }
    fv_loopcode_machine::run(
        code,
        &given.held,
        &given.input,
        2,
        block.from,
        block.count,
        scratch,
        shelves,
    );
    true
}

/// What a code is run over by samples, and by strips.
#[derive(Drop)]
pub struct Pair {
    pub samples: Shelves,
    pub strips: Shelves,
}

// Whether both have the same numbers.
fn are_equal(one: &[i32], other: &[i32]) -> bool {
    one == other
}

// Whether both have the same lanes.
fn are_same_lanes(one: &[Track], other: &[Track]) -> bool {
    for k in 0..one.len() {
        match other.get(k) {
            Some(track) => {
                if one[k].written != track.written || !are_equal(&one[k].samples, &track.samples) {
                    return false;
                }
            }
            None => return false,
        }
    }
    true
}

// Whether both have the same lists.
fn are_same_lists(one: &[Items], other: &[Items]) -> bool {
    for k in 0..one.len() {
        match other.get(k) {
            Some(items) => {
                if !are_equal(&one[k].numbers, &items.numbers) {
                    return false;
                }
            }
            None => return false,
        }
    }
    true
}

/// How a code went both ways.
#[derive(Clone, Copy, PartialEq, Eq, Debug)]
pub enum Went {
    /// The code may not run.
    Refused,
    /// Strips left what samples left.
    Alike,
    /// They left something else.
    Otherwise,
}

impl Went {
    /// This, or the other where this is alike.
    pub fn and(self, other: Went) -> Went {
        match self {
            Went::Alike => other,
            _ => self,
        }
    }
}

/// How a block went both ways, and the registers that samples left.
#[derive(Drop)]
pub struct Trial {
    pub went: Went,
    pub registers: Vec<i32>,
}

/// Runs the code both ways over these samples, and compares lanes and cells.
pub fn both_ways(
    alloc: Global,
    code: &Code,
    given: &Given,
    block: Block,
    scratch: &mut Scratch,
    pair: &mut Pair,
) -> Result<Trial, AllocError>
    requires small { block.from + block.count < 2 ^ 32 }
    requires serves { Serves code.now (argument given.now.held.items) scratch.old }
    ensures serves { Serves code.now (argument given.now.held.items) scratch.new }
{
    let mut registers = Vec::from_elem(alloc, 0, code.len() as usize)?;
    let samples = by_samples(code, given, block, &mut registers, &mut pair.samples);
    let strips = by_strips(code, given, block, scratch, &mut pair.strips);
    let went = if !samples || !strips {
        Went::Refused
    } else if are_same_lanes(&pair.samples.lanes, &pair.strips.lanes)
        && are_same_lists(&pair.samples.cells, &pair.strips.cells)
    {
        Went::Alike
    } else {
        Went::Otherwise
    };
    Ok(Trial { went, registers })
}

/// Compares the registers, after the last block.
pub fn whole(last: Trial, scratch: &mut Scratch) -> Went
    requires rows { length scratch.old.rows.items ≡ length scratch.old.regs.items * 128 }
    requires last { scratch.old.last < 128 }
{
    let alike = are_equal(scratch.registers(), &last.registers);
    if alike {
        last.went
    } else {
        last.went.and(Went::Otherwise)
    }
}
