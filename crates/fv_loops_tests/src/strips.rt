// Runs by strips, beside runs by samples.

ghost use Rattle.std.specs.Prelude.{◌≡◌, ◌<◌, ◌+◌, ◌*◌, [], length, IfOk};
ghost use Rattle.fv_loopcode_machine.specs.Scratches.{IsNew, HasRoom as HasScratchRoom};
ghost use Rattle.fv_loops_tests.specs.Shelf.{HasRoom};
ghost use Rattle.fv_loops_tests.specs.Codes.{running_sum};

use crate::code_rows::{ONE_LANE, SUM, assert_are, code_of, shelf_of, sum};
use crate::shelf::Shelf;
use fv_loopcode_machine::{Code, Scratch, run};
use std::alloc::{AllocError, Global};
use std::process::Abort;
use std::test::Fail;

/// Scratch for `steps` steps, whose rows hold what the codes do not look at.
pub(crate) fn used(alloc: Global, steps: u64) -> Result<Scratch, AllocError>
    requires { steps < 100 }
    ensures { IfOk result (λ s. IsNew steps s) }
{
    let regs = Vec::from_elem(alloc, 0, steps as usize)?;
    let rows = Vec::from_elem(alloc, -7, steps as usize * 128)?;
    Ok(Scratch {
        regs,
        rows,
        settled: false,
        in_rows: false,
        last: 0,
    })
}

/// What a code is run over by samples, and by strips.
#[derive(Drop)]
pub(crate) struct Sides {
    pub(crate) samples: Shelf,
    pub(crate) strips: Shelf,
    pub(crate) scratch: Scratch,
}

/// Room for `count` samples each, and scratch for `steps` steps.
pub(crate) fn sides_of(alloc: Global, count: u64, steps: u64) -> Result<Sides, AllocError>
    requires count { count < 1000 }
    requires steps { steps < 100 }
    ensures samples { IfOk result (λ s. HasRoom s.samples count) }
    ensures strips { IfOk result (λ s. HasRoom s.strips count) }
    ensures scratch { IfOk result (λ s. IsNew steps s.scratch) }
{
    let samples = shelf_of(alloc, count)?;
    let strips = shelf_of(alloc, count)?;
    let scratch = used(alloc, steps)?;
    Ok(Sides {
        samples,
        strips,
        scratch,
    })
}

/// Fails where strips left other samples, cells or registers than samples did.
pub(crate) fn assert_same(rt: &impl Abort, sides: &mut Sides, registers: &[i32])
    requires rows { length sides.old.scratch.rows.items ≡ length sides.old.scratch.regs.items * 128 }
    requires last { sides.old.scratch.last < 128 }
{
    assert_are(rt, "samples", &sides.strips.samples, &sides.samples.samples);
    assert_are(rt, "cells", &sides.strips.cells, &sides.samples.cells);
    assert_are(rt, "registers", sides.scratch.registers(), registers);
}

// Runs the running sum over `count` samples, by strips.
fn sum_by_strips(code: &Code, input: &[i32], count: u64, scratch: &mut Scratch, shelf: &mut Shelf)
    requires code { code.now ≡ running_sum }
    requires scratch { IsNew 7 scratch.old }
    requires few { count < 1000 }
    requires input { length input.now ≡ count }
    requires room { HasRoom shelf.old count }
    ensures { HasScratchRoom running_sum scratch.new }
{
    run(code, &[], input, 1, 0, count, scratch, shelf);
}

// Two strips and a part of a third.
const COUNT: u64 = 300;

// Runs the running sum both ways; the registers are those of the run by samples.
fn sum_both(code: &Code, sides: &mut Sides) -> [i32; 7]
    requires code { code.now ≡ running_sum }
    requires samples { HasRoom sides.old.samples 300 }
    requires strips { HasRoom sides.old.strips 300 }
    requires scratch { IsNew 7 sides.old.scratch }
    ensures { HasScratchRoom running_sum sides.new.scratch }
{
    let mut input = [0; 300];
    for k in 0..input.len() {
        input[k] = 1 << (k % 31);
    }
    let mut registers = [0; 7];
    sum(code, &input, COUNT, &mut registers, &mut sides.samples);
    sum_by_strips(code, &input, COUNT, &mut sides.scratch, &mut sides.strips);
    registers
}

#[test]
fn strips_are_samples(rt: HostRuntime) -> Result<(), Fail> {
    let mut sides = sides_of(rt.alloc(), COUNT, 7)?;
    let code = code_of(rt.alloc(), &SUM, ONE_LANE)?;
    let registers = sum_both(&code, &mut sides);
    assert_same(&rt, &mut sides, &registers);
    assert!(rt; sides.scratch.settled);
    drop(code);
    drop(sides);
    Ok(())
}
