// Code on a table and cells, by samples and by strips.

ghost use Rattle.std.specs.Prelude.{◌≡◌, ◌⊎◌, ◌<◌, ◌*◌, [], length};
ghost use Rattle.fv_loopcode_machine.specs.Scratches.{IsNew, HasRoom as HasScratchRoom};
ghost use Rattle.fv_loops_tests.specs.Codes.{written_and_looked_up, written_again};
ghost use Rattle.fv_loops_tests.specs.Shelf.{HasRoom};

use crate::code_rows::{assert_are, code_of, shelf_of};
use crate::shelf::Shelf;
use crate::strips::{Sides, assert_same, sides_of, used};
use fv_loopcode::{Counts, Step};
use fv_loopcode_machine::{Code, Scratch};
use fv_num::Op;
use std::process::Abort;
use std::test::Fail;

// One of each.
const ONE: Counts = Counts {
    lanes: 1,
    tables: 1,
    cells: 1,
};

const WRITTEN_AND_LOOKED_UP: [Step; 5] = [
    Step::Input(0),
    Step::Input(1),
    Step::Input(2),
    Step::Write {
        cells: 0,
        args: [0, 1, 2],
    },
    Step::Read { table: 0, arg: 3 },
];

const WRITTEN_AGAIN: [Step; 9] = [
    Step::Input(0),
    Step::Input(1),
    Step::Input(2),
    Step::Number(1),
    Step::Load {
        lane: 0,
        back: 3,
        max: 1,
    },
    Step::Point {
        op: Op::Add,
        args: [1, 4, 4, 4],
    },
    Step::Write {
        cells: 0,
        args: [0, 5, 2],
    },
    Step::Append { lane: 0, value: 6 },
    Step::Read { table: 0, arg: 6 },
];

// Runs either code over `count` samples of three inputs.
fn by_samples(code: &Code, input: &[i32], count: u64, registers: &mut [i32], shelf: &mut Shelf)
    requires code { (code.now ≡ written_and_looked_up) ⊎ (code.now ≡ written_again) }
    requires registers { length registers.old ≡ length code.now }
    requires few { count < 1000 }
    requires input { length input.now ≡ count * 3 }
    requires room { HasRoom shelf.old count }
{
    fv_loopcode::run(code.steps(), &[], input, 3, 0, count, registers, shelf);
}

// Runs either code over `count` samples of three inputs, by strips.
fn by_strips(code: &Code, input: &[i32], count: u64, scratch: &mut Scratch, shelf: &mut Shelf)
    requires code { (code.now ≡ written_and_looked_up) ⊎ (code.now ≡ written_again) }
    requires scratch { IsNew (length code.now) scratch.old }
    requires few { count < 1000 }
    requires input { length input.now ≡ count * 3 }
    requires room { HasRoom shelf.old count }
    ensures { HasScratchRoom code.now scratch.new }
{
    fv_loopcode_machine::run(code, &[], input, 3, 0, count, scratch, shelf);
}

#[test]
fn what_is_written_is_read_at_once(rt: HostRuntime) -> Result<(), Fail> {
    let mut shelf = shelf_of(rt.alloc(), 3)?;
    let mut scratch = used(rt.alloc(), 5)?;
    let code = code_of(rt.alloc(), &WRITTEN_AND_LOOKED_UP, ONE)?;
    let input = [0, 1, 0, 1, 5, 0, 0, 9, 1];
    by_strips(&code, &input, 3, &mut scratch, &mut shelf);
    assert_are(&rt, "cells", &shelf.cells, &[9, 5]);
    assert_are(&rt, "registers", scratch.registers(), &[0, 9, 1, 5, 30]);
    drop(code);
    drop(scratch);
    drop(shelf);
    Ok(())
}

// Two strips and a part of a third.
const COUNT: u64 = 300;

// Runs the code both ways; the registers are those of the run by samples.
fn write_both(code: &Code, sides: &mut Sides) -> [i32; 9]
    requires code { code.now ≡ written_again }
    requires samples { HasRoom sides.old.samples 300 }
    requires strips { HasRoom sides.old.strips 300 }
    requires scratch { IsNew 9 sides.old.scratch }
    ensures { HasScratchRoom written_again sides.new.scratch }
{
    let mut input = [0; 900];
    for k in 0..input.len() {
        input[k] = (k as i32 * 37) % 5 - 1;
    }
    let mut registers = [0; 9];
    by_samples(code, &input, COUNT, &mut registers, &mut sides.samples);
    by_strips(code, &input, COUNT, &mut sides.scratch, &mut sides.strips);
    registers
}

#[test]
fn strips_write_as_samples_do(rt: HostRuntime) -> Result<(), Fail> {
    let mut sides = sides_of(rt.alloc(), COUNT, 9)?;
    let code = code_of(rt.alloc(), &WRITTEN_AGAIN, ONE)?;
    let registers = write_both(&code, &mut sides);
    assert_same(&rt, &mut sides, &registers);
    drop(code);
    drop(sides);
    Ok(())
}
