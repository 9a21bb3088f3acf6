// Worked examples.

ghost use Rattle.std.specs.Prelude.{◌≡◌, ◌<◌, ◌+◌, [], length, IfOk};
ghost use Rattle.fv_loops_tests.specs.Shelf.{HasRoom};
ghost use Rattle.fv_loops_tests.specs.Codes.{running_sum, difference, scaled};

use crate::shelf::Shelf;
use fv_loopcode::{Counts, Step, are_valid, run};
use fv_loopcode_machine::Code;
use fv_num::Op;
use std::alloc::{AllocError, Global};
use std::process::Abort;
use std::test::Fail;

pub(crate) const SUM: [Step; 7] = [
    Step::Input(0),
    Step::Point {
        op: Op::Mul,
        args: [0, 0, 0, 0],
    },
    Step::Point {
        op: Op::Sub,
        args: [1, 0, 0, 0],
    },
    Step::Number(1),
    Step::Load {
        lane: 0,
        back: 3,
        max: 1,
    },
    Step::Point {
        op: Op::Add,
        args: [2, 4, 4, 4],
    },
    Step::Append { lane: 0, value: 5 },
];

const DIFFERENCE: [Step; 3] = [
    Step::Held(0),
    Step::Held(1),
    Step::Point {
        op: Op::Sub,
        args: [0, 1, 1, 1],
    },
];

const SCALED: [Step; 5] = [
    Step::Input(0),
    Step::Number(3),
    Step::Point {
        op: Op::Mul,
        args: [0, 1, 1, 1],
    },
    Step::Number(4),
    Step::Point {
        op: Op::Div,
        args: [2, 3, 3, 3],
    },
];

/// One lane, and no table and no cells.
pub(crate) const ONE_LANE: Counts = Counts {
    lanes: 1,
    tables: 0,
    cells: 0,
};

const NOTHING: Counts = Counts {
    lanes: 0,
    tables: 0,
    cells: 0,
};

// Steps that are no code over one lane.
static REFUSED: [(&str, &[Step]); 7] = [
    (
        "an operand that is no earlier step",
        &[Step::Append { lane: 0, value: 0 }],
    ),
    (
        "a lane that is not there",
        &[
            Step::Number(1),
            Step::Load {
                lane: 1,
                back: 0,
                max: 1,
            },
        ],
    ),
    (
        "a lane to append that is not there",
        &[Step::Number(1), Step::Append { lane: 1, value: 0 }],
    ),
    (
        "an operation on a later step",
        &[
            Step::Number(1),
            Step::Point {
                op: Op::Add,
                args: [0, 3, 0, 0],
            },
            Step::Number(2),
        ],
    ),
    (
        "a way back that is no earlier step",
        &[Step::Load {
            lane: 0,
            back: 1,
            max: 1,
        }],
    ),
    (
        "a table that is not there",
        &[Step::Number(1), Step::Read { table: 0, arg: 0 }],
    ),
    (
        "cells that are not there",
        &[
            Step::Number(1),
            Step::Write {
                cells: 0,
                args: [0, 0, 0],
            },
        ],
    ),
];

/// Room for `count` samples, a table of three items, and cells of two.
pub(crate) fn shelf_of(alloc: Global, count: u64) -> Result<Shelf, AllocError>
    requires { count < 1000 }
    ensures { IfOk result (λ s. HasRoom s count) }
{
    let samples = vec![in alloc; 0; count as usize + 1]?;
    let table = vec![in alloc; 10, 20, 30]?;
    let cells = vec![in alloc; 7, 8]?;
    Ok(Shelf {
        samples,
        history: 1,
        written: 1,
        table,
        cells,
    })
}

/// The code of these steps.
pub(crate) fn code_of(alloc: Global, steps: &[Step], counts: Counts) -> Result<Code, Fail>
    ensures { IfOk result (λ code. code ≡ steps.now) }
{
    match Code::new(alloc, steps, counts)? {
        Some(code) => Ok(code),
        None => Err("no code".into()),
    }
}

/// Fails where the numbers are others.
pub(crate) fn assert_are(rt: &impl Abort, name: &str, numbers: &[i32], wanted: &[i32]) {
    assert_eq!(rt; numbers, wanted, "{name}");
}

#[test]
fn code_reads_earlier_steps(rt: HostRuntime) -> Result<(), Fail> {
    for (name, steps) in &REFUSED {
        assert!(rt; !are_valid(steps, ONE_LANE), "{name}");
        let is_code = Code::new(rt.alloc(), steps, ONE_LANE)?.is_some();
        assert!(rt; !is_code, "{name}");
    }
    Ok(())
}

/// Runs the running sum over `count` samples, one after another.
pub(crate) fn sum(code: &Code, input: &[i32], count: u64, registers: &mut [i32], shelf: &mut Shelf)
    requires code { code.now ≡ running_sum }
    requires registers { length registers.old ≡ 7 }
    requires few { count < 1000 }
    requires input { length input.now ≡ count }
    requires room { HasRoom shelf.old count }
{
    run(code.steps(), &[], input, 1, 0, count, registers, shelf);
}

// Fails where they are not the steps of the code.
fn assert_has_steps(rt: &impl Abort, code: &Code, steps: &[Step]) {
    assert_eq!(rt; code.len(), steps.len() as u64);
    assert!(rt; !code.is_empty());
    assert_eq!(rt; code.steps(), steps);
}

#[test]
fn a_running_sum(rt: HostRuntime) -> Result<(), Fail> {
    let mut shelf = shelf_of(rt.alloc(), 3)?;
    let code = code_of(rt.alloc(), &SUM, ONE_LANE)?;
    assert_has_steps(&rt, &code, &SUM);
    let mut registers = [0; 7];
    sum(&code, &[5, 7, 4], 3, &mut registers, &mut shelf);
    assert_are(&rt, "samples", &shelf.samples, &[0, 20, 62, 74]);
    assert_are(&rt, "registers", &registers, &[4, 16, 12, 1, 62, 74, 74]);
    drop(code);
    drop(shelf);
    Ok(())
}

// Runs code that loads and appends nothing, over any shelf.
fn hold(code: &Code, held: &[i32], registers: &mut [i32], shelf: &mut Shelf)
    requires code { code.now ≡ difference }
    requires registers { length registers.old ≡ 3 }
    requires held { length held.now ≡ 2 }
{
    run(code.steps(), held, &[], 0, 0, 1, registers, shelf);
}

#[test]
fn held_values_are_registers(rt: HostRuntime) -> Result<(), Fail> {
    let mut shelf = shelf_of(rt.alloc(), 0)?;
    let code = code_of(rt.alloc(), &DIFFERENCE, NOTHING)?;
    let mut registers = [0; 3];
    hold(&code, &[7, 9], &mut registers, &mut shelf);
    assert_are(&rt, "registers", &registers, &[7, 9, -2]);
    assert_are(&rt, "samples", &shelf.samples, &[0]);
    drop(code);
    drop(shelf);
    Ok(())
}

// Runs three quarters of the input, over any shelf.
fn scale(code: &Code, input: &[i32], registers: &mut [i32], shelf: &mut Shelf)
    requires code { code.now ≡ scaled }
    requires registers { length registers.old ≡ 5 }
    requires input { length input.now ≡ 1 }
{
    run(code.steps(), &[], input, 1, 0, 1, registers, shelf);
}

#[test]
fn quotients_are_rounded_toward_zero(rt: HostRuntime) -> Result<(), Fail> {
    let mut shelf = shelf_of(rt.alloc(), 0)?;
    let code = code_of(rt.alloc(), &SCALED, NOTHING)?;
    let mut registers = [0; 5];
    scale(&code, &[-7], &mut registers, &mut shelf);
    assert_are(&rt, "of -7", &registers, &[-7, 3, -21, 4, -5]);
    scale(&code, &[7], &mut registers, &mut shelf);
    assert_are(&rt, "of 7", &registers, &[7, 3, 21, 4, 5]);
    drop(code);
    drop(shelf);
    Ok(())
}
