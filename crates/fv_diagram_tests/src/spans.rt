// The delays of diagrams, and which of them are refused.

use fv_interval::{DelayRefusal, Delays, spans, spans_of};
use std::alloc::Global;
use std::process::Abort;
use std::test::Fail;
use test_diagrams::program_with_controls;

// An expression, and its delays or their refusal.
struct Row {
    expression: &'static str,
    want: Result<&'static [u32], DelayRefusal>,
}

static ROWS: [Row; 16] = [
    Row {
        expression: "@",
        want: Err(DelayRefusal::DelayNegative { least: i32::MIN }),
    },
    Row {
        expression: "_,1048575 : @",
        want: Ok(&[1048575]),
    },
    Row {
        expression: "_,1048576 : @",
        want: Err(DelayRefusal::DelayTooLong { greatest: 1048576 }),
    },
    Row {
        expression: "(_,1048576 : @),@",
        want: Err(DelayRefusal::DelayTooLong { greatest: 1048576 }),
    },
    Row {
        expression: "@,(_,1048576 : @)",
        want: Err(DelayRefusal::DelayNegative { least: i32::MIN }),
    },
    Row {
        expression: "(mem,_ : +) ~ (_,3 : @)",
        want: Ok(&[1, 3, 1]),
    },
    Row {
        expression: "prefix : mem",
        want: Ok(&[1, 1]),
    },
    Row {
        expression: "_,a : @",
        want: Ok(&[10]),
    },
    Row {
        expression: "_,b : @",
        want: Err(DelayRefusal::DelayNegative { least: i32::MIN }),
    },
    Row {
        expression: "_,(a,a,a :> _) : @",
        want: Ok(&[30]),
    },
    Row {
        expression: "_,(a,a : /) : @",
        want: Err(DelayRefusal::DelayNegative { least: -10 }),
    },
    Row {
        expression: "_,((0,a : -),3 : %) : @",
        want: Err(DelayRefusal::DelayNegative { least: -2 }),
    },
    Row {
        expression: "_,(a,33 : <<) : @",
        want: Ok(&[20]),
    },
    Row {
        expression: "_,(a,0 : |) : @",
        want: Ok(&[15]),
    },
    Row {
        expression: "_,(0,0 : |) : @",
        want: Ok(&[0]),
    },
    Row {
        expression: "_,(-2147483647 - 1 : abs) : @",
        want: Err(DelayRefusal::DelayNegative { least: i32::MIN }),
    },
];

// The delays of an expression.
fn delays_of(alloc: Global, expression: &str) -> Result<Result<Delays, DelayRefusal>, Fail> {
    let program = program_with_controls(alloc, expression)?;
    let bounds = spans_of(alloc, program.controls.as_slice())?;
    Ok(spans(alloc, &program.diagrams, program.root, &bounds))
}

// Compares delays with those that are wanted.
fn assert_delays(rt: &impl Abort, delays: &Delays, want: &[u32], name: &str) {
    assert!(rt; delays.len() == want.len() as u64, "{name}");
    assert!(rt; delays.is_empty() == want.is_empty(), "{name}");
    let mut sum = 0;
    for i in 0..want.len() {
        assert!(rt; (i as u64) < delays.len());
        assert!(rt; delays.get(i as u64) == want[i], "{name}");
        assert!(rt; sum < 1_000_000_000);
        sum += u64::from(want[i]);
    }
    assert!(rt; delays.sum() == sum, "{name}");
}

/// Compares delays or their refusal with what is wanted.
pub fn assert_found(
    rt: &impl Abort,
    found: &Result<Delays, DelayRefusal>,
    want: Result<&[u32], DelayRefusal>,
    name: &str,
) {
    match (found, want) {
        (Ok(delays), Ok(want)) => assert_delays(rt, delays, want, name),
        (Err(refusal), Err(want)) => assert!(rt; *refusal == want, "{name}"),
        (Ok(_), Err(_)) => panic!(rt; "{name} is not refused"),
        (Err(_), Ok(_)) => panic!(rt; "{name} is refused"),
    }
}

// Each expression has its delays, or its refusal.
fn assert_rows(rt: &impl Abort, alloc: Global, rows: &[Row]) -> Result<(), Fail> {
    for row in rows {
        let found = delays_of(alloc, row.expression)?;
        assert_found(rt, &found, row.want, row.expression);
    }
    Ok(())
}

#[test]
fn delays_are_listed_or_refused(rt: HostRuntime) -> Result<(), Fail> {
    assert_rows(&rt, rt.alloc(), &ROWS)
}

// Sixteen delays of the greatest length, 16777200 in all, are within the budget, and seventeen are not.
static BUDGETS: [Row; 2] = [
    Row {
        expression: "par(i, 16, _ @ 1048575)",
        want: Ok(&[1048575; 16]),
    },
    Row {
        expression: "par(i, 17, _ @ 1048575)",
        want: Err(DelayRefusal::DelayBudget { sum: 17825775 }),
    },
];

#[test]
fn budgets(rt: HostRuntime) -> Result<(), Fail> {
    assert_rows(&rt, rt.alloc(), &BUDGETS)
}
