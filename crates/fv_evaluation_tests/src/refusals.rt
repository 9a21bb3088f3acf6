// Programs that stand for no diagram.

use crate::rows::{Row, assert_answers};
use std::test::Fail;

static REFUSALS: [Row; 23] = [
    Row {
        text: "process = par(i,16385,_);",
        answer: "SizeBudget { size: 16385 }",
    },
    Row {
        text: "process = _,_ <: _,_,_;",
        answer: "Arity { kind: Split, left: 2, right: 3 }",
    },
    Row {
        text: "process = ! :> _;",
        answer: "Arity { kind: Merge, left: 0, right: 1 }",
    },
    Row {
        text: "process = _ : _,_;",
        answer: "Arity { kind: Seq, left: 1, right: 2 }",
    },
    Row {
        text: "process = _ ~ (_,_);",
        answer: "Arity { kind: RecOut, left: 1, right: 2 }",
    },
    Row {
        text: "process = 1 ~ _;",
        answer: "Arity { kind: RecIn, left: 0, right: 1 }",
    },
    Row {
        text: "process = x;",
        answer: "UnknownName x",
    },
    Row {
        text: "process = par(i,_,_);",
        answer: "NotANumber { line: 1, column: 17 }",
    },
    Row {
        text: "process = hslider(\"v\",1,_,2,3);",
        answer: "NotANumber { line: 1, column: 25 }",
    },
    Row {
        text: "process = par(i,0,_);",
        answer: "IterationCount { count: 0 }",
    },
    Row {
        text: "process = sum(i,1 - 3,_);",
        answer: "IterationCount { count: -2 }",
    },
    Row {
        text: "f(0) = 1; process = f(1);",
        answer: "NoRule { line: 1, column: 21 }",
    },
    Row {
        text: "process = case { (0) => 1; };",
        answer: "NotADiagram { line: 1, column: 11 }",
    },
    Row {
        text: "f(0) = 1; f(1) = 2; process = f;",
        answer: "NotADiagram { line: 1, column: 1 }",
    },
    Row {
        text: "process = (_,_ : +)(1,2,3);",
        answer: "TooManyArguments { given: 3, inputs: 2 }",
    },
    Row {
        text: "process = nentry(\"level\",2,1,5,1), nentry(\"level\",2,1,6,1);",
        answer: "ControlClash level",
    },
    Row {
        text: "process = button(\"g\"), checkbox(\"g\");",
        answer: "ControlClash g",
    },
    // One place of the text is evaluated again, with another control.
    Row {
        text: "f(x) = hslider(\"g\",x,0,10,1); process = f(1), f(2);",
        answer: "ControlClash g",
    },
    Row {
        text: "f(x) = hslider(\"g\",x,0,10,1); process = f(1), f(11);",
        answer: "ControlBounds g",
    },
    Row {
        text: "process = hslider(\"g\",11,0,10,1);",
        answer: "ControlBounds g",
    },
    // The bounds are looked at before the label, and the left part before the right one.
    Row {
        text: "process = button(\"g\"), hslider(\"g\",3,4,5,1);",
        answer: "ControlBounds g",
    },
    Row {
        text: "process = (_ : _,_), x;",
        answer: "Arity { kind: Seq, left: 1, right: 2 }",
    },
    // All arguments are turned before they are counted.
    Row {
        text: "process = +(1,2,3,case { (0) => 1; });",
        answer: "NotADiagram { line: 1, column: 19 }",
    },
];

#[test]
fn refusals(rt: HostRuntime) -> Result<(), Fail> {
    assert_answers(&rt, rt.alloc(), &REFUSALS)
}

// Visits are counted, of what never ends and of what only takes long.
static VISITS: [Row; 2] = [
    Row {
        text: "a = a; process = a;",
        answer: "EvalBudget",
    },
    Row {
        text: "process = par(i,2147483647,_);",
        answer: "EvalBudget",
    },
];

#[test]
fn visits_are_counted(rt: HostRuntime) -> Result<(), Fail> {
    assert_answers(&rt, rt.alloc(), &VISITS)
}
