// What graphs of signals give, beside what their diagrams answer.

use fv_eval::Program;
use fv_interval::{spans, spans_of};
use fv_num::Op;
use fv_propagate::propagate;
use fv_signal::{Graph, Signal};
use std::alloc::{AllocError, Global};
use std::process::Abort;
use std::test::Fail;
use test_diagrams::{play, program_with_controls};
use test_graphs::Sound;

// The controls' numbers.
const CONTROLS: [i32; 2] = [3, -2];

// How many frames each diagram plays.
const FRAMES: usize = 12;

// What its inputs are, one frame after another.
static SAMPLES: [i32; 72] = [
    5,
    -1,
    7,
    0,
    3,
    2147483647,
    -2147483648,
    1,
    -7,
    100,
    8,
    -2,
    33,
    4,
    -5,
    6,
    12,
    -13,
    9,
    1000,
    -1000,
    2,
    65536,
    -65536,
    31,
    11,
    -3,
    0,
    1,
    14,
    -8,
    21,
    17,
    -19,
    250,
    -250,
    10,
    -9,
    77,
    3,
    1,
    0,
    5,
    5,
    -6,
    42,
    -42,
    13,
    1,
    2,
    3,
    4,
    -4,
    -3,
    -2,
    -1,
    512,
    -512,
    99,
    7,
    16,
    -16,
    2147483646,
    64,
    15,
    -15,
    27,
    18,
    -21,
    6,
    1,
    8,
];

// Expressions of at most six inputs.
static EXPRESSIONS: [&str; 33] = [
    "_ <: _ + 1, _ + 1 :> _",
    "+ ~ _",
    "_ <: _, mem : -",
    "_,1 : -",
    "_ / 0",
    "_,_ <: _,_,_,_ :> _,_",
    "_,_ <: _,_,_,_",
    "_,_,_,_,_,_ :> _,_",
    "(+,+) ~ (_,_)",
    "(+ ~ _) ~ (_,1 : +)",
    "7,_ : prefix",
    "_,10,20,30 : select3",
    "-2147483647 - 1 : _ <: /(-1), %(-1), abs",
    "-8 >> 33",
    "(attach : int), !",
    "(_, a : *), b",
    "\\(x).(_)",
    "+ ~ (_,2 : @ : _,128 : * : _,256 : /)",
    "_,3 : @",
    "_, (_,7 : &) : @",
    "_ : mem : mem",
    "prefix",
    "_ @ a, _ @ 2",
    "(+,_ : +) ~ _ ~ mem",
    "_, _, _ :> _",
    "waveform{10,-20,30}",
    "waveform{7}, _",
    "rdtable(4, (+(3) ~ _), _)",
    "waveform{2,0,1} : !,_ : rdtable(3, (waveform{100,200,300} : !,_))",
    "rdtable(waveform{5,7}, _) + rdtable(waveform{5,7}, mem)",
    "rwtable(3, 7, _, _, _)",
    "rwtable(2, 5, %(2), _, 1), rwtable(2, 5, _, a, 0)",
    "rwtable(4, 1, _, _, _) ~ %(4)",
];

// What a graph gives on these samples, `width` in a frame.
fn given(
    alloc: Global,
    graph: &Graph,
    samples: &[i32],
    width: usize,
    frames: usize,
) -> Result<Vec<i32>, AllocError> {
    let sound = Sound {
        controls: &CONTROLS,
        samples,
        width,
    };
    test_graphs::given(alloc, graph, &sound, frames)
}

// The graph of a program.
fn graph_of(alloc: Global, program: &Program) -> Result<Graph, Fail> {
    let bounds = spans_of(alloc, program.controls.as_slice())?;
    let Ok(delays) = spans(alloc, &program.diagrams, program.root, &bounds) else {
        return Err("refused".into());
    };
    Ok(propagate(alloc, &program.diagrams, program.root, &delays)?)
}

// The graph gives what the program's diagram answers.
fn assert_agrees(
    rt: &impl Abort,
    alloc: Global,
    program: &Program,
    graph: &Graph,
    expression: &str,
) -> Result<(), AllocError> {
    let width = program.diagrams.arity(program.root).inputs as usize;
    assert!(rt; program.controls.as_slice().len() <= CONTROLS.len() && width <= 6);
    let samples = &SAMPLES[..FRAMES * width];
    let want = play(
        alloc,
        &program.diagrams,
        program.root,
        &CONTROLS,
        samples,
        FRAMES,
    )?;
    let answer = given(alloc, graph, samples, width, FRAMES)?;
    assert!(rt; answer.as_slice() == want.as_slice(), "{expression}");
    Ok(())
}

// The graph of an expression, which gives what its diagram answers.
fn agrees(rt: &impl Abort, alloc: Global, expression: &str) -> Result<Graph, Fail> {
    let program = program_with_controls(alloc, expression)?;
    let graph = graph_of(alloc, &program)?;
    assert_agrees(rt, alloc, &program, &graph, expression)?;
    Ok(graph)
}

#[test]
fn graphs_give_what_diagrams_answer(rt: HostRuntime) -> Result<(), Fail> {
    for expression in &EXPRESSIONS {
        let graph = agrees(&rt, rt.alloc(), expression)?;
        assert!(rt; graph.len() > 0, "{expression}");
    }
    Ok(())
}

// Whether it is a sum of a signal and itself.
fn is_double(signal: Signal) -> bool {
    match signal {
        Signal::Point { op, args } => op == Op::Add && args[0].number() == args[1].number(),
        _ => false,
    }
}

// Equal signals are one: both operands of the sum have one number.
#[test]
fn equal_operands_are_shared(rt: HostRuntime) -> Result<(), Fail> {
    let alloc = rt.alloc();
    let graph = agrees(&rt, alloc, "_ <: _ + 1, _ + 1 :> _")?;
    let [sum] = graph.outputs() else {
        return Err("not one output".into());
    };
    assert!(rt; sum.number() < graph.len());
    assert!(rt; is_double(graph.signal(*sum)));
    assert!(rt; given(alloc, &graph, &[5], 1, 1)?.as_slice() == [12].as_slice());
    Ok(())
}
