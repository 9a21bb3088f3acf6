// Programs whose voices compute the same.

use fv_interval::{spans, spans_of};
use fv_propagate::propagate;
use fv_signal::{Graph, Signal, SignalId};
use fv_simplify::{are_short, find, fold, folds, simplify};
use std::alloc::Global;
use std::process::Abort;
use std::test::Fail;
use test_diagrams::program_of;
use test_graphs::{Sound, given};

// Definitions, and expressions of as many signals once they are simpler: the second one has what the first one has.
const ROWS: [(&str, &str, &str); 9] = [
    // Noise, four times.
    (
        "random = +(12345) ~ *(1103515245);",
        "random",
        "random, random, random, random",
    ),
    // A shift register with feedback.
    (
        "lfsr = (_ <: _ >> 1, (_ & 1) * 46080 : xor) ~ (+(1) : max(1));",
        "lfsr",
        "lfsr, lfsr, lfsr, lfsr",
    ),
    // Feedback in feedback,
    (
        "inner = + ~ (_ / 2); twice = (+ : inner) ~ (_ / 3);",
        "_ : twice",
        "_ <: twice, twice, (inner, twice : !, _)",
    ),
    // A chain of nine feedbacks in feedback.
    (
        "inner = + ~ (_ / 2); twice = (+ : inner) ~ (_ / 3); chain = seq(i, 9, twice);",
        "_ : chain",
        "_ <: chain, chain, chain",
    ),
    // Two members that read each other,
    (
        "pair = (+, -) ~ (_, _);",
        "_, _ : pair",
        "_, _ <: pair, pair",
    ),
    // Two members that read each other, and the two in another order.
    (
        "a(p, q, x) = p + q + x; b(p, q, y) = p - q * 3 + y;
         pair(p, q, x, y) = a(p, q, x), b(p, q, y); other(q, p, x, y) = b(p, q, y), a(p, q, x);",
        "_, _ : (pair ~ (_, _))",
        "_, _ <: (pair ~ (_, _)), (other ~ (_, _))",
    ),
    // A group that reads another.
    (
        "clock = +(1) ~ _; held = + ~ (_ / 2);",
        "clock : held",
        "(clock : held), (clock : held), (clock <: held, _ : _, !)",
    ),
    // Tables that are written at equal places with equal numbers.
    (
        "clock = +(1) ~ _; cell = (\\(y).(rwtable(4, 7, clock, y + 1, clock + 1))) ~ _;",
        "cell",
        "cell, cell, cell",
    ),
    // A number that is written in two ways.
    (
        "count(n) = +(n) ~ _;",
        "count(3)",
        "count(3), count(1 + 2), count(6 / 2)",
    ),
];

// The graph of a text.
fn graph_of(alloc: Global, definitions: &str, expression: &str) -> Result<Graph, Fail> {
    let text = format!(in alloc; "{definitions} process = {expression};")?;
    let program = program_of(alloc, text.as_str())?;
    let bounds = spans_of(alloc, program.controls.as_slice())?;
    let Ok(delays) = spans(alloc, &program.diagrams, program.root, &bounds) else {
        return Err("refused".into());
    };
    Ok(propagate(alloc, &program.diagrams, program.root, &delays)?)
}

// The simpler graph of one without controls.
fn simplified(alloc: Global, graph: &Graph) -> Result<Graph, Fail> {
    if !are_short(graph) {
        return Err("a delay is too long".into());
    }
    Ok(simplify(alloc, graph, &[])?)
}

// Eight frames of two numbers.
const SAMPLES: [i32; 16] = [5, -1, 7, 0, 3, 9, -2, 1, 4, 4, -100, 65536, 8, 3, 0, 1];

#[test]
fn equal_voices_are_one(rt: HostRuntime) -> Result<(), Fail> {
    let alloc = rt.alloc();
    let sound = Sound {
        controls: &[],
        samples: &SAMPLES,
        width: 2,
    };
    for (definitions, one, many) in &ROWS {
        let graph = graph_of(alloc, definitions, one)?;
        let simple = simplified(alloc, &graph)?;
        let graph = graph_of(alloc, definitions, many)?;
        let images = find(alloc, &graph)?;
        assert!(rt; folds(&graph, &images), "{many}");
        let folded = fold(alloc, &graph)?;
        let simpler = simplified(alloc, &graph)?;
        assert_eq!(rt; (many, simpler.len()), (many, simple.len()));
        let want = given(alloc, &graph, &sound, 8)?;
        assert!(rt; given(alloc, &folded, &sound, 8)? == want, "{many}");
        assert!(rt; given(alloc, &simpler, &sound, 8)? == want, "{many}");
    }
    Ok(())
}

// Definitions and three outputs, of which the first and the last are equal and the other one is not.
const OTHERS: [(&str, &str); 4] = [
    (
        "random(n) = +(n) ~ *(1103515245);",
        "random(1), random(2), random(1)",
    ),
    // They differ by an operation, by how late a delay is, and by the place at which a table is written.
    (
        "lower = - ~ (_ / 2); upper = + ~ (_ / 2);",
        "(9 : lower), (9 : upper), (9 : lower)",
    ),
    ("late(n) = (+(1) : @(n)) ~ _;", "late(1), late(2), late(1)"),
    (
        "clock = +(1) ~ _; cell(n) = (\\(y).(rwtable(4, 7, clock + n, y + 1, clock))) ~ _;",
        "cell(1), cell(2), cell(1)",
    ),
];

#[test]
fn other_voices_are_others(rt: HostRuntime) -> Result<(), Fail> {
    let alloc = rt.alloc();
    for (definitions, expression) in &OTHERS {
        let graph = graph_of(alloc, definitions, expression)?;
        let folded = fold(alloc, &graph)?;
        let [a, b, c] = folded.outputs() else {
            return Err("three".into());
        };
        assert!(rt; a == c && a != b, "{expression}");
    }
    Ok(())
}

// How many Backs a graph has.
fn backs(graph: &Graph) -> u64 {
    let mut count = 0u64;
    for place in 0..graph.len() {
        if let Signal::Back { .. } = graph.signal(SignalId::new(place)) {
            count = count.wrapping_add(1);
        }
    }
    count
}

// Sixteen voices that count by one clock.
#[test]
fn clocks_are_one(rt: HostRuntime) -> Result<(), Fail> {
    let alloc = rt.alloc();
    let clock = "clock = (+(1) ~ _) - 1;";
    let wave = "wave(step) = abs((clock * step) % 65536 - 32768) - 16384;";
    let definitions = format!(in alloc; "{clock} {wave} voice(i) = wave(901 + 7 * i) / 16;")?;
    let graph = graph_of(alloc, definitions.as_str(), "sum(i, 16, voice(i))")?;
    let simpler = simplified(alloc, &graph)?;
    assert_eq!(rt; (backs(&graph), backs(&simpler)), (16, 1));
    Ok(())
}
