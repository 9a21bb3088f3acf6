// Graphs that are made at random, and simpler ones: the values are the same, and nothing can be made simpler.

use crate::random::{Numbers, random};
use crate::reducible::{RULES, reach, rules_met};
use fv_num::Span;
use fv_signal::Graph;
use fv_simplify::{are_short, simplify};
use std::alloc::{AllocError, Global};
use std::process::Abort;
use std::test::Fail;
use test_graphs::{Sound, given};

// How many frames are heard.
const FRAMES: usize = 24;

// The controls' spans.
const SPANS: [Span; 2] = [Span { lo: -4, hi: 4 }, Span { lo: 0, hi: 9 }];

// The simpler graph gives the same, nothing of it can be made simpler, and it reads back no farther.
fn assert_kept(
    rt: &impl Abort,
    alloc: Global,
    graph: &Graph,
    sound: &Sound<'_>,
    name: u32,
) -> Result<(), AllocError> {
    assert!(rt; are_short(graph));
    let simpler = simplify(alloc, graph, &SPANS)?;
    let is_same = given(alloc, &simpler, sound, FRAMES)? == given(alloc, graph, sound, FRAMES)?;
    let met = rules_met(alloc, &simpler)?;
    assert!(rt;
        is_same && met.is_empty() && reach(&simpler) <= reach(graph),
        "graph {name}"
    );
    Ok(())
}

// `count` samples from -1000 to 999.
fn noise(alloc: Global, numbers: &mut Numbers, count: usize) -> Result<Vec<i32>, AllocError> {
    let mut samples = Vec::new(alloc);
    for _ in 0..count {
        samples.push(numbers.below(2000) as i32 - 1000)?;
    }
    Ok(samples)
}

#[test]
fn graphs_made_at_random(rt: HostRuntime) -> Result<(), Fail> {
    let alloc = rt.alloc();
    let mut numbers = Numbers { last: 1 };
    let samples = noise(alloc, &mut numbers, 2 * FRAMES)?;
    let sound = Sound {
        controls: &[-3, 2],
        samples: &samples,
        width: 2,
    };
    let mut met = Vec::new(alloc);
    for _ in 0..300 {
        let name = numbers.last;
        let graph = random(alloc, &mut numbers)?;
        assert_kept(&rt, alloc, &graph, &sound, name)?;
        met.extend_from_slice(&rules_met(alloc, &graph)?)?;
    }
    for rule in &RULES {
        assert!(rt; met.contains(rule), "{rule:?}");
    }
    Ok(())
}
