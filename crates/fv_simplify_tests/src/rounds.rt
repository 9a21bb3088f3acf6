// Graphs that need many rounds.

use fv_num::Op;
use fv_signal::Graph;
use fv_simplify::{find, fold, folds};
use std::alloc::{AllocError, Global};
use std::process::Abort;
use std::test::Fail;
use test_graphs::{Line, Sound, given, graph_of};

// A shift register of `cells` cells: each is the one before it a sample earlier and 1 more, and the first one has the input. After
// it come two running sums of the input, which are equal.
fn register(alloc: Global, cells: u64) -> Result<Graph, Fail> {
    let mut lines = Vec::from_slice(alloc, &[Line::Input(0), Line::Const(1)])?;
    let mut members = Vec::from_slice(alloc, &[0u64])?;
    for cell in 0..cells {
        let place = lines.len() as u64;
        lines.push(Line::Back(0, cell))?;
        lines.push(Line::Pair(Op::Add, place, 1))?;
        members.push(place.wrapping_add(1))?;
    }
    let place = lines.len() as u64;
    lines.extend_from_slice(&[
        Line::Back(1, 0),
        Line::Pair(Op::Add, place, 0),
        Line::Back(2, 0),
        Line::Pair(Op::Add, place.wrapping_add(2), 0),
    ])?;
    let last = place.wrapping_sub(1);
    let one = place.wrapping_add(1);
    let other = place.wrapping_add(3);
    graph_of(
        alloc,
        &lines,
        &[&members, &[one], &[other]],
        &[last, one, other],
    )
}

#[test]
fn a_long_register_stays(rt: HostRuntime) -> Result<(), Fail> {
    let alloc = rt.alloc();
    for cells in [1, 5, 63, 64, 65, 300] {
        let graph = register(alloc, cells)?;
        let images = find(alloc, &graph)?;
        assert!(rt; folds(&graph, &images), "{cells}");
        let folded = fold(alloc, &graph)?;
        let [last, one, other] = folded.outputs() else {
            return Err("three".into());
        };
        assert!(rt; one == other && last != one, "{cells}");
        let sound = Sound {
            controls: &[],
            samples: &[5, 7, -9, 100],
            width: 1,
        };
        assert!(rt;
            given(alloc, &folded, &sound, 8)? == given(alloc, &graph, &sound, 8)?,
            "{cells}"
        );
    }
    Ok(())
}

// `count` chains of `deep` counters each. A counter counts by the one before it, and the first ones by the input.
fn chains(alloc: Global, count: u64, deep: u64) -> Result<Vec<Line>, AllocError> {
    let mut lines = Vec::from_slice(alloc, &[Line::Input(0)])?;
    let mut group = 0u64;
    for _ in 0..count {
        let mut last = 0u64;
        for _ in 0..deep {
            let place = lines.len() as u64;
            lines.push(Line::Back(group, 0))?;
            lines.push(Line::Pair(Op::Add, place, last))?;
            last = place.wrapping_add(1);
            group = group.wrapping_add(1);
        }
    }
    Ok(lines)
}

// The graph of these chains, with the last counter for its output.
fn chained(alloc: Global, count: u64, deep: u64) -> Result<Graph, Fail> {
    let lines = chains(alloc, count, deep)?;
    let mut groups = Vec::new(alloc);
    for group in 0..count.wrapping_mul(deep) {
        groups.push([group.wrapping_mul(2).wrapping_add(2)])?;
    }
    let mut lists = Vec::new(alloc);
    for group in &groups {
        lists.push(group.as_slice())?;
    }
    let last = lines.len() as u64;
    graph_of(alloc, &lines, &lists, &[last.wrapping_sub(1)])
}

// The signal of the first chain that stands where this one stands in its own chain. Chains have `long` signals, and signal 0 is the
// input.
fn in_first(place: u64, long: u64) -> u64 {
    let Some(after) = place.checked_sub(1) else {
        return 0;
    };
    match after.checked_rem(long) {
        Some(within) => within.wrapping_add(1),
        None => 0,
    }
}

#[test]
fn chains_are_read_as_one(rt: HostRuntime) -> Result<(), Fail> {
    let alloc = rt.alloc();
    for (count, deep) in [(1, 2000), (2, 100), (40, 50), (500, 2)] {
        let graph = chained(alloc, count, deep)?;
        let images = find(alloc, &graph)?;
        assert!(rt; folds(&graph, &images), "{count} {deep}");
        for (place, image) in images.iter().enumerate() {
            let first = in_first(place as u64, deep.wrapping_mul(2));
            assert_eq!(rt; (count, deep, image.number()), (count, deep, first));
        }
    }
    Ok(())
}
