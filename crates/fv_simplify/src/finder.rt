// Which signals may be equal.

use crate::read::{image_of, read};
use fv_signal::{Graph, Signal, SignalId};
use indexmap::IndexSet;
use std::alloc::{AllocError, Global};

/// How many rounds are tried at least.
const FEWEST_ROUNDS: u64 = 64;

/// How many signals all rounds together may read, where that is more rounds than the fewest. It bounds the work, and lets graphs
/// of up to some 2,000 signals have as many rounds as they can need.
const MOST_READINGS: u64 = 8_388_608;

/// For each signal the first one that may be equal, by partition refinement: signals that read the same are one class. In the first
/// round all definitions count as one, and in each later one as what the round before says, until nothing changes. An operand is read
/// by the same round, so a chain of feedbacks takes few rounds; only a difference that goes from Back to Back takes one for each.
/// Classes that still fall apart after half of the rounds are given up, so that the others are found in any case.
pub fn find(alloc: Global, graph: &Graph) -> Result<Vec<SignalId>, AllocError> {
    let count = graph.len() as usize;
    let rounds = most_rounds(graph.len());
    let mut alone = vec![in alloc; false; count]?;
    let mut named = vec![in alloc; SignalId::new(0); count]?;
    for number in 0..rounds {
        let images = round(alloc, graph, &named, &alone)?;
        if images == named {
            break;
        }
        if number > rounds / 2 {
            leave(alloc, graph, &named, &images, &mut alone)?;
        }
        named = images;
    }
    Ok(named)
}

// How many rounds a graph of `signals` signals may have.
fn most_rounds(signals: u64) -> u64 {
    match MOST_READINGS.checked_div(signals) {
        Some(rounds) => rounds.max(FEWEST_ROUNDS),
        None => FEWEST_ROUNDS,
    }
}

// One round: for each signal the first one that reads the same, where these signals are read for definitions. A Back that is left
// alone stands for itself.
fn round(
    alloc: Global,
    graph: &Graph,
    named: &[SignalId],
    alone: &[bool],
) -> Result<Vec<SignalId>, AllocError> {
    let mut readings = IndexSet::new(alloc);
    let mut firsts = Vec::new(alloc);
    let mut images = Vec::with_capacity(alloc, graph.len() as usize)?;
    for place in 0..graph.len() {
        let s = SignalId::new(place);
        let image = if is_in(alone, s) {
            s
        } else {
            let reading = read(graph, &images, named, s);
            first(&mut readings, &mut firsts, reading, s)?
        };
        images.push(image)?;
    }
    Ok(images)
}

// The first signal with this reading, which is s where none before it has it. The place of each reading is that of its first signal.
fn first(
    readings: &mut IndexSet<Signal>,
    firsts: &mut Vec<SignalId>,
    reading: Signal,
    s: SignalId,
) -> Result<SignalId, AllocError> {
    let (place, is_new) = readings.insert_full(reading)?;
    if is_new {
        firsts.push(s)?;
    }
    Ok(match firsts.get(place) {
        Some(first) => *first,
        None => s,
    })
}

// Leaves alone each Back of a class that fell apart in this round.
fn leave(
    alloc: Global,
    graph: &Graph,
    before: &[SignalId],
    now: &[SignalId],
    alone: &mut [bool],
) -> Result<(), AllocError> {
    let mut apart = vec![in alloc; false; graph.len() as usize]?;
    for (old, new) in before.iter().zip(now) {
        if old != new {
            set(&mut apart, *old);
        }
    }
    for place in 0..graph.len() {
        let s = SignalId::new(place);
        if let Signal::Back { .. } = graph.signal(s) {
            if is_in(&apart, image_of(before, s)) {
                set(alone, s);
            }
        }
    }
    Ok(())
}

// Whether a signal is in a set.
fn is_in(set: &[bool], s: SignalId) -> bool {
    match set.get(s.number() as usize) {
        Some(mark) => *mark,
        None => false,
    }
}

// Puts a signal that is there into a set.
fn set(set: &mut [bool], s: SignalId) {
    let place = s.number() as usize;
    if place < set.len() {
        set[place] = true;
    }
}
