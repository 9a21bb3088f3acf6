// The values of all signals, one time after another.

use fv_num::{Op, apply};
use fv_signal::{Graph, Signal, SignalId};
use std::alloc::{AllocError, Global};

/// What is heard: a number for each control, which it keeps, and samples, `width` in a frame, one frame after another.
#[derive(Clone, Copy)]
pub struct Sound<'a> {
    pub controls: &'a [i32],
    pub samples: &'a [i32],
    pub width: usize,
}

/// A number of a list, 0 where there is none.
pub fn number_at(list: &[i32], i: u64) -> i32 {
    match list.get(i as usize) {
        Some(n) => *n,
        None => 0,
    }
}

// The number of the definition of a member.
fn definition(graph: &Graph, group: u64, i: u64) -> u64 {
    if group >= graph.groups() {
        return 0;
    }
    match graph.group(group).get(i as usize) {
        Some(id) => id.number(),
        None => 0,
    }
}

// The value of an operation.
fn point(op: Op, args: [SignalId; 4], now: &[i32]) -> i32 {
    let a = number_at(now, args[0].number());
    let b = number_at(now, args[1].number());
    let c = number_at(now, args[2].number());
    let d = number_at(now, args[3].number());
    match op.inputs() {
        1 => apply(op, &[a]),
        2 => apply(op, &[a, b]),
        3 => apply(op, &[a, b, c]),
        4 => apply(op, &[a, b, c, d]),
        _ => 0,
    }
}

// The value of a signal as many samples earlier as d says, from 0 to the greatest.
fn delayed(x: u64, d: i32, max: u32, before: &[Vec<i32>], now: &[i32]) -> i32 {
    if d <= 0 {
        return number_at(now, x);
    }
    let back = d.cast_unsigned().min(max) as usize;
    if back == 0 {
        return number_at(now, x);
    }
    if back > before.len() {
        return 0;
    }
    match before.get(before.len() - back) {
        Some(values) => number_at(values, x),
        None => 0,
    }
}

// The numbers of a table, none where it is not there.
fn list_of(graph: &Graph, table: u64) -> &[i32] {
    if table < graph.tables() {
        graph.table(table)
    } else {
        &[]
    }
}

// The place that an index means in a list: its own, or the nearest one.
fn place(list: &[i32], index: i32) -> u64 {
    if index <= 0 || list.is_empty() {
        return 0;
    }
    u64::from(index.cast_unsigned()).min(list.len() as u64 - 1)
}

// What a written table has at the index that the third signal gives. At each time the second signal's number is written at the
// index that the first one gives. Where nothing was written, the table has its own number.
fn written(list: &[i32], signals: [u64; 3], before: &[Vec<i32>], now: &[i32]) -> i32 {
    let here = place(list, number_at(now, signals[2]));
    if place(list, number_at(now, signals[0])) == here {
        return number_at(now, signals[1]);
    }
    for values in before.iter().rev() {
        if place(list, number_at(values, signals[0])) == here {
            return number_at(values, signals[1]);
        }
    }
    number_at(list, here)
}

// The value of a signal, from the values before its time and those of the signals before it.
fn value(
    graph: &Graph,
    signal: Signal,
    controls: &[i32],
    frame: &[i32],
    before: &[Vec<i32>],
    now: &[i32],
) -> i32 {
    match signal {
        Signal::Input(k) => number_at(frame, k),
        Signal::Const(n) => n,
        Signal::Control(k) => number_at(controls, u64::from(k)),
        Signal::Point { op, args } => point(op, args, now),
        Signal::Delay { x, d, max } => {
            delayed(x.number(), number_at(now, d.number()), max, before, now)
        }
        Signal::Back { group, i } => match before.last() {
            Some(values) => number_at(values, definition(graph, group, i)),
            None => 0,
        },
        Signal::Member { group, i } => number_at(now, definition(graph, group, i)),
        Signal::Read { table, r } => {
            let list = list_of(graph, table);
            number_at(list, place(list, number_at(now, r.number())))
        }
        Signal::Write { table, w, x, r } => written(
            list_of(graph, table),
            [w.number(), x.number(), r.number()],
            before,
            now,
        ),
    }
}

// The values of all signals at one time.
fn values(
    alloc: Global,
    graph: &Graph,
    controls: &[i32],
    frame: &[i32],
    before: &[Vec<i32>],
) -> Result<Vec<i32>, AllocError> {
    let mut now = Vec::new(alloc);
    for s in 0..graph.len() {
        let signal = graph.signal(SignalId::new(s));
        now.push(value(graph, signal, controls, frame, before, &now))?;
    }
    Ok(now)
}

/// What the outputs of a graph give in `frames` frames, one after another. A sample that is not there is 0.
pub fn given(
    alloc: Global,
    graph: &Graph,
    sound: &Sound<'_>,
    frames: usize,
) -> Result<Vec<i32>, AllocError> {
    let mut before = Vec::new(alloc);
    let mut rest = sound.samples;
    let mut answer = Vec::new(alloc);
    for _ in 0..frames {
        let (frame, further) = rest.split_at(sound.width.min(rest.len()));
        rest = further;
        let now = values(alloc, graph, sound.controls, frame, &before)?;
        for id in graph.outputs() {
            answer.push(number_at(&now, id.number()))?;
        }
        before.push(now)?;
    }
    Ok(answer)
}
