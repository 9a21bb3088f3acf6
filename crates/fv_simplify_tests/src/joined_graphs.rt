// Graphs with feedback or tables.

use fv_compile::Job;
use fv_num::Op;
use std::alloc::Global;
use std::test::Fail;
use test_graphs::{Line, by_a_control, graph_of, graph_over};

/// The kinds of jobs that are joined.
#[derive(Clone, Copy)]
pub(crate) enum Kind {
    RunningSum,
    Crossed,
    Items(&'static [i32]),
    ByAControl,
}

/// A job of this kind.
pub(crate) fn job(alloc: Global, kind: Kind) -> Result<Job, Fail> {
    match kind {
        Kind::RunningSum => running_sum(alloc),
        Kind::Crossed => crossed(alloc),
        Kind::Items(table) => items(alloc, table),
        Kind::ByAControl => by_control(alloc),
    }
}

// `+ ~ _ : *(hslider(..))`: the running sum of the input, times the control.
fn running_sum(alloc: Global) -> Result<Job, Fail> {
    let lines = [
        Line::Input(0),
        Line::Back(0, 0),
        Line::Pair(Op::Add, 0, 1),
        Line::Member(0, 0),
        Line::Control(0),
        Line::Pair(Op::Mul, 3, 4),
    ];
    let graph = graph_of(alloc, &lines, &[&[2]], &[5])?;
    Ok(Job {
        graph,
        inputs: 1,
        controls: 1,
    })
}

/// Two members that read one another, two controls, of which it puts out the second, and a delay by one sample.
pub(crate) fn crossed(alloc: Global) -> Result<Job, Fail> {
    let lines = [
        Line::Input(0),
        Line::Input(1),
        Line::Back(0, 0),
        Line::Back(0, 1),
        Line::Pair(Op::Add, 0, 3),
        Line::Pair(Op::Sub, 1, 2),
        Line::Member(0, 0),
        Line::Member(0, 1),
        Line::Control(1),
        Line::Const(1),
        Line::Delay(7, 9, 1),
    ];
    let graph = graph_of(alloc, &lines, &[&[4, 5]], &[6, 10, 8])?;
    Ok(Job {
        graph,
        inputs: 2,
        controls: 2,
    })
}

// The input times the control.
fn by_control(alloc: Global) -> Result<Job, Fail> {
    let graph = by_a_control(alloc)?;
    Ok(Job {
        graph,
        inputs: 1,
        controls: 1,
    })
}

// The item of the table at the input, and the first item where the input is written at its own place.
fn items(alloc: Global, table: &[i32]) -> Result<Job, Fail> {
    let lines = [
        Line::Input(0),
        Line::Const(0),
        Line::Read(0, 0),
        Line::Write(0, 0, 0, 1),
    ];
    let graph = graph_over(alloc, &lines, &[], &[table], &[2, 3])?;
    Ok(Job {
        graph,
        inputs: 1,
        controls: 0,
    })
}
