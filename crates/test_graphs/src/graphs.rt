// Whole graphs.

use crate::table::{Line, graph_of};
use fv_num::Op;
use fv_signal::Graph;
use std::alloc::Global;
use std::test::Fail;

/// `_ <: _, mem : -`
pub fn difference(alloc: Global) -> Result<Graph, Fail> {
    let lines = [
        Line::Input(0),
        Line::Const(1),
        Line::Delay(0, 1, 1),
        Line::Pair(Op::Sub, 0, 2),
    ];
    graph_of(alloc, &lines, &[], &[3])
}

/// `_ : @(samples)`
pub fn delayed(alloc: Global, samples: u16) -> Result<Graph, Fail> {
    let lines = [
        Line::Input(0),
        Line::Const(i32::from(samples)),
        Line::Delay(0, 1, u32::from(samples)),
    ];
    graph_of(alloc, &lines, &[], &[2])
}

/// The input times a control.
pub fn by_a_control(alloc: Global) -> Result<Graph, Fail> {
    let lines = [Line::Input(0), Line::Control(0), Line::Pair(Op::Mul, 0, 1)];
    graph_of(alloc, &lines, &[], &[2])
}

/// The left channel with an echo of half of it after 11,025 samples, `+ ~ (@(11024) : *(128) : /(256))`, and the right channel.
pub fn echo_left(alloc: Global) -> Result<Graph, Fail> {
    let lines = [
        Line::Input(0),
        Line::Input(1),
        Line::Const(128),
        Line::Const(256),
        Line::Back(0, 0),
        Line::Const(11024),
        Line::Delay(4, 5, 11024),
        Line::Pair(Op::Mul, 6, 2),
        Line::Pair(Op::Div, 7, 3),
        Line::Pair(Op::Add, 8, 0),
        Line::Member(0, 0),
    ];
    graph_of(alloc, &lines, &[&[9]], &[10, 1])
}
