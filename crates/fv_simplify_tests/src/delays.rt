// Delays of delays.

use crate::outputs::first_by_number;
use fv_signal::{Graph, Signal};
use fv_simplify::{are_short, simplify};
use std::process::Abort;
use std::test::Fail;
use test_graphs::{Line, graph_of};

// A graph as a table. Of its first output, once it is simpler, by how many samples it is late, and whether that is of this signal.
type Row<'a> = (&'a [Line], &'a [u64], u32, Signal, bool);

const ROWS: [Row; 5] = [
    // Two in a row are one,
    (
        &[
            Line::Input(0),
            Line::Const(2),
            Line::Delay(0, 1, 2),
            Line::Const(3),
            Line::Delay(2, 3, 3),
        ],
        &[4],
        5,
        Signal::Input(0),
        true,
    ),
    // also where the first is an output, which is kept beside.
    (
        &[
            Line::Input(0),
            Line::Const(2),
            Line::Delay(0, 1, 2),
            Line::Const(3),
            Line::Delay(2, 3, 3),
        ],
        &[4, 2],
        5,
        Signal::Input(0),
        true,
    ),
    // One that another reads by a signal stays,
    (
        &[
            Line::Input(0),
            Line::Const(2),
            Line::Delay(0, 1, 2),
            Line::Const(3),
            Line::Delay(2, 3, 3),
            Line::Control(0),
            Line::Delay(2, 5, 4),
        ],
        &[4, 6],
        3,
        Signal::Input(0),
        false,
    ),
    // A delay stays where both together are over the limit.
    (
        &[
            Line::Input(0),
            Line::Const(8_388_609),
            Line::Delay(0, 1, 8_388_609),
            Line::Delay(2, 1, 8_388_609),
        ],
        &[3],
        8_388_609,
        Signal::Input(0),
        false,
    ),
    // A number is delayed.
    (
        &[
            Line::Const(5),
            Line::Const(1),
            Line::Delay(0, 1, 1),
            Line::Delay(2, 1, 1),
        ],
        &[3],
        2,
        Signal::Const(5),
        true,
    ),
];

// By how many samples the first output is late, and whether that is of this signal.
fn lateness(graph: &Graph, of: Signal) -> Option<(u32, bool)> {
    match first_by_number(graph) {
        Some((signal, by)) => Some((by, signal == of)),
        None => None,
    }
}

#[test]
fn delays_of_delays(rt: HostRuntime) -> Result<(), Fail> {
    for (lines, outputs, late, of, is_of) in ROWS {
        let graph = graph_of(rt.alloc(), lines, &[], outputs)?;
        assert!(rt; are_short(&graph));
        let simpler = simplify(rt.alloc(), &graph, &[])?;
        assert_eq!(rt;
            (lateness(&simpler, of), simpler.outputs().len()),
            (Some((late, is_of)), outputs.len())
        );
    }
    Ok(())
}

#[test]
fn a_long_delay_is_told(rt: HostRuntime) -> Result<(), Fail> {
    let lines = [
        Line::Input(0),
        Line::Control(0),
        Line::Delay(0, 1, 16_777_217),
    ];
    let graph = graph_of(rt.alloc(), &lines, &[], &[2])?;
    assert!(rt; !are_short(&graph));
    Ok(())
}
