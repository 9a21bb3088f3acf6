// A graph that is made and read.

ghost use Rattle.std.specs.Prelude.{◌≡◌, IfOk};
ghost use Rattle.fv_signal_tests.specs.Sum.{running_sum};

use fv_num::Op;
use fv_signal::{Graph, Signal, SignalId};
use std::alloc::{AllocError, Global};
use std::process::Abort;
use std::test::Fail;

// The graph of a running sum.
fn sum(alloc: Global) -> Result<Graph, AllocError>
    ensures { IfOk result (λ g. g ≡ running_sum) }
{
    let input = SignalId::new(0);
    let last = SignalId::new(1);
    let signals = Vec::from_array(
        alloc,
        [
            Signal::Input(0),
            Signal::Back { group: 0, i: 0 },
            Signal::Point {
                op: Op::Add,
                args: [last, input, input, input],
            },
            Signal::Member { group: 0, i: 0 },
        ],
    )?;
    let sum = SignalId::new(2);
    let output = SignalId::new(3);
    let mut groups = Vec::new(alloc);
    groups.push(Vec::from_array(alloc, [sum])?)?;
    let outputs = Vec::from_array(alloc, [output])?;
    let graph = Graph::new(signals, groups, Vec::new(alloc), outputs);
    Ok(graph)
}

#[test]
fn a_graph_is_read(rt: HostRuntime) -> Result<(), Fail> {
    let graph = sum(rt.alloc())?;
    assert!(rt; graph.len() == 4 && graph.groups() == 1 && !graph.is_empty());
    assert!(rt;
        graph.signal(SignalId::new(0)) == Signal::Input(0),
        "the first"
    );
    let member = Signal::Member { group: 0, i: 0 };
    assert!(rt; graph.signal(SignalId::new(3)) == member, "the last");
    assert!(rt; graph.outputs() == [SignalId::new(3)].as_slice(), "outputs");
    assert!(rt; graph.group(0) == [SignalId::new(2)].as_slice(), "group");
    assert!(rt; SignalId::new(7).number() == 7);
    Ok(())
}
