// Echoes, by blocks and vectors of several sizes.

ghost use Rattle.std.specs.Prelude.{◌≡◌, length};

use crate::engines::{Reported, Sizes, play_graph};
use crate::graphs::graph_of;
use fv_engine::NoMemory;
use fv_signal::Graph;
use std::alloc::Global;
use std::marker::Sync;
use std::process::Abort;
use std::sync::Wait;
use std::test::Fail;
use std::thread::Threads;
use test_blocks::Counter;
use test_graphs::echo_left;

// An echo of 1000: the same samples by blocks and vectors of each size, and the gate sees each task that is reported.
#[test]
fn echoes_by_each_size(rt: HostRuntime) -> Result<(), Fail> {
    let graph = echo_left(rt.alloc())?;
    for (block, vector) in [(1, 1), (7, 7), (512, 32)] {
        let sizes = Sizes {
            width: 2,
            block,
            vector,
            workers: 1,
        };
        assert_echoes(&rt, rt.alloc(), &graph, (0, 0), sizes)?;
    }
    Ok(())
}

// Echoes of both channels by several workers: no block of theirs is reported as alone.
#[test]
fn blocks_that_always_run_alone_are_refused(rt: HostRuntime) -> Result<(), Fail> {
    let text = "echo(d,g) = + ~ (@(d-1) : *(g) : /(256)); process = par(i,2,echo(11025,128));";
    let graph = graph_of(rt.alloc(), text)?;
    for (block, vector, workers) in [(7, 7, 2), (512, 32, 2), (512, 32, 16)] {
        let sizes = Sizes {
            width: 2,
            block,
            vector,
            workers,
        };
        assert_echoes(&rt, rt.alloc(), &graph, (-3, -1), sizes)?;
    }
    Ok(())
}

// The left channel is 1000 at first, half of it after 11,025 samples, and a quarter after as many more; the right one is -7 at first,
// and these two numbers at the same places.
fn echo_at(frame: usize, right: (i32, i32)) -> (i32, i32) {
    match frame {
        0 => (1000, -7),
        11025 => (500, right.0),
        22050 => (250, right.1),
        _ => (0, 0),
    }
}

// The frames are those.
fn assert_are_echoes(rt: &impl Abort, output: &[i32], right: (i32, i32), sizes: Sizes)
    requires { length output.now ≡ 44102 }
{
    for t in 0..22051 {
        assert_eq!(rt;
            (output[2 * t], output[2 * t + 1]),
            echo_at(t, right),
            "frame {t}, block {}, workers {}",
            sizes.block,
            sizes.workers
        );
    }
}

// What is heard is the first frame and silence, and what is said are those. What is reported, and how many tasks the gate saw.
fn play_echoes<R: Abort + Threads + Wait + Sync>(
    rt: &R,
    alloc: Global,
    graph: &Graph,
    right: (i32, i32),
    sizes: Sizes,
) -> Result<(Reported, u64), NoMemory>
    requires { sizes.width ≡ 2 }
{
    let mut input = Vec::from_elem(alloc, 0, 44102)?;
    let mut output = Vec::from_elem(alloc, -1, 44102)?;
    input[0] = 1000;
    input[1] = -7;
    let mut counter = Counter::new();
    let reported = play_graph(
        rt,
        alloc,
        graph,
        sizes,
        22051,
        &input,
        &mut output,
        &mut counter,
    )?;
    assert_are_echoes(rt, &output, right, sizes);
    Ok((reported, counter.tasks()))
}

// They are, the gate sees each task that is reported, and no block runs alone.
fn assert_echoes<R: Abort + Threads + Wait + Sync>(
    rt: &R,
    alloc: Global,
    graph: &Graph,
    right: (i32, i32),
    sizes: Sizes,
) -> Result<(), NoMemory>
    requires { sizes.width ≡ 2 }
{
    let (reported, seen) = play_echoes(rt, alloc, graph, right, sizes)?;
    assert!(rt; reported.tasks > 0);
    assert_eq!(rt;
        (reported.alone, seen),
        (0, reported.tasks),
        "block {}, workers {}",
        sizes.block,
        sizes.workers
    );
    Ok(())
}
