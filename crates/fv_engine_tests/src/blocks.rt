// Rows of blocks.

ghost use Rattle.std.specs.Prelude.{◌≡◌, ◌<◌, ◌≤◌, length};
ghost use Rattle.fv_engine_tests.specs.Runs.{IsSquare};

use crate::engines::{Reported, Sizes, engine_of, play, play_graph};
use crate::graphs::graph_of;
use fv_engine::{Engine, NoMemory};
use fv_outside::{FreeGate, Gate, Line, Reads, Recorder, Task};
use fv_signal::Graph;
use std::alloc::Global;
use std::marker::Sync;
use std::process::Abort;
use std::sync::Wait;
use std::test::Fail;
use std::thread::Threads;
use test_blocks::block_of;
use test_graphs::{by_a_control, delayed, difference};

// A line of the first vector of a loop.
fn line(loop_no: u64, start: u64) -> Line
    requires { start < 1000 }
{
    Line {
        task: Task { loop_no, vector: 0 },
        worker: 0,
        start,
        finish: start + 1,
    }
}

// Three frames less the frame before each, in one block, and how many tasks were reported.
fn play_difference<R: Abort + Threads + Wait + Sync, G: Gate + Sync>(
    rt: &R,
    alloc: Global,
    graph: &Graph,
    gate: &mut G,
) -> Result<(u64, [i32; 3]), NoMemory> {
    let sizes = Sizes {
        width: 1,
        block: 512,
        vector: 32,
        workers: 1,
    };
    let input = [5, 7, 4];
    let mut output = [0; 3];
    let reported = play_graph(rt, alloc, graph, sizes, 3, &input, &mut output, gate)?;
    Ok((reported.tasks, output))
}

// Of a block it was told this many loops, one vector, who reads whom, and these lines.
fn assert_told(
    rt: &impl Abort,
    recorder: &Recorder,
    block: u32,
    loops: u64,
    reads: &[Reads],
    lines: &[Line],
) {
    let Some(told) = block_of(recorder, block) else {
        panic!(rt; "no block {block}");
    };
    assert_eq!(rt; told, (loops, 1, reads, lines), "block {block}");
}

// One block, of which the recorder has just the room: two loops, the second reads the first, and the first has finished before the
// second starts.
#[test]
fn one_block_is_told(rt: HostRuntime) -> Result<(), Fail> {
    let graph = difference(rt.alloc())?;
    let mut recorder = Recorder::new(rt.alloc(), 1, 2)?;
    let played = play_difference(&rt, rt.alloc(), &graph, &mut recorder)?;
    assert_eq!(rt; (played, recorder.calls()), ((2, [5, 2, -3]), Some(1)));
    let read = Reads {
        reader: 1,
        source: 0,
    };
    let lines = [line(0, 0), line(1, 2)];
    assert_told(&rt, &recorder, 0, 2, &[read], &lines);
    Ok(())
}

// A recorder without room for the second line tells nothing then.
#[test]
fn a_block_without_room(rt: HostRuntime) -> Result<(), Fail> {
    let graph = difference(rt.alloc())?;
    let mut recorder = Recorder::new(rt.alloc(), 1, 1)?;
    let (_, output) = play_difference(&rt, rt.alloc(), &graph, &mut recorder)?;
    assert_eq!(rt; (output, recorder.calls()), ([5, 2, -3], None));
    Ok(())
}

// How many frames a block has under a control that changes.
const SMALL: Sizes = Sizes {
    width: 1,
    block: 4,
    vector: 4,
    workers: 1,
};

// One block of at most two frames under this value of the control.
fn play_under<R: Threads + Wait + Sync>(
    rt: &R,
    alloc: Global,
    engine: &mut Engine,
    control: i32,
    input: &[i32],
    output: &mut [i32],
    recorder: &mut Recorder,
)
    requires square { IsSquare engine.old 1 4 1 }
    requires alike { length output.old ≡ length input.now }
    requires few { length input.now ≤ 2 }
    ensures { IsSquare engine.new 1 4 1 }
{
    let frames = input.len() as u32;
    play(
        rt,
        alloc,
        engine,
        SMALL,
        &[control],
        frames,
        input,
        output,
        recorder,
    );
}

// Three blocks of fives: the control is 1, from the third frame on 3, and from the fourth 0.
fn play_fives<R: Threads + Wait + Sync>(
    rt: &R,
    alloc: Global,
    engine: &mut Engine,
    recorder: &mut Recorder,
) -> ([i32; 2], [i32; 1], [i32; 2])
    requires { IsSquare engine.old 1 4 1 }
{
    let mut first = [0; 2];
    let mut second = [0; 1];
    let mut third = [0; 2];
    play_under(rt, alloc, engine, 1, &[5, 5], &mut first, recorder);
    play_under(rt, alloc, engine, 3, &[5], &mut second, recorder);
    play_under(rt, alloc, engine, 0, &[5, 5], &mut third, recorder);
    (first, second, third)
}

// Three blocks of fives under a control that changes, by an engine of this graph.
fn play_changes<R: Abort + Threads + Wait + Sync>(
    rt: &R,
    alloc: Global,
    graph: &Graph,
    recorder: &mut Recorder,
) -> Result<([i32; 2], [i32; 1], [i32; 2]), NoMemory> {
    let mut engine = engine_of(rt, alloc, graph, SMALL, 1)?;
    let outputs = play_fives(rt, alloc, &mut engine, recorder);
    drop(engine);
    Ok(outputs)
}

// Each block is told, of one loop, one vector and one line.
#[test]
fn a_control_that_changes(rt: HostRuntime) -> Result<(), Fail> {
    let graph = by_a_control(rt.alloc())?;
    let mut recorder = Recorder::new(rt.alloc(), 3, 3)?;
    let outputs = play_changes(&rt, rt.alloc(), &graph, &mut recorder)?;
    assert_eq!(rt;
        (outputs, recorder.calls()),
        (([5, 5], [15], [0, 0]), Some(3))
    );
    for block in 0..3 {
        assert_told(&rt, &recorder, block, 1, &[], &[line(0, 0)]);
    }
    Ok(())
}

// A history longer than a block, over three blocks of two frames at most.
#[test]
fn a_delay_over_blocks(rt: HostRuntime) -> Result<(), Fail> {
    let graph = delayed(rt.alloc(), 3)?;
    let sizes = Sizes {
        width: 1,
        block: 2,
        vector: 2,
        workers: 1,
    };
    let mut recorder = Recorder::new(rt.alloc(), 3, 9)?;
    let mut output = [0; 5];
    let input = [1, 2, 3, 4, 5];
    play_graph(
        &rt,
        rt.alloc(),
        &graph,
        sizes,
        5,
        &input,
        &mut output,
        &mut recorder,
    )?;
    assert_eq!(rt; (output, recorder.calls()), ([0, 0, 0, 1, 2], Some(3)));
    Ok(())
}

// A ring: a history of 20 samples over blocks of 3 frames, each one vector, and over blocks of one frame.
#[test]
fn a_ring_over_blocks(rt: HostRuntime) -> Result<(), Fail> {
    let graph = delayed(rt.alloc(), 20)?;
    for (block, workers) in [(1, 1), (3, 1), (1, 2), (3, 2)] {
        assert_ring(&rt, rt.alloc(), &graph, block, workers)?;
    }
    Ok(())
}

// The first four samples are those of the input from the twenty-first on.
fn assert_ring<R: Abort + Threads + Wait + Sync>(
    rt: &R,
    alloc: Global,
    graph: &Graph,
    block: u32,
    workers: u32,
) -> Result<(), NoMemory> {
    let sizes = Sizes {
        width: 1,
        block,
        vector: 1,
        workers,
    };
    let input = [
        1, 2, 3, 4, 5, 6, 7, 8, 9, 10, 11, 12, 13, 14, 15, 16, 17, 18, 19, 20, 21, 22, 23, 24,
    ];
    let mut output = [0; 24];
    play_graph(
        rt,
        alloc,
        graph,
        sizes,
        24,
        &input,
        &mut output,
        &mut FreeGate,
    )?;
    assert_eq!(rt;
        &output[18..],
        [0, 0, 1, 2, 3, 4].as_slice(),
        "block {block}, workers {workers}"
    );
    Ok(())
}

// One loop, of which no two tasks can run at once, runs alone where two workers are asked for, and is told as worker 0's, block by block.
#[test]
fn one_loop_runs_alone(rt: HostRuntime) -> Result<(), Fail> {
    let graph = graph_of(rt.alloc(), "process = *(2);")?;
    let sizes = Sizes {
        width: 1,
        block: 4,
        vector: 4,
        workers: 2,
    };
    let mut recorder = Recorder::new(rt.alloc(), 2, 2)?;
    let mut output = [0; 5];
    let input = [1, 2, 3, 4, 5];
    let reported = play_graph(
        &rt,
        rt.alloc(),
        &graph,
        sizes,
        5,
        &input,
        &mut output,
        &mut recorder,
    )?;
    assert_eq!(rt;
        (reported, output),
        (Reported { tasks: 2, alone: 2 }, [2, 4, 6, 8, 10])
    );
    for block in 0..2 {
        assert_told(&rt, &recorder, block, 1, &[], &[line(0, 0)]);
    }
    Ok(())
}

// Squares less the square before each, in vectors of two frames, by one worker and by several, of which no more than two are at work.
#[test]
fn two_loops_by_several_workers(rt: HostRuntime) -> Result<(), Fail> {
    let graph = difference(rt.alloc())?;
    for workers in [1, 2, 3, 16] {
        assert_differences(&rt, rt.alloc(), &graph, workers)?;
    }
    Ok(())
}

// Whether a line of the second loop starts after the finish of the first one's on its vector.
fn follows_its_source(line: &Line, lines: &[Line]) -> bool {
    for source in lines {
        let is_read = line.task.loop_no == 1
            && source.task.loop_no == 0
            && source.task.vector == line.task.vector;
        if is_read && source.finish >= line.start {
            return false;
        }
    }
    true
}

// Whether the lines of the first block follow their sources, stand by their starts, and are of at most two workers.
fn is_in_order(recorder: &Recorder) -> bool {
    let Some((_, _, _, lines)) = block_of(recorder, 0) else {
        return false;
    };
    let mut last = 0;
    for line in lines {
        if line.start < last || line.worker > 1 || !follows_its_source(line, lines) {
            return false;
        }
        last = line.start;
    }
    true
}

// Twelve squares by `workers` workers: what is reported, the samples, and whether the lines of the one block are in order.
fn play_squares<R: Abort + Threads + Wait + Sync>(
    rt: &R,
    alloc: Global,
    graph: &Graph,
    workers: u32,
) -> Result<(Reported, [i32; 12], bool), NoMemory> {
    let sizes = Sizes {
        width: 1,
        block: 32,
        vector: 2,
        workers,
    };
    let input = [1, 4, 9, 16, 25, 36, 49, 64, 81, 100, 121, 144];
    let mut output = [0; 12];
    let mut recorder = Recorder::new(alloc, 1, 12)?;
    let reported = play_graph(
        rt,
        alloc,
        graph,
        sizes,
        12,
        &input,
        &mut output,
        &mut recorder,
    )?;
    Ok((reported, output, is_in_order(&recorder)))
}

// The samples are 1, 3, 5, 7 .. of each square, by 12 tasks in order, and no block runs alone.
fn assert_differences<R: Abort + Threads + Wait + Sync>(
    rt: &R,
    alloc: Global,
    graph: &Graph,
    workers: u32,
) -> Result<(), NoMemory> {
    let (reported, output, in_order) = play_squares(rt, alloc, graph, workers)?;
    assert_eq!(rt;
        (reported.tasks, reported.alone, output),
        (12, 0, [1, 3, 5, 7, 9, 11, 13, 15, 17, 19, 21, 23]),
        "workers {workers}"
    );
    assert!(rt; in_order, "workers {workers}");
    Ok(())
}

// Where an allocation is refused there is an error, and the next try makes an engine that plays.
#[test]
fn an_engine_after_want_of_memory(rt: HostRuntime) -> Result<(), Fail> {
    let graph = difference(rt.alloc())?;
    let (_, output) = match play_difference(&rt, rt.alloc(), &graph, &mut FreeGate) {
        Ok(played) => played,
        Err(_) => play_difference(&rt, rt.alloc(), &graph, &mut FreeGate)?,
    };
    assert_eq!(rt; output, [5, 2, -3]);
    Ok(())
}

// Of an engine of two lanes, how long each one's part is, and all of the region, and where each history starts.
fn parts_of(engine: &Engine) -> Option<([u64; 2], u64, [u64; 2])> {
    let layout = engine.layout();
    if layout.len() != 2 {
        return None;
    }
    let lengths = [layout.length(0), layout.length(1)];
    let starts = [engine.state(0).start, engine.state(1).start];
    Some((lengths, engine.region().len(), starts))
}

// The parts of an engine of this graph.
fn parts_for(
    rt: &impl Abort,
    alloc: Global,
    graph: &Graph,
) -> Result<Option<([u64; 2], u64, [u64; 2])>, NoMemory> {
    let sizes = Sizes {
        width: 1,
        block: 4,
        vector: 2,
        workers: 1,
    };
    let engine = engine_of(rt, alloc, graph, sizes, 0)?;
    let parts = parts_of(&engine);
    drop(engine);
    Ok(parts)
}

// Each lane has a part, of a history and a block, and its history starts there.
#[test]
fn lanes_have_parts(rt: HostRuntime) -> Result<(), Fail> {
    let graph = difference(rt.alloc())?;
    let parts = parts_for(&rt, rt.alloc(), &graph)?;
    assert_eq!(rt; parts, Some(([5, 4], 9, [0, 0])));
    Ok(())
}
