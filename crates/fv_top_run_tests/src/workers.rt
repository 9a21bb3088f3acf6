// Whole runs by several workers: loops, jobs and tables.

ghost use Rattle.std.specs.Prelude.{◌<◌};

use crate::blocks::NOTHING;
use fv_outside::{Gate, MemoryDesk, Role};
use fv_top::Tally;
use std::alloc::{AllocError, Global};
use std::process::Abort;
use std::sync::Wait;
use std::test::Fail;
use std::thread::Threads;
use test_blocks::{Counter, Meeting, Until};
use test_runs::{Played, assert_plays, desk_of, file_of, tally_of};

static TWO_LOOPS: Played = (
    &["run", "p.dsp", "in.wav", "out.wav", "--workers", "2"],
    "process = _ + 1, _ * 2;",
    (2, &[1, 1, 5, -3]),
    (2, &[2, 2, 6, -6]),
    "done 2 frames\n",
);

// Two loops that read nothing of one another. The gate holds each task until the other is about to run, so two threads run them.
#[test]
fn tasks_all_on_one_thread_are_refused(rt: HostRuntime) -> Result<(), Fail> {
    let mut gate = Meeting::new(0, 1);
    let tally = assert_plays(&rt, rt.alloc(), &TWO_LOOPS, &mut gate)?;
    assert_eq!(rt; (tally.blocks, gate.missed()), (1, false));
    Ok(())
}

static THREE_LOOPS: Played = (
    &["run", "p.dsp", "in.wav", "out.wav", "--workers", "2"],
    "process = _ + 1, _ * 2, _ - 3;",
    (3, &[1, 1, 1, 5, -3, 0]),
    (3, &[2, 2, -2, 6, -6, -3]),
    "done 2 frames\n",
);

// Three loops that read nothing of one another. Worker 0 has the tasks of loops 0 and 2, and takes the former first. The gate holds it
// until that of loop 2 is about to run, so worker 1 has stolen that.
#[test]
fn workers_that_never_steal_are_refused(rt: HostRuntime) -> Result<(), Fail> {
    let mut gate = Until::new(0, 2);
    let tally = assert_plays(&rt, rt.alloc(), &THREE_LOOPS, &mut gate)?;
    assert_eq!(rt; (tally.blocks, gate.missed()), (1, false));
    Ok(())
}

// Two jobs, each on its own channel.
static TWO_JOBS: Played = (
    &["rack", "p.dsp", "in.wav", "out.wav", "--workers", "2"],
    "process = _ + 1;\n%%\nprocess = _ * 2;\n",
    (2, &[1, 1, 5, -3]),
    (2, &[2, 2, 6, -6]),
    "done 2 frames\n",
);

// The gate holds each task until the other is about to run, so two threads run them.
#[test]
fn jobs_share_the_workers(rt: HostRuntime) -> Result<(), Fail> {
    let mut gate = Meeting::new(0, 1);
    assert_plays(&rt, rt.alloc(), &TWO_JOBS, &mut gate)?;
    assert!(rt; !gate.missed());
    Ok(())
}

// Two loops that read nothing of one another, each with a table of its own.
static A_TABLE_EACH: Played = (
    &["run", "p.dsp", "in.wav", "out.wav", "--workers", "2"],
    "process = (+ ~ rwtable(2,3,0,_,0)), rwtable(2,7,0,_,0);",
    (2, &[1, 4, -2, 5, 3, 6]),
    (2, &[1, 4, -1, 5, 2, 6]),
    "done 3 frames\n",
);

// The gate holds each task until the other is about to run, so two threads run them.
#[test]
fn two_workers_have_a_table_each(rt: HostRuntime) -> Result<(), Fail> {
    let mut gate = Meeting::new(0, 1);
    let tally = assert_plays(&rt, rt.alloc(), &A_TABLE_EACH, &mut gate)?;
    assert_eq!(rt; (tally.loops, gate.missed()), (2, false));
    Ok(())
}

// A file of two channels. Three frames, `apart` frames apart, have these samples twice, and all others are silent. The third one is
// the last.
fn thirds(alloc: Global, apart: usize, loud: [i32; 3]) -> Result<Vec<u8>, AllocError>
    requires { apart < 1000000 }
{
    let [first, second, third] = loud;
    let last = 2 * apart;
    let mut samples = Vec::new(alloc);
    for frame in 0..last + 1 {
        let sample = if frame == 0 {
            first
        } else if frame == apart {
            second
        } else if frame == last {
            third
        } else {
            0
        };
        samples.extend_from_slice(&[sample, sample])?;
    }
    file_of(alloc, 2, &samples)
}

// An echo's text, and after how many frames it comes.
type Echo = (&'static str, usize);

// A desk with an echo, and 1000 in two channels.
fn echo_desk(alloc: Global, echo: Echo) -> Result<MemoryDesk, AllocError>
    requires { echo.1 < 1000000 }
{
    let (text, apart) = echo;
    let input = thirds(alloc, apart, [1000, 0, 0])?;
    desk_of(alloc, text.as_bytes(), &input)
}

// What is written is the echoes of 1000 in two channels, half as loud after each `apart` frames.
fn assert_echoes(alloc: Global, written: &[u8], apart: usize, words: &[&str]) -> Result<(), Fail>
    requires { apart < 1000000 }
{
    let output = thirds(alloc, apart, [1000, 500, 250])?;
    if written != output.as_slice() {
        return Err(Fail::new(format_args!("{words:?}: another output")));
    }
    Ok(())
}

// They are, with these words, as the gate sees them.
fn echoes<G: Gate + Sync>(
    rt: &(impl Threads + Wait + Sync + Abort),
    alloc: Global,
    echo: Echo,
    words: &[&str],
    gate: &mut G,
) -> Result<Option<Tally>, Fail> {
    let apart = echo.1;
    assert!(rt; apart < 1_000_000);
    let mut desk = echo_desk(alloc, echo)?;
    let tally = tally_of(rt, alloc, &mut desk, words, gate)?;
    assert_echoes(alloc, desk.written(Role::Output), apart, words)?;
    Ok(tally)
}

// Echoes after a quarter of a second.
const QUARTERS: Echo = (
    "echo(d,g) = + ~ (@(d-1) : *(g) : /(256)); process = par(i,2,echo(11025,128));",
    11025,
);

// The gate sees as many tasks as are counted, whoever runs them.
#[test]
fn tasks_that_no_gate_sees_are_refused(rt: HostRuntime) -> Result<(), Fail> {
    for workers in ["--workers=1", "--workers=2"] {
        let mut gate = Counter::new();
        let words = [
            "run",
            "p.dsp",
            "in.wav",
            "out.wav",
            "--block=7",
            "--vector=7",
            workers,
        ];
        let tally = echoes(&rt, rt.alloc(), QUARTERS, &words, &mut gate)?.unwrap_or(NOTHING);
        let seen = u128::from(gate.tasks());
        assert!(rt; seen > 0 && tally.loop_runs == seen, "{workers}");
    }
    Ok(())
}
