// Whole runs over a desk in memory, and what is seen of them.

use fv_outside::{FreeGate, Gate, MemoryDesk, Role};
use fv_top::{Status, Tally, run_faustvec};
use std::alloc::{AllocError, Global};
use std::sync::Wait;
use std::test::Fail;
use std::thread::Threads;

/// The words of the plainest run.
pub const WORDS: [&str; 4] = ["run", "p.dsp", "in.wav", "out.wav"];

/// The words of a run whose output is an AU file.
pub const TO_AU: [&str; 4] = ["au", "p.dsp", "in.wav", "o.au"];

/// The words of a run in blocks of four frames, under a script.
pub const BLOCKS_OF_FOUR: [&str; 8] = [
    "run",
    "p.dsp",
    "in.wav",
    "out.wav",
    "--block",
    "4",
    "--controls",
    "c.txt",
];

/// A gain, which that script makes 3 at frame 2 and 0 at frame 3.
pub const GAIN: &str = "process = _ * hslider(\"g\",1,0,10,1);";

/// One channel of 16 bits at 44100 frames a second, with the samples 1, -2 and 3.
pub const THREE: [u8; 50] = [
    82, 73, 70, 70, 42, 0, 0, 0, 87, 65, 86, 69, 102, 109, 116, 32, 16, 0, 0, 0, 1, 0, 1, 0, 68,
    172, 0, 0, 136, 88, 1, 0, 2, 0, 16, 0, 100, 97, 116, 97, 6, 0, 0, 0, 1, 0, 254, 255, 3, 0,
];

/// The script that each desk has beside a program and an input.
const SCRIPT: &[u8] = b"2 g 3
3 g 0
";

/// How a run ends: its exit status, its line and its output.
pub type End<'a> = (u8, &'a str, &'a [u8]);

/// A desk with a program, an input and a script, and room for what is written.
pub fn desk_of(alloc: Global, text: &[u8], input: &[u8]) -> Result<MemoryDesk, AllocError> {
    let mut desk = MemoryDesk::new(alloc);
    desk.put("c.txt", SCRIPT)?;
    desk.put("p.dsp", text)?;
    desk.put("in.wav", input)?;
    desk.room(Role::Output, 100_000)?;
    desk.room(Role::Report, 100)?;
    Ok(desk)
}

// A run with these words after the program's own name.
fn run_of<G: Gate + Sync>(
    rt: &(impl Threads + Wait + Sync),
    alloc: Global,
    desk: &mut MemoryDesk,
    words: &[&str],
    gate: &mut G,
) -> Result<Status, AllocError> {
    let mut all = Vec::new(alloc);
    all.push(String::from_str(alloc, "faustvec")?)?;
    for word in words {
        all.push(String::from_str(alloc, word)?)?;
    }
    Ok(run_faustvec(rt, alloc, &all, desk, gate))
}

/// The exit status of one.
pub fn status_of(
    rt: &(impl Threads + Wait + Sync),
    alloc: Global,
    desk: &mut MemoryDesk,
    words: &[&str],
) -> Result<u8, AllocError> {
    Ok(run_of(rt, alloc, desk, words, &mut FreeGate)?.code())
}

/// What is counted of one, where it is done.
pub fn tally_of<G: Gate + Sync>(
    rt: &(impl Threads + Wait + Sync),
    alloc: Global,
    desk: &mut MemoryDesk,
    words: &[&str],
    gate: &mut G,
) -> Result<Option<Tally>, AllocError> {
    match run_of(rt, alloc, desk, words, gate)? {
        Status::Done(tally) => Ok(Some(tally)),
        Status::Refused(_) => Ok(None),
    }
}

/// A run over this desk ends so.
pub fn assert_ends(
    rt: &(impl Threads + Wait + Sync),
    alloc: Global,
    desk: &mut MemoryDesk,
    words: &[&str],
    end: End<'_>,
) -> Result<(), Fail> {
    let (status, line, output) = end;
    let ended = status_of(rt, alloc, desk, words)?;
    let told = desk.written(Role::Report);
    if ended != status || told != line.as_bytes() {
        return Err(Fail::new(format_args!("{words:?}: {ended} {told:?}, not {status} {line:?}")));
    }
    if desk.written(Role::Output) != output {
        return Err(Fail::new(format_args!("{words:?}: another output, with {line:?}")));
    }
    Ok(())
}

/// A run that ends so: its words, its program and its input.
pub type Row<'a> = (&'a [&'a str], &'a str, &'a [u8], End<'a>);
