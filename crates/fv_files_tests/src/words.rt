//! The words of a command line, and what they ask for or why they are refused.

use fv_top_words::{Cause, Job, job_in};
use std::alloc::{AllocError, Global};
use std::process::Abort;
use std::test::Fail;

/// The words of a line, the program's own name first.
fn words_in(alloc: Global, line: &str) -> Result<Vec<String>, AllocError> {
    let mut words = Vec::new(alloc);
    words.push(String::from_str(alloc, "faustvec")?)?;
    for word in line.split(' ') {
        words.push(String::from_str(alloc, word)?)?;
    }
    Ok(words)
}

// Lines, and why they are refused.
static REFUSED: [(&str, Cause); 18] = [
    ("run p.dsp in.wav", Cause::Form),
    ("play p.dsp in.wav o.wav", Cause::Form),
    ("run p.dsp in.wav o.wav more", Cause::Form),
    ("run p.dsp in.wav o.wav --block", Cause::Form),
    ("run p.dsp in.wav o.wav --block=1 --block=1", Cause::Form),
    ("run p.dsp in.wav o.wav -b 1", Cause::Form),
    ("check p.dsp --block=1", Cause::Form),
    ("run p.dsp in.wav o.wav --block x", Cause::Number),
    (
        "run p.dsp in.wav o.wav --vector=9999 --block=",
        Cause::Number,
    ),
    ("make 0 x 1", Cause::Number),
    ("run p.dsp in.wav o.wav --block 0", Cause::Range),
    ("run p.dsp in.wav o.wav --workers=17", Cause::Range),
    ("make 65 1 1", Cause::Range),
    (
        "run p.dsp in.wav o.wav --vector 1 --block 4096",
        Cause::Vectors,
    ),
    ("run p.dsp in.wav o.wav --frames 3", Cause::Together),
    ("run p.dsp in.wav in.wav", Cause::Same),
    ("run p.dsp - o.wav --controls=o.wav", Cause::Same),
    ("run p.dsp - - --frames 1", Cause::Same),
];

#[test]
fn refused(rt: HostRuntime) -> Result<(), Fail> {
    let alloc = rt.alloc();
    for (line, cause) in &REFUSED {
        match job_in(&words_in(alloc, line)?) {
            Ok(_job) => panic!(rt; "not refused"),
            Err(found) => assert_eq!(rt; found, *cause),
        }
    }
    Ok(())
}

/// A run of these files, with the frames of a block and of a vector, and the number of workers.
type Asked = (&'static str, [&'static str; 3], [u32; 3]);

/// The words ask for just this run.
fn expect_run(rt: &impl Abort, words: &[String], files: &[&str; 3], sizes: &[u32; 3]) {
    match job_in(words) {
        Ok(Job::Run(run)) => {
            let input = match run.input {
                Some(name) => name,
                None => "-",
            };
            let settings = run.settings;
            assert_eq!(rt; [run.program, input, run.output], *files);
            assert_eq!(rt; [settings.block, settings.vector, settings.workers], *sizes);
        }
        _ => panic!(rt; "no run"),
    }
}

// Lines, each with what it asks for.
static ASKED: [Asked; 6] = [
    ("run p in o", ["p", "in", "o"], [512, 32, 1]),
    ("au p in o --block=31", ["p", "in", "o"], [31, 31, 1]),
    ("rack --block 4096 p in o", ["p", "in", "o"], [4096, 64, 1]),
    ("run p --workers=16 - o", ["p", "-", "o"], [512, 32, 16]),
    ("run -- -p in --o", ["-p", "in", "--o"], [512, 32, 1]),
    ("run p in --vector 8 -- o", ["p", "in", "o"], [512, 8, 1]),
];

#[test]
fn asked_for(rt: HostRuntime) -> Result<(), Fail> {
    let alloc = rt.alloc();
    for (line, files, sizes) in &ASKED {
        expect_run(&rt, &words_in(alloc, line)?, files, sizes);
    }
    Ok(())
}
