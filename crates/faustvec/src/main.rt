//! The command: hands the real files and the words to the one call that does all.
#![tactic(auto)]

use fv_outside::{FileDesk, FreeGate};
use fv_top::run_faustvec;
use std::io::ErrorKind;
use std::process::ExitCode;
use std::{env, fs, io};

/// The exit status where a word is no text.
const USAGE: u8 = 2;

/// The exit status where there is no memory for the words.
const NO_MEMORY: u8 = 5;

/// Opened in the place of standard input, output or error where one of them is closed.
const NOTHING: &str = "/dev/null";

fn main(rt: HostRuntime) -> ExitCode {
    // A file that is opened takes the lowest free place. Where standard output is closed this would be the output's file, and
    // the report would land in it; so the first three places are taken, to be read, until the end.
    let _standard = [hold(&rt), hold(&rt), hold(&rt)];
    match words(&rt) {
        Ok(words) => {
            let mut desk = FileDesk::new(&rt);
            let status = run_faustvec(&rt, rt.alloc(), &words, &mut desk, &mut FreeGate);
            ExitCode::from(status.code())
        }
        Err(error) if error.kind() == ErrorKind::InvalidData => {
            let _ = println!(rt; "refused 1 Usage form");
            ExitCode::from(USAGE)
        }
        Err(_) => ExitCode::from(NO_MEMORY),
    }
}

// Takes the lowest free place of open files.
fn hold(rt: &HostRuntime) -> Option<fs::File> {
    fs::open(rt, NOTHING).ok()
}

// What the command was called with, its own name included. A word that is no UTF-8 is invalid data.
fn words(rt: &HostRuntime) -> io::Result<Vec<String>> {
    let mut words = Vec::new(rt.alloc());
    for word in env::args(rt)? {
        words.push(word)?;
    }
    Ok(words)
}
