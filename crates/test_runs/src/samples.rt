// Files of samples, and programs that are played on them.

use crate::desks::{desk_of, tally_of};
use fv_outside::{Gate, Role};
use fv_top::Tally;
use std::alloc::{AllocError, Global};
use std::sync::Wait;
use std::test::Fail;
use std::thread::Threads;

/// The head of a file of 16 bits at 44100 frames a second, with zeros for its size, its channels and what follows from these.
const HEAD: [u8; 44] =
    *b"RIFF\0\0\0\0WAVEfmt \x10\0\0\0\x01\0\0\0\x44\xac\0\0\0\0\0\0\0\0\x10\0data\0\0\0\0";

/// A program that is played: the words and the text, the channels and the samples of its input, those of its output, and the line.
pub type Played<'a> = (
    &'a [&'a str],
    &'a str,
    (u32, &'a [i32]),
    (u32, &'a [i32]),
    &'a str,
);

/// A file of `channels` channels of 16 bits at 44100 frames a second.
pub fn file_of(alloc: Global, channels: u32, samples: &[i32]) -> Result<Vec<u8>, AllocError> {
    let size = u32::try_from(samples.len()).unwrap_or(0).wrapping_mul(2);
    let mut head = HEAD;
    head[4..8].copy_from_slice(&size.wrapping_add(36).to_le_bytes());
    head[22..24].copy_from_slice(&channels.to_le_bytes()[..2]);
    head[28..32].copy_from_slice(&channels.wrapping_mul(88200).to_le_bytes());
    head[32..34].copy_from_slice(&channels.wrapping_mul(2).to_le_bytes()[..2]);
    head[40..44].copy_from_slice(&size.to_le_bytes());
    let mut file = Vec::from_slice(alloc, &head)?;
    for sample in samples {
        file.extend_from_slice(&sample.to_le_bytes()[..2])?;
    }
    Ok(file)
}

/// A program that is played under a gate gives its output and its line. Answers what is counted.
pub fn assert_plays<G: Gate + Sync>(
    rt: &(impl Threads + Wait + Sync),
    alloc: Global,
    played: &Played<'_>,
    gate: &mut G,
) -> Result<Tally, Fail> {
    let (words, text, (channels, heard), (outputs, said), line) = *played;
    let input = file_of(alloc, channels, heard)?;
    let output = file_of(alloc, outputs, said)?;
    let mut desk = desk_of(alloc, text.as_bytes(), &input)?;
    let tally = tally_of(rt, alloc, &mut desk, words, gate)?;
    let told = desk.written(Role::Report);
    if told != line.as_bytes() {
        return Err(Fail::new(format_args!("{text}: {told:?}, not {line:?}")));
    }
    if desk.written(Role::Output) != output.as_slice() {
        return Err(Fail::new(format_args!("{text}: another output")));
    }
    match tally {
        Some(counted) => Ok(counted),
        None => Err("refused, with the line of a run that is done".into()),
    }
}
