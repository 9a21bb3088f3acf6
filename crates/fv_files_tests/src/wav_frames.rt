// Samples that are read, and files that are written.

ghost use Rattle.std.specs.Prelude.{◌≡◌, ◌≤◌, true};
ghost use Rattle.fv_wav.specs.Words.{is_sample_width};

use crate::examples::{EXTENSIBLE, PLAIN};
use crate::wav_heads::{EXTENSIBLE_HEAD, assert_same, head_on};
use fv_outside::{Desk, MemoryDesk, Role};
use fv_wav::{
    WaveRefusal, WriteRefusal, data_length, read_frames, write_frames, write_head, write_pad,
};
use std::alloc::Global;
use std::process::Abort;
use std::test::Fail;

/// The bytes of two samples at this width.
fn written(alloc: Global, bits: u32, samples: [i32; 2]) -> Result<Vec<u8>, Fail>
    requires { is_sample_width bits ≡ true }
{
    let mut desk = MemoryDesk::new(alloc);
    desk.room(Role::Output, 8)?;
    let mut bytes = [0; 8];
    if write_frames(&mut desk, bits, &samples, &mut bytes).is_err() {
        return Ok(Vec::new(alloc));
    }
    Ok(Vec::from_slice(alloc, desk.written(Role::Output))?)
}

// A width, two samples, and their bytes.
static WRITTEN: [(u32, [i32; 2], &[u8]); 5] = [
    (8, [-128, 127], b"\0\xff"),
    (8, [0, 128], b"\x80\xff"),
    (16, [-2, 40000], b"\xfe\xff\xff\x7f"),
    (24, [-2, -8388609], b"\xfe\xff\xff\0\0\x80"),
    (32, [-2147483648, 258], b"\0\0\0\x80\x02\x01\0\0"),
];

#[test]
fn samples_are_written(rt: HostRuntime) -> Result<(), Fail> {
    for (bits, samples, bytes) in &WRITTEN {
        assert!(rt; matches!(*bits, 8 | 16 | 24 | 32));
        let found = written(rt.alloc(), *bits, *samples)?;
        assert!(rt; found.as_slice() == *bytes, "{bits}: {samples:?}");
    }
    Ok(())
}

// The plain file, on a desk that may fail.
fn write_plain(desk: &mut MemoryDesk) -> Result<(), WriteRefusal> {
    if desk.begin_write(Role::Output, "file").is_err() {
        return Err(WriteRefusal::WriteFault { role: Role::Output });
    }
    let mut bytes = [0; 6];
    write_head(desk, 1, 44100, 16, 6)?;
    write_frames(desk, 16, &[1, -2, 3], &mut bytes)?;
    write_pad(desk, 6)
}

// The plain file fits on a desk, and nothing more.
fn assert_fits(rt: &impl Abort, desk: &mut MemoryDesk) {
    assert_eq!(rt; write_plain(desk), Ok(()));
    assert!(rt; desk.written(Role::Output) == PLAIN.as_slice());
    let full = WriteRefusal::WriteFault { role: Role::Output };
    let mut bytes = [0; 6];
    assert_eq!(rt; write_frames(desk, 16, &[4], &mut bytes), Err(full));
}

#[test]
fn a_file_is_written(rt: HostRuntime) -> Result<(), Fail> {
    let mut desk = MemoryDesk::new(rt.alloc());
    desk.room(Role::Output, 50)?;
    assert_fits(&rt, &mut desk);
    Ok(())
}

/// What is answered where the call of Output with this number fails, and how many bytes were written.
fn faulty(alloc: Global, call: u32) -> Result<(Result<(), WriteRefusal>, usize), Fail> {
    let mut desk = MemoryDesk::new(alloc);
    desk.room(Role::Output, 50)?;
    desk.fail(Role::Output, call)?;
    let answer = write_plain(&mut desk);
    Ok((answer, desk.written(Role::Output).len()))
}

// A call that fails, whether the file is then refused, and how many bytes were written.
static WRITE_FAULTS: [(u32, bool, usize); 4] = [
    (0, true, 0),
    (2, true, 4),
    (11, true, 44),
    (12, false, 50),
];

#[test]
fn write_faults(rt: HostRuntime) -> Result<(), Fail> {
    let fault = WriteRefusal::WriteFault { role: Role::Output };
    for (call, fails, length) in &WRITE_FAULTS {
        let answer = if *fails { Err(fault) } else { Ok(()) };
        assert_eq!(rt; faulty(rt.alloc(), *call)?, (answer, *length), "{call}");
    }
    Ok(())
}

// Channels, a width and a number of frames, and how many bytes those are.
static LENGTHS: [(u32, u32, u32, Option<u32>); 5] = [
    (1, 16, 3, Some(6)),
    (2, 24, 715827876, Some(4294967256)),
    (1, 16, 2147483629, Some(4294967258)),
    (1, 16, 2147483630, None),
    (256, 32, 4294967295, None),
];

#[test]
fn lengths(rt: HostRuntime) {
    for (channels, bits, frames, length) in &LENGTHS {
        assert!(rt; matches!(*bits, 8 | 16 | 24 | 32));
        let found = data_length(*channels, *bits, *frames);
        assert_eq!(rt; found, *length, "{channels} {bits} {frames}");
    }
}

// A frame of the extensible file after a place is read, or refused so.
fn read_one(rt: &impl Abort, desk: &mut MemoryDesk, place: u64, wanted: Result<i32, WaveRefusal>)
    requires low { 80 ≤ place }
    requires high { place ≤ 83 }
{
    let mut bytes = [0; 8];
    let mut one = [0; 1];
    let found = match read_frames(desk, &EXTENSIBLE_HEAD, place, &mut bytes, &mut one) {
        Ok(()) => Ok(one[0]),
        Err(refusal) => Err(refusal),
    };
    assert_eq!(rt; found, wanted);
}

#[test]
fn a_cut_file_is_read_to_its_last_whole_frame(rt: HostRuntime) -> Result<(), Fail> {
    let mut desk = MemoryDesk::new(rt.alloc());
    desk.put("file", &EXTENSIBLE[..85])?;
    assert_same(&rt, head_on(&mut desk), Ok(EXTENSIBLE_HEAD), 0);
    read_one(&rt, &mut desk, 80, Ok(1));
    let cut = WaveRefusal::WaveTruncated { place: 85 };
    read_one(&rt, &mut desk, 83, Err(cut));
    Ok(())
}
