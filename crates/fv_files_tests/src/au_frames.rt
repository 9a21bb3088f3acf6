// Samples that are read, and files that are written.

ghost use Rattle.std.specs.Prelude.{◌≡◌, ◌≤◌, true};
ghost use Rattle.fv_au.specs.Limits.TheConstants.{MOST_CHANNELS};
ghost use Rattle.fv_au.specs.Words.{is_sample_width};

use crate::au_heads::{HEAD, THREE};
use fv_au::{
    AuHead, AuRefusal, WriteRefusal, read_au_frames, read_au_head, read_au_rest, write_au_frames,
    write_au_head,
};
use fv_outside::{Desk, MemoryDesk, Role};
use std::alloc::Global;
use std::process::Abort;
use std::test::Fail;

// The file of three samples, on a desk that may fail.
fn write_three(desk: &mut MemoryDesk) -> Result<(), WriteRefusal> {
    if desk.begin_write(Role::Output, "file").is_err() {
        return Err(WriteRefusal::WriteFault { role: Role::Output });
    }
    let mut bytes = [0; 6];
    write_au_head(desk, 1, 44100, 16, 6)?;
    write_au_frames(desk, 16, &[1, -2, 3], &mut bytes)
}

// The file of three samples fits on a desk, and nothing more.
fn assert_fits(rt: &impl Abort, desk: &mut MemoryDesk) {
    assert_eq!(rt; write_three(desk), Ok(()));
    let file = desk.written(Role::Output);
    assert!(rt; file.len() == 30 && file.starts_with(b".snd") && file.ends_with(&THREE));
    let full = WriteRefusal::WriteFault { role: Role::Output };
    let mut bytes = [0; 6];
    assert_eq!(rt; write_au_frames(desk, 16, &[4], &mut bytes), Err(full));
}

#[test]
fn a_file_is_written(rt: HostRuntime) -> Result<(), Fail> {
    let mut desk = MemoryDesk::new(rt.alloc());
    desk.room(Role::Output, 30)?;
    assert_fits(&rt, &mut desk);
    Ok(())
}

// The first two samples after the head can be read from a desk, on which the third one is cut.
fn assert_two_are_read(rt: &impl Abort, desk: &mut MemoryDesk) {
    assert!(rt; desk.begin_read(Role::Input, "samples").is_ok());
    let mut bytes = [0; 4];
    let mut two = [0; 2];
    assert_eq!(rt;
        read_au_frames(desk, &HEAD, 24, &mut bytes, &mut two),
        Ok(())
    );
    assert_eq!(rt; two, [1, -2]);
    let mut one = [0; 1];
    let cut = AuRefusal::AuTruncated { place: 29 };
    assert_eq!(rt;
        read_au_frames(desk, &HEAD, 28, &mut bytes, &mut one),
        Err(cut)
    );
}

#[test]
fn frames_are_read_to_the_cut(rt: HostRuntime) -> Result<(), Fail> {
    let mut desk = MemoryDesk::new(rt.alloc());
    desk.put("samples", &THREE[20..25])?;
    assert_two_are_read(&rt, &mut desk);
    Ok(())
}

/// What is answered where the call of Output with this number fails, and how many bytes were written.
fn faulty(alloc: Global, call: u32) -> Result<(Result<(), WriteRefusal>, usize), Fail> {
    let mut desk = MemoryDesk::new(alloc);
    desk.room(Role::Output, 30)?;
    desk.fail(Role::Output, call)?;
    let answer = write_three(&mut desk);
    Ok((answer, desk.written(Role::Output).len()))
}

// A call that fails, whether the file is then refused, and how many bytes were written.
static WRITE_FAULTS: [(u32, bool, usize); 4] = [
    (0, true, 0),
    (2, true, 4),
    (7, true, 24),
    (8, false, 30),
];

#[test]
fn write_faults(rt: HostRuntime) -> Result<(), Fail> {
    let fault = WriteRefusal::WriteFault { role: Role::Output };
    for (call, fails, length) in &WRITE_FAULTS {
        let answer = if *fails { Err(fault) } else { Ok(()) };
        assert_eq!(rt; faulty(rt.alloc(), *call)?, (answer, *length), "{call}");
    }
    Ok(())
}

/// Three samples of an unknown size after the first four bytes of their file.
const OPEN: [u8; 26] = [
    0, 0, 0, 24, 255, 255, 255, 255, 0, 0, 0, 3, 0, 0, 172, 68, 0, 0, 0, 1, 0, 1, 255, 254, 0, 3,
];

/// The samples up to the end of the file that has these bytes after its first four. They come in pieces of `piece`, and the call of
/// this number fails.
fn rest_of(
    alloc: Global,
    behind: &[u8],
    piece: u32,
    call: u32,
) -> Result<Result<Vec<i32>, AuRefusal>, Fail>
    requires { 1 ≤ piece }
{
    let mut bytes = Vec::from_slice(alloc, b".snd")?;
    bytes.extend_from_slice(behind)?;
    let mut desk = MemoryDesk::new(alloc);
    desk.put("file", &bytes)?;
    desk.pieces(Role::Input, piece);
    desk.fail(Role::Input, call)?;
    match desk.begin_read(Role::Input, "file") {
        Ok(()) => match read_au_head(&mut desk) {
            Ok(head) => Ok(rest_behind(alloc, &mut desk, &head)),
            Err(refusal) => Ok(Err(refusal)),
        },
        Err(_failed) => Ok(Err(AuRefusal::ReadFault { role: Role::Input })),
    }
}

// The samples after a head, which does not say how many they are.
fn rest_behind(alloc: Global, desk: &mut MemoryDesk, head: &AuHead) -> Result<Vec<i32>, AuRefusal>
    requires some { 1 ≤ head.now.channels }
    requires few { head.now.channels ≤ MOST_CHANNELS }
    requires bits { is_sample_width head.now.bits ≡ true }
{
    if head.data_bytes.is_some() {
        return Err(AuRefusal::AuFormat { place: 8 });
    }
    read_au_rest(alloc, desk, head)
}

// The samples up to the end of a file, whose bytes come in pieces of a size, are these.
fn assert_rest(
    rt: &impl Abort,
    alloc: Global,
    behind: &[u8],
    piece: u32,
    wanted: &[i32],
) -> Result<(), Fail>
    requires { 1 ≤ piece }
{
    let samples = rest_of(alloc, behind, piece, 99)??;
    assert!(rt; samples.as_slice() == wanted, "{piece}");
    Ok(())
}

#[test]
fn samples_up_to_the_end(rt: HostRuntime) -> Result<(), Fail> {
    for piece in 1..4 {
        assert_rest(&rt, rt.alloc(), &OPEN, piece, &[1, -2, 3])?;
        assert_rest(&rt, rt.alloc(), &OPEN[..25], piece, &[1, -2])?;
    }
    Ok(())
}

#[test]
fn each_reading_fails(rt: HostRuntime) -> Result<(), Fail> {
    let fault = AuRefusal::ReadFault { role: Role::Input };
    for call in 0..5 {
        let wanted = if call < 4 { Some(fault) } else { None };
        assert_eq!(rt;
            rest_of(rt.alloc(), &OPEN, 60, call)?.err(),
            wanted,
            "{call}"
        );
    }
    Ok(())
}
