// The heads of AU files, or why they have none.

ghost use Rattle.std.specs.Prelude.{◌≤◌};

use fv_au::{AuHead, AuRefusal, read_au_head};
use fv_outside::{Desk, MemoryDesk, Role};
use std::alloc::Global;
use std::process::Abort;
use std::test::Fail;

/// Three samples of 16 bits, 1, -2 and 3, after the first four bytes of their file.
pub const THREE: [u8; 26] = [
    0, 0, 0, 24, 0, 0, 0, 6, 0, 0, 0, 3, 0, 0, 172, 68, 0, 0, 0, 1, 0, 1, 255, 254, 0, 3,
];

/// Their head.
pub const HEAD: AuHead = AuHead {
    channels: 1,
    rate: 44100,
    bits: 16,
    data_bytes: Some(6),
    offset: 24,
};

/// The head of the file of these bytes after its first four.
fn head_of(alloc: Global, behind: &[u8]) -> Result<Result<AuHead, AuRefusal>, Fail> {
    let mut bytes = Vec::from_slice(alloc, b".snd")?;
    bytes.extend_from_slice(behind)?;
    let mut desk = MemoryDesk::new(alloc);
    desk.put("file", &bytes)?;
    match desk.begin_read(Role::Input, "file") {
        Ok(()) => Ok(read_au_head(&mut desk)),
        Err(_failed) => Ok(Err(AuRefusal::ReadFault { role: Role::Input })),
    }
}

/// The head of the file with the byte at this place changed, cut at a length.
fn changed(
    alloc: Global,
    place: usize,
    value: u8,
    length: usize,
) -> Result<Result<AuHead, AuRefusal>, Fail> {
    let mut behind = Vec::from_slice(alloc, &THREE)?;
    if let Some(byte) = behind.get_mut(place.saturating_sub(4)) {
        *byte = value;
    }
    behind.truncate(length.saturating_sub(4));
    head_of(alloc, &behind)
}

/// What was found is what is wanted; else two numbers tell where.
fn assert_same(
    rt: &impl Abort,
    found: Result<AuHead, AuRefusal>,
    wanted: Result<AuHead, AuRefusal>,
    row: (u32, u32),
) {
    assert_eq!(rt; found, wanted, "{row:?}");
}

// A place and the byte that is put there, the length at which the file is cut, and its head, or what refuses it.
static CHANGED: [(u32, u8, u32, Result<AuHead, AuRefusal>); 12] = [
    (7, 24, 30, Ok(HEAD)),
    (7, 24, 24, Ok(HEAD)),
    (7, 24, 7, Err(AuRefusal::AuTruncated { place: 7 })),
    (7, 23, 8, Err(AuRefusal::AuFormat { place: 4 })),
    (7, 24, 15, Err(AuRefusal::AuTruncated { place: 15 })),
    (15, 1, 16, Err(AuRefusal::AuFormat { place: 12 })),
    (15, 6, 16, Err(AuRefusal::AuFormat { place: 12 })),
    (7, 24, 23, Err(AuRefusal::AuTruncated { place: 23 })),
    (23, 0, 30, Err(AuRefusal::AuFormat { place: 20 })),
    (21, 1, 30, Err(AuRefusal::AuFormat { place: 20 })),
    (7, 31, 30, Err(AuRefusal::AuTruncated { place: 30 })),
    (4, 1, 30, Err(AuRefusal::AuTruncated { place: 30 })),
];

#[test]
fn heads(rt: HostRuntime) -> Result<(), Fail> {
    for (place, value, length, wanted) in &CHANGED {
        let found = changed(rt.alloc(), *place as usize, *value, *length as usize)?;
        assert_same(&rt, found, *wanted, (*place, u32::from(*value)));
    }
    Ok(())
}

#[test]
fn an_unknown_size(rt: HostRuntime) -> Result<(), Fail> {
    let behind = b"\0\0\0\x1c\xff\xff\xff\xff\0\0\0\x02\0\0\0\x01\0\0\x01\0none";
    let head = AuHead {
        channels: 256,
        rate: 1,
        bits: 8,
        data_bytes: None,
        offset: 28,
    };
    assert_same(&rt, head_of(rt.alloc(), behind)?, Ok(head), (4, 0));
    Ok(())
}

/// The head of three samples, where its bytes come in pieces of a size and the call of this number fails.
fn faulty(alloc: Global, piece: u32, call: u32) -> Result<Result<AuHead, AuRefusal>, Fail>
    requires { 1 ≤ piece }
{
    let mut bytes = Vec::from_slice(alloc, b".snd")?;
    bytes.extend_from_slice(&THREE)?;
    let mut desk = MemoryDesk::new(alloc);
    desk.put("file", &bytes)?;
    desk.pieces(Role::Input, piece);
    desk.fail(Role::Input, call)?;
    match desk.begin_read(Role::Input, "file") {
        Ok(()) => Ok(read_au_head(&mut desk)),
        Err(_failed) => Ok(Err(AuRefusal::ReadFault { role: Role::Input })),
    }
}

#[test]
fn pieces_and_faults(rt: HostRuntime) -> Result<(), Fail> {
    let fault = AuRefusal::ReadFault { role: Role::Input };
    for call in 0..5 {
        assert_same(&rt, faulty(rt.alloc(), 7, call)?, Err(fault), (7, call));
    }
    for piece in 1..8 {
        assert_same(&rt, faulty(rt.alloc(), piece, 99)?, Ok(HEAD), (piece, 99));
    }
    Ok(())
}
