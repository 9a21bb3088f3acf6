// The heads of files, or why they have none.

ghost use Rattle.std.specs.Prelude.{◌≤◌};

use crate::examples::{EXTENSIBLE, PLAIN};
use fv_outside::{Desk, MemoryDesk, Role};
use fv_wav::{Head, WaveRefusal, read_head};
use std::alloc::{AllocError, Global};
use std::process::Abort;
use std::test::Fail;

/// One byte that is changed: its place, and its value.
type Change = (usize, u8);

/// A file with one byte changed, and cut at a length.
fn changed(
    alloc: Global,
    file: &[u8],
    change: Change,
    length: usize,
) -> Result<Vec<u8>, AllocError> {
    let mut bytes = Vec::from_slice(alloc, file)?;
    if let Some(byte) = bytes.get_mut(change.0) {
        *byte = change.1;
    }
    bytes.truncate(length);
    Ok(bytes)
}

/// The head of the file on a desk.
pub fn head_on(desk: &mut MemoryDesk) -> Result<Head, WaveRefusal> {
    if desk.begin_read(Role::Input, "file").is_err() {
        return Err(WaveRefusal::ReadFault { role: Role::Input });
    }
    read_head(desk)
}

/// The head of a file of these bytes.
fn head_of(alloc: Global, bytes: &[u8]) -> Result<Result<Head, WaveRefusal>, AllocError> {
    let mut desk = MemoryDesk::new(alloc);
    desk.put("file", bytes)?;
    Ok(head_on(&mut desk))
}

/// What was found is what is wanted.
pub fn assert_same(
    rt: &impl Abort,
    found: Result<Head, WaveRefusal>,
    wanted: Result<Head, WaveRefusal>,
    row: u32,
) {
    assert_eq!(rt; found, wanted, "{row}");
}

/// A file of these bytes has this head, or is refused so.
fn assert_head(
    rt: &impl Abort,
    alloc: Global,
    bytes: &[u8],
    wanted: Result<Head, WaveRefusal>,
) -> Result<(), Fail> {
    assert_eq!(rt; head_of(alloc, bytes)?, wanted);
    Ok(())
}

/// The file with each change, cut at its length, is refused so.
fn expect_refusals(
    rt: &impl Abort,
    alloc: Global,
    file: &[u8],
    rows: &[(Change, usize, WaveRefusal)],
) -> Result<(), Fail> {
    for (change, length, refusal) in rows {
        let bytes = changed(alloc, file, *change, *length)?;
        assert_head(rt, alloc, &bytes, Err(*refusal))?;
    }
    Ok(())
}

const PLAIN_HEAD: Head = Head {
    channels: 1,
    rate: 44100,
    bits: 16,
    data_bytes: 6,
    place: 44,
};

/// The head of the extensible file.
pub const EXTENSIBLE_HEAD: Head = Head {
    channels: 1,
    rate: 44100,
    bits: 24,
    data_bytes: 6,
    place: 80,
};

#[test]
fn heads(rt: HostRuntime) -> Result<(), Fail> {
    let alloc = rt.alloc();
    assert_head(&rt, alloc, &PLAIN, Ok(PLAIN_HEAD))?;
    assert_head(&rt, alloc, &EXTENSIBLE, Ok(EXTENSIBLE_HEAD))
}

// Changes of the plain file, the lengths at which it is cut, and what refuses it.
static PLAIN_REFUSALS: [(Change, usize, WaveRefusal); 13] = [
    ((0, b'X'), 50, WaveRefusal::NotWave { place: 0 }),
    ((8, b'w'), 50, WaveRefusal::NotWave { place: 0 }),
    ((0, b'X'), 11, WaveRefusal::WaveTruncated { place: 11 }),
    ((0, b'R'), 0, WaveRefusal::WaveTruncated { place: 0 }),
    ((0, b'R'), 15, WaveRefusal::WaveTruncated { place: 15 }),
    ((0, b'R'), 43, WaveRefusal::WaveTruncated { place: 43 }),
    ((16, 15), 50, WaveRefusal::WaveFormat { place: 16 }),
    ((20, 3), 50, WaveRefusal::WaveFormat { place: 20 }),
    ((22, 0), 50, WaveRefusal::WaveFormat { place: 22 }),
    ((23, 1), 50, WaveRefusal::WaveFormat { place: 22 }),
    ((32, 3), 50, WaveRefusal::WaveFormat { place: 32 }),
    ((34, 12), 50, WaveRefusal::WaveFormat { place: 34 }),
    ((39, b'e'), 50, WaveRefusal::WaveTruncated { place: 50 }),
];

#[test]
fn plain_files_that_break_a_rule(rt: HostRuntime) -> Result<(), Fail> {
    expect_refusals(&rt, rt.alloc(), &PLAIN, &PLAIN_REFUSALS)
}

// What refuses the extensible file, after one change and cut at a length.
static EXTENSIBLE_REFUSALS: [(Change, usize, WaveRefusal); 4] = [
    ((16, 39), 86, WaveRefusal::WaveFormat { place: 16 }),
    ((44, 2), 86, WaveRefusal::WaveFormat { place: 44 }),
    ((0, b'R'), 59, WaveRefusal::WaveTruncated { place: 59 }),
    ((64, 2), 86, WaveRefusal::WaveTruncated { place: 86 }),
];

#[test]
fn extensible_files_that_break_a_rule(rt: HostRuntime) -> Result<(), Fail> {
    expect_refusals(&rt, rt.alloc(), &EXTENSIBLE, &EXTENSIBLE_REFUSALS)
}

/// A file of these pieces.
fn joined(alloc: Global, front: &[u8], back: &[u8]) -> Result<Vec<u8>, AllocError> {
    let mut bytes = Vec::from_slice(alloc, front)?;
    bytes.extend_from_slice(back)?;
    Ok(bytes)
}

// How many bytes of the plain file stand in front, those after them, and what refuses both.
static MISPLACED: [(usize, &[u8], WaveRefusal); 4] = [
    (
        12,
        b"data\x06\0\0\0\x01\0\xfe\xff\x03\0",
        WaveRefusal::WaveFormat { place: 12 },
    ),
    (36, b"fmt ", WaveRefusal::WaveFormat { place: 36 }),
    (
        40,
        b"\xff\xff\xff\xff",
        WaveRefusal::WaveFormat { place: 40 },
    ),
    (
        36,
        b"JUNK\xff\xff\xff\xff",
        WaveRefusal::WaveTruncated { place: 44 },
    ),
];

#[test]
fn chunks_where_none_may_stand(rt: HostRuntime) -> Result<(), Fail> {
    for (length, back, refusal) in &MISPLACED {
        assert!(rt; *length <= PLAIN.len());
        let bytes = joined(rt.alloc(), &PLAIN[..*length], back)?;
        assert_head(&rt, rt.alloc(), &bytes, Err(*refusal))?;
    }
    Ok(())
}

/// The plain file with `count` empty chunks before its samples.
fn with_chunks(alloc: Global, count: usize) -> Result<Vec<u8>, AllocError> {
    let mut bytes = Vec::new(alloc);
    bytes.extend_from_slice(&PLAIN[..36])?;
    for _ in 0..count {
        bytes.extend_from_slice(b"JUNK\0\0\0\0")?;
    }
    bytes.extend_from_slice(&PLAIN[36..])?;
    Ok(bytes)
}

/// It has this head, or is refused so.
fn assert_chunks(
    rt: &impl Abort,
    alloc: Global,
    count: usize,
    wanted: Result<Head, WaveRefusal>,
) -> Result<(), Fail> {
    let bytes = with_chunks(alloc, count)?;
    assert_head(rt, alloc, &bytes, wanted)
}

#[test]
fn chunks(rt: HostRuntime) -> Result<(), Fail> {
    let head = Head {
        place: 32804,
        ..PLAIN_HEAD
    };
    assert_chunks(&rt, rt.alloc(), 4095, Ok(head))?;
    let more = WaveRefusal::WaveChunks { place: 32796 };
    assert_chunks(&rt, rt.alloc(), 4096, Err(more))
}

/// The head of the plain file, where the call of Input with this number fails.
fn faulty(alloc: Global, call: u32) -> Result<Result<Head, WaveRefusal>, AllocError> {
    let mut desk = MemoryDesk::new(alloc);
    desk.put("file", &PLAIN)?;
    desk.fail(Role::Input, call)?;
    Ok(head_on(&mut desk))
}

#[test]
fn faults(rt: HostRuntime) -> Result<(), Fail> {
    let fault = WaveRefusal::ReadFault { role: Role::Input };
    for call in 0..13 {
        let wanted = if call < 12 {
            Err(fault)
        } else {
            Ok(PLAIN_HEAD)
        };
        assert_same(&rt, faulty(rt.alloc(), call)?, wanted, call);
    }
    Ok(())
}

/// The head of the extensible file, where its bytes come in pieces of a size.
fn in_pieces(alloc: Global, size: u32) -> Result<Result<Head, WaveRefusal>, AllocError>
    requires { 1 ≤ size }
{
    let mut desk = MemoryDesk::new(alloc);
    desk.put("file", &EXTENSIBLE)?;
    desk.pieces(Role::Input, size);
    Ok(head_on(&mut desk))
}

#[test]
fn short_reads(rt: HostRuntime) -> Result<(), Fail> {
    for size in 1..4 {
        assert_same(&rt, in_pieces(rt.alloc(), size)?, Ok(EXTENSIBLE_HEAD), size);
    }
    Ok(())
}
