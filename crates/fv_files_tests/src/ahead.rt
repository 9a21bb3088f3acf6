// A desk that looks ahead.

ghost use Rattle.std.specs.Prelude.{◌≤◌};

use fv_au::Ahead;
use fv_outside::{Desk, Failed, MemoryDesk, Role, fill};
use std::alloc::Global;
use std::test::Fail;

/// A desk whose input is a file of these bytes.
fn input_of(alloc: Global, bytes: &[u8]) -> Result<MemoryDesk, Fail> {
    let mut desk = MemoryDesk::new(alloc);
    desk.put("file", bytes)?;
    Ok(desk)
}

// What two looks at the input of a desk answer, how many bytes are then filled, and they.
type Left = (Looked, Looked, Result<usize, Failed>, [u8; 6]);

// What is left on a desk after two looks.
fn left_behind_looks(desk: &mut MemoryDesk) -> Left {
    let mut ahead = Ahead::new(desk);
    let mut all = [0; 6];
    if ahead.begin_read(Role::Input, "file").is_err() {
        return (Err(Failed), Err(Failed), Err(Failed), all);
    }
    let first = ahead.peek();
    let second = ahead.peek();
    let count = fill(&mut ahead, Role::Input, &mut all);
    (first, second, count, all)
}

// Files, and what is left of each: all of its bytes.
static LEFT: [(&[u8], Left); 2] = [
    (
        b".snd!",
        (Ok(Some(*b".snd")), Ok(Some(*b".snd")), Ok(5), *b".snd!\0"),
    ),
    (b"abc", (Ok(None), Ok(None), Ok(3), *b"abc\0\0\0")),
];

#[test]
fn bytes_stay_left_behind_a_look(rt: HostRuntime) -> Result<(), Fail> {
    for (file, left) in &LEFT {
        let mut desk = input_of(rt.alloc(), file)?;
        assert_eq!(rt; left_behind_looks(&mut desk), *left);
    }
    Ok(())
}

/// The bytes of a desk's input after a look, read `size` at a time, and how many they are.
fn read_all(desk: &mut MemoryDesk, size: usize) -> (usize, [u8; 16])
    requires size { 1 ≤ size }
    requires few { size ≤ 8 }
{
    let mut ahead = Ahead::new(desk);
    let mut bytes = [0; 16];
    let mut count = 0;
    if ahead.begin_read(Role::Input, "file").is_err() || ahead.peek().is_err() {
        return (count, bytes);
    }
    for _ in 0..12 {
        if count <= 16 - size {
            let part = &mut bytes[count..count + size];
            count += fill(&mut ahead, Role::Input, part).unwrap_or(0);
        }
    }
    (count, bytes)
}

/// The bytes of the file of ten digits after a look, read `size` at a time, where they come in pieces of `piece`; and how many they
/// are.
fn read_by(alloc: Global, size: usize, piece: u32) -> Result<(usize, [u8; 16]), Fail>
    requires size { 1 ≤ size }
    requires few { size ≤ 8 }
    requires piece { 1 ≤ piece }
{
    let mut desk = input_of(alloc, b"0123456789")?;
    desk.pieces(Role::Input, piece);
    Ok(read_all(&mut desk, size))
}

#[test]
fn reads_behind_a_look(rt: HostRuntime) -> Result<(), Fail> {
    for size in 1..7 {
        for piece in 1..6 {
            let (count, bytes) = read_by(rt.alloc(), size, piece)?;
            assert!(rt;
                count == 10 && bytes.starts_with(b"0123456789"),
                "{size} {piece}"
            );
        }
    }
    Ok(())
}

/// What a look, a reading of one byte and one of four answer, where the call of this number fails.
fn faulty(alloc: Global, call: u32) -> Result<(Looked, Taken, Taken), Fail> {
    let mut desk = input_of(alloc, b"0123456789")?;
    desk.fail(Role::Input, call)?;
    Ok(look_and_take(&mut desk))
}

/// What a look, a reading of one byte and one of four answer on a desk.
fn look_and_take(desk: &mut MemoryDesk) -> (Looked, Taken, Taken) {
    let mut ahead = Ahead::new(desk);
    let _ = ahead.begin_read(Role::Input, "file");
    let looked = ahead.peek();
    let one = take_next(&mut ahead, 1);
    let four = take_next(&mut ahead, 4);
    (looked, one, four)
}

/// What a look answers.
type Looked = Result<Option<[u8; 4]>, Failed>;

/// What a reading answers: the first byte.
type Taken = Result<u8, Failed>;

/// The first of the next `count` bytes, all of which are taken.
fn take_next<D: Desk>(desk: &mut D, count: usize) -> Taken
    requires some { 1 ≤ count }
    requires few { count ≤ 4 }
{
    let mut part = [0; 4];
    fill(desk, Role::Input, &mut part[..count])?;
    Ok(part[0])
}

// The number of the call that fails, and what is answered.
static FAILING: [(u32, (Looked, Taken, Taken)); 4] = [
    (1, (Err(Failed), Ok(b'0'), Ok(b'1'))),
    (2, (Ok(Some(*b"0123")), Err(Failed), Ok(b'0'))),
    (3, (Ok(Some(*b"0123")), Ok(b'0'), Err(Failed))),
    (4, (Ok(Some(*b"0123")), Ok(b'0'), Ok(b'1'))),
];

#[test]
fn each_call_fails(rt: HostRuntime) -> Result<(), Fail> {
    for (call, wanted) in &FAILING {
        assert_eq!(rt; faulty(rt.alloc(), *call)?, *wanted, "{call}");
    }
    Ok(())
}
