// Many bytes, over a desk that makes short pieces and one that fails.

use fv_outside::{
    Desk, Failed, MemoryDesk, ReadError, Role, fill, read_up_to, skip, write_all, write_pieces,
};
use std::alloc::{AllocError, Global};
use std::test::Fail;

// A file of seven bytes that is begun, read and written in pieces of two.
fn desk_of(alloc: Global) -> Result<MemoryDesk, AllocError> {
    let mut desk = MemoryDesk::new(alloc);
    desk.put("x", &[1, 2, 3, 4, 5, 6, 7])?;
    desk.room(Role::Input, 6)?;
    desk.pieces(Role::Input, 2);
    let _ = desk.begin_read(Role::Input, "x");
    Ok(desk)
}

// Fills three bytes.
fn three<D: Desk>(desk: &mut D) -> Result<(usize, [u8; 3]), Failed> {
    let mut to = [0; 3];
    let n = fill(desk, Role::Input, &mut to)?;
    Ok((n, to))
}

fn pass<D: Desk>(desk: &mut D, count: u64) -> Result<u64, Failed> {
    skip(desk, Role::Input, count)
}

// The next bytes, at most `count`.
fn next<D: Desk>(alloc: Global, desk: &mut D, count: usize) -> Result<Vec<u8>, ReadError> {
    read_up_to(alloc, desk, Role::Input, count)
}

fn write<D: Desk>(desk: &mut D, bytes: &[u8]) -> Result<(), Failed> {
    write_all(desk, Role::Input, bytes)
}

fn write_two<D: Desk>(desk: &mut D, first: &[u8], second: &[u8]) -> Result<(), Failed> {
    write_pieces(desk, Role::Input, &[first, second])
}

#[test]
fn reads_in_pieces(rt: HostRuntime) -> Result<(), Fail> {
    let mut desk = desk_of(rt.alloc())?;
    let front = (three(&mut desk), pass(&mut desk, 3));
    assert_eq!(rt; front, (Ok((3, [1, 2, 3])), Ok(3)));
    let rest = (three(&mut desk), pass(&mut desk, 9));
    assert_eq!(rt; rest, (Ok((1, [7, 0, 0])), Ok(0)));
    let mut desk = desk_of(rt.alloc())?;
    let front = next(rt.alloc(), &mut desk, 3)?;
    let rest = next(rt.alloc(), &mut desk, 9)?;
    assert_eq!(rt; front.as_slice(), [1, 2, 3].as_slice());
    assert_eq!(rt; rest.as_slice(), [4, 5, 6, 7].as_slice());
    Ok(())
}

#[test]
fn writes_in_pieces(rt: HostRuntime) -> Result<(), Fail> {
    let mut desk = desk_of(rt.alloc())?;
    let written = (
        write(&mut desk, &[9; 3]),
        write_two(&mut desk, &[8], &[7; 3]),
    );
    assert_eq!(rt; written, (Ok(()), Err(Failed)));
    assert_eq!(rt; desk.written(Role::Input), [9, 9, 9, 8, 7, 7].as_slice());
    Ok(())
}

#[test]
fn hands_a_failure_on(rt: HostRuntime) -> Result<(), Fail> {
    let mut desk = desk_of(rt.alloc())?;
    for call in [2, 4, 6] {
        desk.fail(Role::Input, call)?;
    }
    let taken = (three(&mut desk), pass(&mut desk, 7));
    assert_eq!(rt; taken, (Err(Failed), Err(Failed)), "calls 1 to 4");
    let read = next(rt.alloc(), &mut desk, 7);
    assert!(rt; matches!(read, Err(ReadError::Failed)), "calls 5 and 6");
    assert_eq!(rt; write(&mut desk, &[9]), Ok(()), "call 7");
    Ok(())
}
