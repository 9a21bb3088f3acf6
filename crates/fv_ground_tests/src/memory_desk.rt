// A desk in memory, by the trait alone.

use fv_outside::{Desk, Failed, MemoryDesk, Role};
use std::alloc::{AllocError, Global};
use std::test::Fail;

// Takes up to two bytes.
fn two<D: Desk>(desk: &mut D) -> Result<(usize, [u8; 2]), Failed> {
    let mut to = [0; 2];
    let n = desk.read(Role::Input, &mut to)?;
    Ok((n, to))
}

fn begin<D: Desk>(desk: &mut D, name: &str) -> Result<(), Failed> {
    desk.begin_read(Role::Input, name)
}

// Writes forty bytes, so often.
fn write_thrice<D: Desk>(desk: &mut D) -> [Result<usize, Failed>; 3] {
    let _ = desk.begin_write(Role::Input, "o");
    let piece = [7; 40];
    [
        desk.write(Role::Input, &piece),
        desk.write(Role::Input, &piece),
        desk.write(Role::Input, &piece),
    ]
}

// Two files, and room for four bytes of the input.
fn desk_of(alloc: Global) -> Result<MemoryDesk, AllocError> {
    let mut desk = MemoryDesk::new(alloc);
    desk.put("x", &[1, 2, 3])?;
    desk.put("y", &[4])?;
    desk.room(Role::Input, 4)?;
    Ok(desk)
}

#[test]
fn reads(rt: HostRuntime) -> Result<(), Fail> {
    let mut desk = desk_of(rt.alloc())?;
    let before = (two(&mut desk), begin(&mut desk, "z"), begin(&mut desk, "x"));
    assert_eq!(rt; before, (Ok((0, [0, 0])), Err(Failed), Ok(())));
    let first = two(&mut desk);
    desk.put("x", &[9])?;
    let older = [first, two(&mut desk), two(&mut desk)];
    assert_eq!(rt; older, [Ok((2, [1, 2])), Ok((1, [3, 0])), Ok((0, [0, 0]))]);
    let newer = (begin(&mut desk, "x"), two(&mut desk));
    assert_eq!(rt; newer, (Ok(()), Ok((1, [9, 0]))));
    Ok(())
}

#[test]
fn moves_pieces(rt: HostRuntime) -> Result<(), Fail> {
    let mut desk = desk_of(rt.alloc())?;
    desk.pieces(Role::Input, 3);
    assert_eq!(rt; write_thrice(&mut desk), [Ok(3), Ok(1), Err(Failed)]);
    assert_eq!(rt; desk.written(Role::Input), [7; 4].as_slice());
    desk.pieces(Role::Input, 1);
    assert_eq!(rt;
        (begin(&mut desk, "x"), two(&mut desk)),
        (Ok(()), Ok((1, [1, 0])))
    );
    Ok(())
}

#[test]
fn fails(rt: HostRuntime) -> Result<(), Fail> {
    let mut desk = desk_of(rt.alloc())?;
    for call in [3, 1, 0] {
        desk.fail(Role::Input, call)?;
    }
    for want in [Err(Failed), Err(Failed), Ok(()), Err(Failed), Ok(())] {
        assert_eq!(rt; begin(&mut desk, "x"), want);
    }
    Ok(())
}
