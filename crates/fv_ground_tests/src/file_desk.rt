// A desk of real files: what no clause says of it.

use fv_outside::{Desk, Failed, FileDesk, Role};
use std::fs;
use std::process::Abort;
use std::test::Fail;

const NAME: &str = "fv_outside_file_desk_test.bytes";

/// A read of the input gives nothing.
fn expect_no_bytes<D: Desk>(rt: &impl Abort, desk: &mut D, when: &str) {
    let mut to = [0; 4];
    assert_eq!(rt; desk.read(Role::Input, &mut to), Ok(0), "{when}");
}

/// Nothing is begun, and there is no file.
fn expect_nothing<D: Desk>(rt: &impl Abort, desk: &mut D) {
    assert_eq!(rt; desk.begin_read(Role::Input, NAME), Err(Failed), "no file");
    expect_no_bytes(rt, desk, "not begun");
    assert_eq!(rt; desk.write(Role::Output, &[1]), Err(Failed), "not begun");
}

/// Three bytes are written.
fn expect_written<D: Desk>(rt: &impl Abort, desk: &mut D) {
    assert_eq!(rt; desk.begin_write(Role::Output, NAME), Ok(()));
    assert_eq!(rt; desk.write(Role::Output, &[1, 2, 3]), Ok(3));
}

/// They are read, and then their end.
fn expect_read<D: Desk>(rt: &impl Abort, desk: &mut D) {
    let mut to = [0; 4];
    assert_eq!(rt; desk.begin_read(Role::Input, NAME), Ok(()));
    assert_eq!(rt; desk.read(Role::Input, &mut to), Ok(3));
    assert_eq!(rt; to, [1, 2, 3, 0]);
    expect_no_bytes(rt, desk, "its end");
}

/// A file that is begun to be written is emptied.
fn expect_emptied<D: Desk>(rt: &impl Abort, desk: &mut D) {
    assert_eq!(rt; desk.begin_write(Role::Output, NAME), Ok(()));
    assert_eq!(rt; desk.begin_read(Role::Input, NAME), Ok(()));
    expect_no_bytes(rt, desk, "emptied");
}

/// A report is no file, and is printed.
fn expect_report<D: Desk>(rt: &impl Abort, desk: &mut D) {
    assert_eq!(rt; desk.begin_write(Role::Report, NAME), Err(Failed));
    assert_eq!(rt; desk.write(Role::Report, b"printed\n"), Ok(8));
}

#[test]
fn writes_and_reads(rt: HostRuntime) -> Result<(), Fail> {
    let mut desk = FileDesk::new(&rt);
    expect_nothing(&rt, &mut desk);
    expect_written(&rt, &mut desk);
    expect_read(&rt, &mut desk);
    expect_emptied(&rt, &mut desk);
    expect_report(&rt, &mut desk);
    fs::remove_file(&rt, NAME)?;
    Ok(())
}
