// Which jobs can be joined.

use crate::joined_graphs::crossed;
use fv_compile::{Job, can_be_joined};
use fv_share::Builder;
use std::process::Abort;
use std::test::Fail;

#[test]
fn an_input_is_another_s(rt: HostRuntime) -> Result<(), Fail> {
    let mut job = crossed(rt.alloc())?;
    job.inputs = 1;
    assert!(rt; !can_be_joined(&[job]));
    Ok(())
}

#[test]
fn a_control_is_another_s(rt: HostRuntime) -> Result<(), Fail> {
    let mut job = crossed(rt.alloc())?;
    job.controls = 1;
    assert!(rt; !can_be_joined(&[job]));
    Ok(())
}

#[test]
fn all_are_too_many(rt: HostRuntime) -> Result<(), Fail> {
    let graph = Builder::new(rt.alloc()).finish(&[])?;
    let most = Job {
        graph,
        inputs: u32::MAX,
        controls: 0,
    };
    let more = crossed(rt.alloc())?;
    assert!(rt; !can_be_joined(&[most, more]));
    Ok(())
}
