// Programs that are played in blocks and vectors of several sizes, and what such a run gave. What a run gave is compared by reference,
// so a failure lets go of nothing.

use crate::cases::{Answer, Case, rendered_by};
use fv_engine_render::Ran;
use fv_outside::FreeGate;
use std::alloc::Global;
use std::marker::Sync;
use std::process::Abort;
use std::sync::Wait;
use std::test::Fail;
use std::thread::Threads;

/// A run gave these samples, and this is what ran.
pub(crate) fn assert_answer(rt: &impl Abort, answer: &Answer, samples: &[i32], ran: Ran) {
    assert_eq!(rt; answer.samples.as_slice(), samples);
    assert_eq!(rt; answer.ran, ran);
}

/// What a run gives: these samples, and how many loops ran, where that is said.
#[derive(Clone, Copy)]
pub(crate) struct Wanted<'a> {
    pub(crate) samples: &'a [i32],
    pub(crate) loops: Option<u64>,
}

// A run of this program, with this block, vector and number of workers, gave what was wanted.
fn assert_played(rt: &impl Abort, answer: &Answer, wanted: Wanted<'_>, at: (&str, u32, u32, u32)) {
    let Wanted { samples, loops } = wanted;
    let (program, block, vector, workers) = at;
    let found = answer.samples.as_slice();
    let ran = answer.ran.loops;
    assert!(rt;
        found == samples && (loops.is_none() || loops == Some(ran)),
        "{program} {block} {vector} {workers}: {ran} loops, {found:?}"
    );
}

/// A program gives what is wanted with each of these sizes of a block and of a vector.
pub(crate) fn assert_plays<R: Abort + Threads + Wait + Sync>(
    rt: &R,
    alloc: Global,
    case: &Case,
    sizes: &[(u32, u32)],
    workers: u32,
    wanted: Wanted<'_>,
) -> Result<(), Fail> {
    for (block, vector) in sizes {
        let answer = rendered_by(rt, alloc, case, *block, *vector, workers, &mut FreeGate)?;
        let at = (case.program, *block, *vector, workers);
        assert_played(rt, &answer, wanted, at);
    }
    Ok(())
}
