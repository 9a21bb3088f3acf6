// A caller that knows from the state before the run that it is done.

ghost use Rattle.std.specs.Prelude.{map, string_bytes};
ghost use Rattle.fv_top.specs.Runs.{Run};
ghost use Rattle.fv_top.specs.headline.Promise.{IsDoneOrNoMemory};
ghost use Rattle.fv_top_run_tests.specs.Sure.{IsSure};

use fv_outside::{Desk, Gate};
use fv_top::{Status, run_faustvec};
use std::alloc::Global;
use std::sync::Wait;
use std::thread::Threads;

/// A run whose files are there and can be played, over a desk that tells its bytes, has room, and fails no later call.
pub fn run_sure<R: Threads + Wait + Sync, D: Desk, G: Gate + Sync>(
    rt: &R,
    alloc: Global,
    words: &[String],
    desk: &mut D,
    gate: &mut G,
) -> Status
    ghost run: { Run }
    requires { IsSure (map string_bytes words.now) run (D.state desk.old) }
    ensures { IsDoneOrNoMemory result }
{
    run_faustvec(rt, alloc, words, desk, gate)
}
