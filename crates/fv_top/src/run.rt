// The one call that does all that the command does.

ghost use Rattle.std.specs.Prelude.{◌≡◌, map, string_bytes, IfOk, IfErr};
ghost use Rattle.fv_outside.specs.headline.Desk.{GoesOn};
ghost use Rattle.fv_top_words.specs.headline.Commands.{Playing};
ghost use Rattle.fv_top_words.specs.Runs.{AreValid};
ghost use Rattle.fv_top_words.specs.Views.{run_in as run_view};
ghost use Rattle.fv_top.specs.headline.Promise.{IfDone, IfRefused, HasDone, IsRefusedFor, LeavesOutput, CutsShort, IsRead, KeepsOthers, Reports};
ghost use Rattle.fv_top.specs.inner.Promise.{OfWords};
ghost use Rattle.fv_top.specs.headline.Promise.{HandsOn, IsComplete, IsStrict, IsExact};
ghost use Rattle.fv_top.specs.headline.Played.{HasBlocks, HasBlocksSoFar};
ghost use Rattle.fv_top.specs.headline.Jobs.{HasJobs};
ghost use Rattle.fv_top.specs.inner.Running.{EndsDone, Stopped, ReportsLine};

use crate::check::check;
use crate::make::run_make;
use crate::play::play;
use crate::prepare::prepare;
use fv_outside::{Desk, Gate, Role};
use fv_top_program::{jobs_answer, one_file, racks_are_jobs};
use fv_top_report::{Refusal, Status, Tally, report_done, report_refusal};
use fv_top_words::{Job, Run, job_in};
use std::alloc::Global;
use std::sync::Wait;
use std::thread::Threads;

// Reports a refusal. A report that fails changes nothing of the answer.
fn refuse<D: Desk>(desk: &mut D, refusal: &Refusal)
    ensures { ReportsLine refusal.now (D.state desk.old) (D.state desk.new) }
{
    let _ = report_refusal(desk, refusal);
}

// Does what the words ask for, one stage after another.
fn perform<R: Threads + Wait + Sync, D: Desk, G: Gate + Sync>(
    rt: &R,
    alloc: Global,
    words: &[String],
    desk: &mut D,
    gate: &mut G,
) -> Result<Tally, Refusal>
    ensures done { IfOk result (λ tally. EndsDone (map string_bytes words.now) tally.frames (D.state desk.old) (D.state desk.new)) }
    ensures blocks { IfOk result (λ tally. HasBlocks (map string_bytes words.now) tally (D.state desk.old) (G.told gate.old) (G.told gate.new)) }
    ensures stops { IfErr result (Stopped (map string_bytes words.now) (D.state desk.old) (D.state desk.new)) }
    ensures so_far { IfErr result (λ refusal. HasBlocksSoFar (map string_bytes words.now) refusal (D.state desk.old) (D.state desk.new)
        (G.told gate.old) (G.told gate.new)) }
{
    let job = job_in(words)?;
    match job {
        Job::Run(run) => play_run(rt, alloc, run, desk, gate),
        Job::Check { program } => {
            check(alloc, desk, program)?;
            Ok(Tally {
                frames: 0,
                blocks: 0,
                loops: 0,
                loop_runs: 0,
            })
        }
        Job::Make {
            voices,
            frames,
            workers,
        } => {
            let ran = run_make(rt, alloc, desk, voices, frames, workers, gate)?;
            Ok(Tally {
                frames,
                blocks: ran.blocks,
                loops: ran.loops,
                loop_runs: ran.loop_runs,
            })
        }
    }
}

// Plays a program: its input is read and its output written block by block, and reported where that is all of it.
fn play_run<R: Threads + Wait + Sync, D: Desk, G: Gate + Sync>(
    rt: &R,
    alloc: Global,
    run: Run<'_>,
    desk: &mut D,
    gate: &mut G,
) -> Result<Tally, Refusal>
    requires { AreValid (run_view run).settings }
    ensures done { IfOk result (λ tally. OfWords (Playing (run_view run.entry)) (λ words.
        EndsDone words tally.frames (D.state desk.old) (D.state desk.new))) }
    ensures blocks { IfOk result (λ tally. OfWords (Playing (run_view run.entry)) (λ words.
        HasBlocks words tally (D.state desk.old) (G.told gate.old) (G.told gate.new))) }
    ensures stops { IfErr result (λ refusal. OfWords (Playing (run_view run.entry)) (λ words.
        Stopped words (D.state desk.old) (D.state desk.new) refusal)) }
    ensures so_far { IfErr result (λ refusal. OfWords (Playing (run_view run.entry)) (λ words.
        HasBlocksSoFar words refusal (D.state desk.old) (D.state desk.new) (G.told gate.old) (G.told gate.new))) }
{
    let prepared = prepare(alloc, desk, &run)?;
    let frames = prepared.format.frames;
    let ran = play(rt, alloc, desk, prepared, gate)?;
    match report_done(desk, frames) {
        Ok(()) => Ok(Tally {
            frames,
            blocks: ran.blocks,
            loops: ran.loops,
            loop_runs: ran.loop_runs,
        }),
        Err(_) => Err(Refusal::WriteFault { role: Role::Report }),
    }
}

/// Does all that the command does: reads the words, the program, the script and the input, plays the program block by block,
/// writes the output, and reports how it ended; or reads a program, and reports what it is; or makes one, plays it on noise,
/// and reports the sum. `words` begin with the program's own name. The gate is told of each block.
pub fn run_faustvec<R: Threads + Wait + Sync, D: Desk, G: Gate + Sync>(
    rt: &R,
    alloc: Global,
    words: &[String],
    desk: &mut D,
    gate: &mut G,
) -> Status
    // The desk goes on: its files stay, and no count of faults falls.
    ensures goes_on { GoesOn (D.state desk.old) (D.state desk.new) }
    // Nothing is read but the files that the words name for it, nothing written but the output and the report.
    ensures others { KeepsOthers (IsRead (map string_bytes words.now)) (D.state desk.old) (D.state desk.new) }
    // A run that is done has asked for its files in order. It has written exactly the file whose samples are the stream function of
    // the program's diagram, under its script and on its input. A check that is done has reported its numbers.
    ensures done { IfDone result (λ tally. HasDone (map string_bytes words.now) tally.frames (D.state desk.old) (D.state desk.new)) }
    // Of a rack that is done each job's outputs are what its own program answers alone.
    ensures jobs { IfDone result (λ tally. HasJobs (map string_bytes words.now) (D.state desk.old)) }
    // In every block each loop ran once on each vector, after all that it reads; and so it did in the blocks of a refused run.
    ensures blocks { IfDone result (λ tally. HasBlocks (map string_bytes words.now) tally (D.state desk.old) (G.told gate.old) (G.told gate.new)) }
    ensures so_far { IfRefused result (λ refusal. HasBlocksSoFar (map string_bytes words.now) refusal (D.state desk.old) (D.state desk.new)
        (G.told gate.old) (G.told gate.new)) }
    // Every other answer has its stated cause in the first stage that cannot go on, or is want of memory; and the desk was
    // asked for the files up to that stage, in order, and for no other.
    ensures cause { IfRefused result (IsRefusedFor (map string_bytes words.now) (D.state desk.old) (D.state desk.new)) }
    // A fault that was counted is the answer.
    ensures hands_on { IfRefused result (λ refusal. HandsOn refusal (D.state desk.old) (D.state desk.new)) }
    // What a refusal leaves of the output, and what it reports.
    ensures output { IfRefused result (λ refusal. LeavesOutput (map string_bytes words.now) refusal (D.state desk.old) (D.state desk.new)) }
    ensures cut { IfRefused result (λ refusal. CutsShort (map string_bytes words.now) refusal (D.state desk.old) (D.state desk.new)) }
    ensures report { IfRefused result (λ refusal. Reports (map string_bytes words.now) refusal (D.state desk.old) (D.state desk.new)) }
    // What can be done is done, where the desk is sure to answer or no call fails, unless memory runs out.
    ensures complete { IsComplete (map string_bytes words.now) (D.state desk.old) (D.state desk.new) result }
    // Words that are refused, and files that are, are refused for what they hold, with the same exceptions for files.
    ensures exact { IsExact (map string_bytes words.now) result }
    ensures strict { IsStrict (map string_bytes words.now) (D.state desk.old) (D.state desk.new) result }
{
    // For the prover: a file is one program or is refused for one thing; a rack is its jobs side by side, and each answers as
    // alone.
    one_file();
    racks_are_jobs();
    jobs_answer();
    let tally = match perform(rt, alloc, words, desk, gate) {
        Ok(tally) => tally,
        Err(refusal) => {
            refuse(desk, &refusal);
            return Status::Refused(refusal);
        }
    };
    Status::Done(tally)
}
