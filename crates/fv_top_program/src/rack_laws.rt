// Laws of files of programs.

ghost use Rattle.fv_top_program.specs.Kinds.{IsOneFile, IsSomeFile, IsOneOrOther, FrontIsEnough, ProgramIsWhole};
ghost use Rattle.fv_top_program.specs.Runs.{JobsAnswer, RacksAreJobs, RunsAgree};

use crate::one_program;
use fv_compile::{parts_answer, parts_are_whole};
use fv_diagram::answers_alike;
use fv_jobs::jobs_hear_their_changes;
use fv_rules::evaluates_to_runnables;

/// A file of each kind is one program, or it is refused for one thing, and never both.
pub fn one_file()
    ensures once { IsOneFile }
    ensures some { IsSomeFile }
    ensures either { IsOneOrOther }
{
    // A file of one program is a text.
    one_program();
}

/// The bytes of a file up to one past its limit are the program, or are refused, as the whole file is. Where they are a program,
/// they are the whole file.
pub fn front_is_enough()
    ensures same { FrontIsEnough }
    ensures whole { ProgramIsWhole }
{
    // A file of one program is a text; another is a file of jobs.
    crate::text_laws::front_is_enough();
    fv_jobs::front_is_enough();
}

/// A file of jobs that is a program is its jobs' programs side by side.
pub fn racks_are_jobs()
    ensures { RacksAreJobs }
{}

/// A job answers beside the others what its program answers alone. So it answers the same in every run that agrees on its text, its
/// columns and its changes.
pub fn jobs_answer()
    ensures answer { JobsAnswer }
    ensures agree { RunsAgree }
{
    // A job's outputs are those of its part, which depend on its own columns and changes alone; and its program can run.
    answers_alike();
    jobs_hear_their_changes();
    parts_answer();
    parts_are_whole();
    evaluates_to_runnables();
    one_program();
}
