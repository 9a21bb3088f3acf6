// What the words ask for.

ghost use Rattle.std.specs.Prelude.{◌≡◌, map, string_bytes, Some, IfOk};
ghost use Rattle.fv_top_words.specs.headline.Commands.{job_in, command_in, check_of, made, make_of};
ghost use Rattle.fv_top_words.specs.Views.{texts_in, plain_in, job_answered, IsJobInRange};

use crate::cause::Cause;
use crate::numbers::number_in;
use crate::run::{Run, by_kinds, of_jobs, run_of, within_or};
use crate::texts::{Plain, Texts, texts_of};
use fv_base::limits::{MOST_MADE, MOST_VOICES, MOST_WORKERS};

/// What is to be done.
#[derive(Clone, Copy)]
pub enum Job<'a> {
    /// A program is run.
    Run(Run<'a>),
    /// A program is compiled alone.
    Check {
        program: &'a str,
    },
    /// A program and an input are made, and run.
    Make {
        voices: u32,
        frames: u32,
        workers: u32,
    },
}

/// What the words ask for, the program's own name first, or the first cause to refuse them.
pub fn job_in(words: &[String]) -> Result<Job<'_>, Cause>
    ensures job { job_answered result ≡ job_in (map string_bytes words.now) }
    ensures ranges { IfOk result IsJobInRange }
{
    let Some((_, words)) = words.split_first() else {
        return Err(Cause::Form);
    };
    let Some((command, words)) = words.split_first() else {
        return Err(Cause::Form);
    };
    let Some(texts) = texts_of(words) else {
        return Err(Cause::Form);
    };
    command_in(command.as_str(), &texts)
}

// What these texts ask of a command.
fn command_in<'a>(command: &str, texts: &Texts<'a>) -> Result<Job<'a>, Cause>
    ensures job { job_answered result ≡ command_in command.now (Some (texts_in texts.now)) }
    ensures ranges { IfOk result IsJobInRange }
{
    match command {
        "run" => Ok(Job::Run(run_of(texts)?)),
        "au" => Ok(Job::Run(by_kinds(run_of(texts)?))),
        "rack" => Ok(Job::Run(of_jobs(run_of(texts)?))),
        _ if texts.has_options() => Err(Cause::Form),
        "check" => check_of(&texts.plain),
        "make" => make_of(&texts.plain),
        _ => Err(Cause::Form),
    }
}

fn check_of<'a>(plain: &Plain<'a>) -> Result<Job<'a>, Cause>
    ensures job { job_answered result ≡ check_of (plain_in plain.now) }
    ensures ranges { IfOk result IsJobInRange }
{
    match *plain {
        Plain::One(program) => Ok(Job::Check { program }),
        _ => Err(Cause::Form),
    }
}

fn make_of<'a>(plain: &Plain<'a>) -> Result<Job<'a>, Cause>
    ensures job { job_answered result ≡ make_of (plain_in plain.now) }
    ensures ranges { IfOk result IsJobInRange }
{
    let Plain::Three(voices, frames, workers) = *plain else {
        return Err(Cause::Form);
    };
    let voices = number_in(voices)?;
    let frames = number_in(frames)?;
    let workers = number_in(workers)?;
    make(voices, frames, workers)
}

fn make<'a>(voices: u64, frames: u64, workers: u64) -> Result<Job<'a>, Cause>
    ensures job { job_answered result ≡ made voices frames workers }
    ensures ranges { IfOk result IsJobInRange }
{
    let voices = within_or(Some(voices), 1, MOST_VOICES, 1)?;
    let frames = within_or(Some(frames), 1, MOST_MADE, 1)?;
    let workers = within_or(Some(workers), 1, MOST_WORKERS, 1)?;
    Ok(Job::Make {
        voices,
        frames,
        workers,
    })
}
