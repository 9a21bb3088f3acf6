// Laws of files of jobs.

ghost use Rattle.fv_jobs.specs.Between.{AreBetween};
ghost use Rattle.fv_jobs.specs.File.{FrontIsEnough, JobsAreWhole};

/// The jobs of a file are the texts between its separating lines, and nothing else is.
pub fn jobs_are_between()
    ensures { AreBetween }
{}

/// The bytes of a file up to one past the limit have the jobs, or the refusal, that the whole file has; where they are jobs, they are
/// the whole file.
pub fn front_is_enough()
    ensures same { FrontIsEnough }
    ensures whole { JobsAreWhole }
{}
