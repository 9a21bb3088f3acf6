// Files of jobs.

ghost use Rattle.std.specs.Prelude.{◌≡◌, ◌<◌, ◌≤◌, length, slice_index_or, [], Ok, Err, IfOk, IfErr};
ghost use Rattle.fv_jobs.specs.headline.Jobs.{jobs_in};
ghost use Rattle.fv_jobs.specs.headline.File.{jobs_file};
ghost use Rattle.fv_jobs.specs.File.{IsOfJobs};

use crate::cut_lines::{count, cut};
use crate::refusal::JobsRefusal;
use fv_base::Role;
use fv_base::limits::{LONGEST_TEXT, MOST_JOBS};
use std::alloc::Global;
use std::marker::Model;

/// The texts of a file's jobs, in order. They lie in the file.
#[derive(Debug, Drop)]
pub struct Jobs<'a> {
    texts: Vec<&'a [u8]>,
}

impl<'a> Model for Jobs<'a> {
    ghost use Rattle.std.specs.Prelude.{List, ℕ, map};

    ghost Value = { List (List ℕ) };

    ghost view = { λ j. map (λ t. t.now) j.texts.items };
}

impl<'a> Jobs<'a> {
    /// The jobs of a file. They are numbered from 0.
    pub fn read(alloc: Global, bytes: &'a [u8]) -> Result<Jobs<'a>, JobsRefusal>
        ensures read { IfOk result (λ j. jobs_file bytes.now ≡ Ok j) }
        ensures refused { IfErr result (λ e. IsOfJobs e → jobs_file bytes.now ≡ Err e) }
    {
        if bytes.len() > LONGEST_TEXT {
            return Err(JobsRefusal::TextTooLong {
                role: Role::Program,
            });
        }
        let jobs = count(bytes);
        if jobs > MOST_JOBS {
            return Err(JobsRefusal::RackSize { jobs });
        }
        let texts = cut(alloc, bytes)?;
        Ok(Jobs { texts })
    }

    /// How many there are.
    pub fn len(&self) -> usize
        ensures { result ≡ length self.now }
    {
        self.texts.len()
    }

    /// The text of one.
    pub fn text(&self, job: usize) -> &[u8]
        requires { job < length self.now }
        ensures { result.now ≡ slice_index_or self.now job [] }
    {
        self.texts[job]
    }
}
