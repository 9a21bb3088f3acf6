// Which loops read which others.

ghost use Rattle.std.specs.Prelude.{◌≡◌, ◌<◌, ◌≤◌, ℕ, length, All, IfOk, OnOk, IsTrue};
ghost use Rattle.fv_components.specs.headline.Reach.{at};
ghost use Rattle.fv_split_code.specs.Emitted.{code_in};
ghost use Rattle.fv_split.specs.inner.ToldReads.{was_told as was_told_by, with_read, LoadsAmong, reads_of_step, reads_of_steps, reads_of_loops, view_of};

use fv_loopcode::Step;
use fv_outside::Reads;
use std::alloc::{AllocError, Global};

/// What is told so far, and for each loop the last one that was told to read it.
#[derive(Drop)]
pub struct ToldReads {
    pub reads: Vec<Reads>,
    pub last: Vec<Option<u64>>,
}

// Whether the loop was told to read the one whose last reader this is.
fn was_told(last: Option<u64>, reader: u64) -> bool
    ensures { result ≡ was_told_by last reader }
{
    match last {
        Some(last) => last == reader,
        None => false,
    }
}

impl ToldReads {
    // Notes that a loop reads another one. Each such pair is told once.
    fn tell(&mut self, reader: u64, source: u64) -> Result<(), AllocError>
        requires { source < length self.old.last.items }
        ensures { OnOk result (view_of self.new ≡ with_read reader source (view_of self.old)) }
    {
        if source == reader || was_told(self.last[source as usize], reader) {
            return Ok(());
        }
        self.reads.push(Reads { reader, source })?;
        self.last[source as usize] = Some(reader);
        Ok(())
    }

    // Notes what a step of a loop's code reads.
    fn step(&mut self, owners: &[u64], reader: u64, step: Step) -> Result<(), AllocError>
        requires lane { LoadsAmong (length owners.now) step }
        requires owners { All (λ j. j < length self.old.last.items) owners.now }
        ensures { OnOk result (view_of self.new ≡ reads_of_step owners.now reader (view_of self.old) step) }
    {
        match step {
            Step::Load {
                lane,
                back: _,
                max: _,
            } => self.tell(reader, owners[lane as usize]),
            Step::Number(_) => Ok(()),
            Step::Held(_) => Ok(()),
            Step::Input(_) => Ok(()),
            Step::Point { op: _, args: _ } => Ok(()),
            Step::Append { lane: _, value: _ } => Ok(()),
            Step::Read { table: _, arg: _ } => Ok(()),
            Step::Write { cells: _, args: _ } => Ok(()),
        }
    }

    // Notes what a loop's code reads.
    fn steps(&mut self, owners: &[u64], reader: u64, steps: &[Step]) -> Result<(), AllocError>
        requires lanes { All (λ s. LoadsAmong (length owners.now) s) steps.now }
        requires owners { All (λ j. j < length self.old.last.items) owners.now }
        ensures { OnOk result (view_of self.new ≡ reads_of_steps owners.now reader (view_of self.old) steps.now) }
    {
        for step in steps {
            self.step(owners, reader, *step)?;
        }
        Ok(())
    }
}

/// Which loops read lanes of which others.
pub(crate) fn reads(
    alloc: Global,
    codes: &[Vec<Step>],
    owners: &[u64],
) -> Result<Vec<Reads>, AllocError>
    requires lanes { (j : ℕ) → All (λ s. LoadsAmong (length owners.now) s) (code_in codes.now j) }
    requires owners { All (λ j. j < length codes.now) owners.now }
    ensures { IfOk result (λ reads. reads.items ≡ (reads_of_loops owners.now codes.now (length codes.now)).reads) }
{
    let mut told_reads = ToldReads {
        reads: Vec::new(alloc),
        last: vec![in alloc; None; codes.len()]?,
    };
    for j in 0..codes.len() {
        told_reads.steps(owners, j as u64, &codes[j])?;
    }
    let ToldReads { reads, last: _ } = told_reads;
    Ok(reads)
}
