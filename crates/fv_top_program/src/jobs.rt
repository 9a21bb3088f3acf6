// The programs of a file of jobs.

ghost use Rattle.std.specs.Prelude.{◌≡◌, ◌⊎◌, ◌≤◌, ◌<◌, ℕ, length, map, sum, All, IfOk, IfErr, OnOk, Ok, Err};
ghost use Rattle.std.specs.List.{sum_by};
ghost use Rattle.fv_diagram.specs.headline.Diagram.{inputs, outputs};
ghost use Rattle.fv_base.specs.declared.limits.TheConstants.{MOST_JOBS};
ghost use Rattle.fv_top_report.specs.declared.refusal.Refusal.{Refusal as Refusals};
ghost use Rattle.fv_top_report.specs.declared.refusal.Refusal.TheVariants.{DelayBudget, NoMemory};
ghost use Rattle.fv_top_report.specs.headline.Lines.{row_of};
ghost use Rattle.fv_top_program.specs.Compiled.{compiled_of, CanPlay};
ghost use Rattle.fv_top_program.specs.Program.{IsProgram};
ghost use Rattle.fv_top_program.specs.Program.{IsRefusedText};
ghost use Rattle.fv_top_program.specs.headline.Racks.{EachIs, RackIs, rack_of, refused_job};
ghost use Rattle.fv_top_program.specs.Kinds.{IsOfKind};
ghost use Rattle.fv_top_program.specs.Reads.{IsRead, programs_in};
ghost use Rattle.fv_top_words.specs.declared.manner.ProgramKind.TheVariants as kinds;
ghost use Rattle.fv_base.specs.declared.limits.TheConstants.{DELAY_BUDGET};

use crate::programs::Read;
use crate::{check_channels, read_program};
use fv_base::limits::DELAY_BUDGET;
use fv_compile::parts_are_whole;
use fv_diagram::Arity;
use fv_jobs::Jobs;
use fv_top_report::Refusal;
use std::alloc::{AllocError, Global};

/// The programs of a file of jobs, in order.
pub fn read_rack(alloc: Global, file: &[u8]) -> Result<Vec<Read>, Refusal>
    ensures found { IfOk result (λ v. RackIs file.now (Ok (rack_of (programs_in v.items)))) }
    ensures plays { IfOk result (λ v. CanPlay (rack_of (programs_in v.items))) }
    ensures read { IfOk result (λ v. All IsRead v.items) }
    ensures few { IfOk result (λ v. length v.items ≤ MOST_JOBS) }
    ensures refused { IfErr result (λ e. (e ≡ NoMemory) ⊎ (IsOfKind kinds.Rack e × RackIs file.now (Err e))) }
{
    // For the prover: programs side by side have the inputs and outputs of all.
    parts_are_whole();
    let jobs = Jobs::read(alloc, file)?;
    let reads = read_jobs(alloc, &jobs)?;
    check_budget(sum_of_delays(&reads))?;
    let arity = arity_of(&reads);
    check_channels(arity.inputs, arity.outputs)?;
    Ok(reads)
}

// The programs of these texts.
fn read_jobs(alloc: Global, jobs: &Jobs<'_>) -> Result<Vec<Read>, Refusal>
    ensures found { IfOk result (λ v. EachIs 0 jobs.now (Ok (programs_in v.items))) }
    ensures read { IfOk result (λ v. All IsRead v.items) }
    ensures long { IfOk result (λ v. length v.items ≡ length jobs.now) }
    ensures refused { IfErr result (λ e. (e ≡ NoMemory) ⊎ (((row_of e).number ≡ 46) × EachIs 0 jobs.now (Err e))) }
{
    let mut reads = Vec::new(alloc);
    for job in 0..jobs.len() {
        let read = read_job(alloc, job as u64, jobs.text(job))?;
        match reads.push(read) {
            Ok(()) => {}
            Err(failed) => return Err(AllocError::from(failed).into()),
        }
    }
    Ok(reads)
}

// The program of the text of this job.
fn read_job(alloc: Global, job: u64, text: &[u8]) -> Result<Read, Refusal>
    ensures found { IfOk result (λ r. IsProgram text.now (compiled_of r.program)) }
    ensures read { IfOk result IsRead }
    ensures refused { IfErr result (λ e. (e ≡ NoMemory) ⊎ ((f : Refusals) × IsRefusedText text.now f × (e ≡ refused_job job f))) }
{
    match read_program(alloc, text) {
        Ok((program, delays)) => Ok(Read { program, delays }),
        Err(Refusal::NoMemory) => Err(Refusal::NoMemory),
        Err(refusal) => Err(Refusal::Job {
            job,
            number: refusal.number(),
        }),
    }
}

// The sum of all their delays.
fn sum_of_delays(reads: &[Read]) -> u64
    requires read { All IsRead reads.now }
    requires few { length reads.now ≤ MOST_JOBS }
    ensures { result ≡ sum_by (λ r. sum r.delays) reads.now }
{
    let mut sum = 0u64;
    for read in reads {
        sum += read.delays.sum();
    }
    sum
}

// Whether all delays together may have this sum.
fn check_budget(sum: u64) -> Result<(), Refusal>
    ensures ok { OnOk result (sum ≤ DELAY_BUDGET) }
    ensures err { IfErr result (λ e. (e ≡ DelayBudget sum) × (DELAY_BUDGET < sum)) }
{
    if sum > DELAY_BUDGET {
        return Err(Refusal::DelayBudget { sum });
    }
    Ok(())
}

/// How many inputs and outputs programs have that were read.
pub fn arity_of(reads: &[Read]) -> Arity
    requires read { All IsRead reads.now }
    requires few { length reads.now ≤ MOST_JOBS }
    ensures inputs { result.inputs ≡ sum_by (λ r. inputs (compiled_of r.program).diagram) reads.now }
    ensures outputs { result.outputs ≡ sum_by (λ r. outputs (compiled_of r.program).diagram) reads.now }
{
    let mut inputs = 0u32;
    let mut outputs = 0u32;
    for read in reads {
        let arity = read.program.diagrams.arity(read.program.root);
        inputs += arity.inputs;
        outputs += arity.outputs;
    }
    Arity { inputs, outputs }
}
