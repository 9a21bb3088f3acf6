// What is played of several programs side by side.

ghost use Rattle.std.specs.Prelude.{◌≡◌, ◌≤◌, length, map, All, IfOk};
ghost use Rattle.fv_engine_render.specs.SideBySide.{AreJobsOf, IsJobOf};
ghost use Rattle.fv_diagram.specs.Limits.TheConstants.{MOST_JOBS};
ghost use Rattle.fv_jobs.specs.headline.Labels.{controls_of};
ghost use Rattle.fv_top_program.specs.Compiled.{compiled_of, CanPlay};
ghost use Rattle.fv_top_program.specs.headline.Racks.{part_of, rack_of};
ghost use Rattle.fv_top_program.specs.Reads.{IsRead, programs_in};
ghost use Rattle.fv_top_program.specs.Playables.{IsPlayable};

use crate::playable::{Playable, graph_of};
use crate::{Read, arity_of};
use fv_compile::{Job, join, parts_are_whole};
use fv_diagram::ControlInfo;
use fv_engine_render::joined_is_graph;
use fv_jobs::append_controls;
use std::alloc::{AllocError, Global};

/// What is played of these programs.
pub(crate) fn rack(alloc: Global, reads: &[Read]) -> Result<Playable, AllocError>
    requires read { All IsRead reads.now }
    requires few { length reads.now ≤ MOST_JOBS }
    requires plays { CanPlay (rack_of (programs_in reads.now)) }
    ensures { IfOk result (IsPlayable (rack_of (programs_in reads.now))) }
{
    // For the prover: the joined graphs are a graph of the diagrams side by side, which have the inputs and outputs of all.
    joined_is_graph();
    parts_are_whole();
    let jobs = jobs_of(alloc, reads)?;
    let graph = join(alloc, &jobs)?;
    let controls = controls_of(alloc, reads)?;
    let arity = arity_of(reads);
    Ok(Playable {
        graph,
        inputs: arity.inputs,
        outputs: arity.outputs,
        controls,
    })
}

// Their graphs, as jobs.
fn jobs_of(alloc: Global, reads: &[Read]) -> Result<Vec<Job>, AllocError>
    requires { All IsRead reads.now }
    ensures { IfOk result (λ v. AreJobsOf v.items (map part_of (programs_in reads.now))) }
{
    let mut jobs = Vec::new(alloc);
    for read in reads {
        let job = job_of(alloc, read)?;
        jobs.push(job)?;
    }
    Ok(jobs)
}

// The graph of a program, as a job.
fn job_of(alloc: Global, read: &Read) -> Result<Job, AllocError>
    requires { IsRead read.now }
    ensures { IfOk result (λ j. IsJobOf j (part_of (compiled_of read.now.program))) }
{
    let graph = graph_of(alloc, read)?;
    let arity = read.program.diagrams.arity(read.program.root);
    Ok(Job {
        graph,
        inputs: arity.inputs,
        controls: read.program.controls.as_slice().len() as u32,
    })
}

// The controls of all, labelled by their jobs.
fn controls_of(alloc: Global, reads: &[Read]) -> Result<Vec<ControlInfo>, AllocError>
    ensures { IfOk result (λ v. v.items ≡ controls_of (map (λ p. p.controls) (programs_in reads.now))) }
{
    let mut controls = Vec::new(alloc);
    for job in 0..reads.len() {
        let read = &reads[job];
        append_controls(
            alloc,
            &mut controls,
            job as u64,
            read.program.controls.as_slice(),
        )?;
    }
    Ok(controls)
}
