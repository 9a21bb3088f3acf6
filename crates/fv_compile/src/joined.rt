// Graphs side by side.

ghost use Rattle.std.specs.Prelude.{IfOk};
ghost use Rattle.fv_compile.specs.Jobs.{CanBeJoined};
ghost use Rattle.fv_compile.specs.Joined.{IsJoined};

use crate::graph_copy::append;
use crate::job::Job;
use fv_share::Builder;
use fv_signal::Graph;
use std::alloc::{AllocError, Global};

/// The graphs of all jobs side by side: the inputs, controls and outputs of each after those of the jobs before it.
pub fn join(alloc: Global, jobs: &[Job]) -> Result<Graph, AllocError>
    requires { CanBeJoined jobs.now }
    ensures { IfOk result (IsJoined jobs.now) }
{
    let mut builder = Builder::new(alloc);
    let mut outputs = Vec::new(alloc);
    let mut inputs = 0u32;
    let mut controls = 0u32;
    for job in jobs {
        let images = append(alloc, &mut builder, job, inputs, controls)?;
        outputs.extend_from_slice(&images)?;
        inputs += job.inputs;
        controls += job.controls;
    }
    builder.finish(&outputs)
}
