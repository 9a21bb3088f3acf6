// Jobs.

ghost use Rattle.std.specs.Prelude.{◌↔◌, ◌<◌, IsTrue};
ghost use Rattle.fv_compile.specs.Jobs.{CanBeJoined, ReadsWithin, NamesBelow};

use fv_signal::{Graph, Signal, SignalId};

/// A graph, and how many inputs and controls are its own.
#[derive(Drop)]
pub struct Job {
    pub graph: Graph,
    pub inputs: u32,
    pub controls: u32,
}

/// Whether each graph names only inputs and controls of its own, and the numbers of all of them fit.
pub fn can_be_joined(jobs: &[Job]) -> bool
    ensures { IsTrue result ↔ CanBeJoined jobs.now }
{
    let mut inputs = 0u32;
    let mut controls = 0u32;
    for job in jobs {
        if !reads_within(&job.graph, job.inputs, job.controls) {
            return false;
        }
        match (
            inputs.checked_add(job.inputs),
            controls.checked_add(job.controls),
        ) {
            (Some(more_inputs), Some(more_controls)) => {
                inputs = more_inputs;
                controls = more_controls;
            }
            _ => return false,
        }
    }
    true
}

// Whether the graph names only the first `inputs` inputs and the first `controls` controls.
fn reads_within(graph: &Graph, inputs: u32, controls: u32) -> bool
    ensures { IsTrue result ↔ ReadsWithin inputs controls graph.now }
{
    for place in 0..graph.len() {
        if !names_below(graph.signal(SignalId::new(place)), inputs, controls) {
            return false;
        }
    }
    true
}

// Whether this signal names only inputs and controls below these numbers.
fn names_below(signal: Signal, inputs: u32, controls: u32) -> bool
    ensures { IsTrue result ↔ NamesBelow inputs controls signal }
{
    match signal {
        Signal::Input(k) => k < u64::from(inputs),
        Signal::Control(k) => k < controls,
        Signal::Const(_)
        | Signal::Point { .. }
        | Signal::Delay { .. }
        | Signal::Back { .. }
        | Signal::Member { .. }
        | Signal::Read { .. }
        | Signal::Write { .. } => true,
    }
}
