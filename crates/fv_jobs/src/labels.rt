// The labels of the controls of several jobs.

ghost use Rattle.std.specs.Prelude.{◌≡◌, ◌++◌, IfOk, OnOk};
ghost use Rattle.fv_jobs.specs.headline.Labels.{label_of, renamed, labelled};

use fv_diagram::{ControlInfo, Label};
use itoa::Buffer;
use std::alloc::{AllocError, Global};

/// Appends a job's controls, each under its label among all jobs: the job's number, `/` and its own label. Where memory runs out
/// some of them may be there.
pub fn append_controls(
    alloc: Global,
    all: &mut Vec<ControlInfo>,
    job: u64,
    controls: &[ControlInfo],
) -> Result<(), AllocError>
    ensures { OnOk result (all.new.items ≡ all.old.items ++ labelled job controls.now) }
{
    for control in controls {
        let labelled = renamed(alloc, job, control)?;
        all.push(labelled)?;
    }
    Ok(())
}

// A job's control under its label among all jobs.
fn renamed(alloc: Global, job: u64, control: &ControlInfo) -> Result<ControlInfo, AllocError>
    ensures { IfOk result (λ c. c ≡ renamed job control.now) }
{
    let label = label_of(alloc, job, control.label.bytes())?;
    Ok(ControlInfo {
        kind: control.kind,
        label,
        init: control.init,
        min: control.min,
        max: control.max,
    })
}

// The label of a job's control among all jobs.
fn label_of(alloc: Global, job: u64, own: &[u8]) -> Result<Label, AllocError>
    ensures { IfOk result (λ l. l ≡ label_of job own.now) }
{
    let mut buffer = Buffer::new();
    let mut bytes = Vec::from_slice(alloc, buffer.format(job).as_bytes())?;
    bytes.extend_from_slice(b"/")?;
    bytes.extend_from_slice(own)?;
    Label::new(alloc, &bytes)
}
