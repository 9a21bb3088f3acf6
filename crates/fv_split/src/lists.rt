// The lanes of a plan and of its outputs.

ghost use Rattle.std.specs.Prelude.{◌≡◌, ◌<◌, ℕ, length, map, All, IfOk};
ghost use Rattle.fv_split.specs.inner.Lists.{AreInfos, lane_of as lane_of_output};

use fv_analysis::Histories;
use fv_signal::SignalId;
use fv_split_plan::LaneInfo;
use std::alloc::{AllocError, Global};

/// Each lane's loop and history.
pub(crate) fn infos(
    alloc: Global,
    signals: &[SignalId],
    owners: &[u64],
    histories: &Histories,
) -> Result<Vec<LaneInfo>, AllocError>
    requires owners { length owners.now ≡ length signals.now }
    requires signals { All (λ s. s < length histories.now) signals.now }
    ensures { IfOk result (λ infos. AreInfos signals.now owners.now histories.now (length signals.now) infos.items) }
{
    let mut infos = Vec::with_capacity(alloc, signals.len())?;
    for l in 0..signals.len() {
        infos.push(LaneInfo {
            owner: owners[l],
            history: u64::from(histories.get(signals[l])),
        })?;
    }
    Ok(infos)
}

/// The lane of each output.
pub(crate) fn output_lanes(
    alloc: Global,
    outputs: &[SignalId],
    stands: &[SignalId],
    lanes: &[Option<u64>],
) -> Result<Vec<u64>, AllocError>
    requires outputs { All (λ s. s < length stands.now) outputs.now }
    requires stands { All (λ s. s < length lanes.now) stands.now }
    ensures { IfOk result (λ list. list.items ≡ map (lane_of_output stands.now lanes.now) outputs.now) }
{
    let mut list = Vec::with_capacity(alloc, outputs.len())?;
    for output in outputs {
        let stand = stands[output.number() as usize];
        list.push(lanes[stand.number() as usize].unwrap_or(0))?;
    }
    Ok(list)
}
