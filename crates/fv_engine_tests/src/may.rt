// Whether an engine may be prepared of a graph's plan.

ghost use Rattle.std.specs.Prelude.{◌≡◌, ℕ, ◌<◌, ◌≤◌, false, length, IsTrue};
ghost use Rattle.fv_base.specs.declared.limits.TheConstants.{DELAY_BUDGET};
ghost use Rattle.fv_signal.specs.headline.Rates.{NamesControl};
ghost use Rattle.fv_split_plan.specs.headline.Plans.{NamesChannel};
ghost use Rattle.fv_split_plan.specs.headline.View.{lane_info};
ghost use Rattle.fv_engine_tests.specs.Runs.{IsNamedWithin};

use fv_base::limits::DELAY_BUDGET;
use fv_signal::{Graph, Signal, SignalId};
use fv_split_plan::Plan;

// Whether a signal is an input or a control beyond the first ones of these numbers.
fn is_beyond(signal: Signal, channels: u32, controls: usize) -> bool
    ensures { result ≡ false → IsNamedWithin channels controls signal }
{
    match signal {
        Signal::Input(channel) => channel >= u64::from(channels),
        Signal::Control(control) => control as usize >= controls,
        Signal::Const(_)
        | Signal::Point { .. }
        | Signal::Delay { .. }
        | Signal::Back { .. }
        | Signal::Member { .. }
        | Signal::Read { .. }
        | Signal::Write { .. } => false,
    }
}

// Whether the graph names an input or a control beyond the first ones of these numbers.
fn names_beyond(graph: &Graph, channels: u32, controls: usize) -> bool
    ensures inputs { result ≡ false → (i : ℕ) → NamesChannel graph.now i → i < channels }
    ensures controls { result ≡ false → (k : ℕ) → NamesControl graph.now k → k < controls }
{
    for place in 0..graph.len() {
        let signal = graph.signal(SignalId::new(place));
        let beyond = is_beyond(signal, channels, controls);
        if beyond {
            return true;
        }
    }
    false
}

// Whether a lane keeps more history than an engine allows.
fn histories_beyond(plan: &Plan) -> bool
    ensures { result ≡ false → (l : ℕ) → l < length plan.now.lanes → (lane_info plan.now l).history ≤ DELAY_BUDGET }
{
    let lanes = plan.lanes();
    for i in 0..lanes.len() {
        if lanes[i].history > DELAY_BUDGET {
            return true;
        }
    }
    false
}

/// Whether an engine may be prepared of a graph's plan, for frames of `width` numbers in and out and for `controls` controls.
pub(crate) fn may_be_prepared(graph: &Graph, plan: &Plan, width: u32, controls: usize) -> bool
    ensures loops { IsTrue result → 0 < plan.now.loops }
    ensures outputs { IsTrue result → length plan.now.outputs ≡ width }
    ensures inputs { IsTrue result → (i : ℕ) → NamesChannel graph.now i → i < width }
    ensures controls { IsTrue result → (k : ℕ) → NamesControl graph.now k → k < controls }
    ensures histories { IsTrue result → (l : ℕ) → l < length plan.now.lanes → (lane_info plan.now l).history ≤ DELAY_BUDGET }
{
    if plan.loops() == 0 || plan.outputs().len() != width as usize {
        return false;
    }
    let beyond = names_beyond(graph, width, controls);
    if beyond {
        return false;
    }
    let long = histories_beyond(plan);
    !long
}
