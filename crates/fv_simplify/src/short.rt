// Whether delays are short.

ghost use Rattle.std.specs.Prelude.{◌≡◌, ◌↔◌, ◌<◌, ◌≤◌, ℕ, false, IsTrue};
ghost use Rattle.fv_signal.specs.declared.signal.Signal.TheVariants.{Delay as delay_node};
ghost use Rattle.fv_signal.specs.headline.Value.{AreAtMost};
ghost use Rattle.fv_simplify.specs.Reducible.{limit};

use fv_base::limits::DELAY_BUDGET;
use fv_signal::{Graph, Signal, SignalId};

/// Whether no greatest number of a delay is over the limit.
pub fn are_short(graph: &Graph) -> bool
    ensures { IsTrue result ↔ AreAtMost limit graph.now }
{
    for place in 0..graph.len() {
        if is_longer(graph.signal(SignalId::new(place))) {
            return false;
        }
    }
    true
}

// Whether the signal is a delay that may go back further than the limit.
fn is_longer(signal: Signal) -> bool
    ensures longer { IsTrue result → (x : ℕ) × (by : ℕ) × (most : ℕ) × (signal ≡ delay_node x by most) × (limit < most) }
    ensures short { (result ≡ false) → (x by most : ℕ) → signal ≡ delay_node x by most → most ≤ limit }
{
    match signal {
        Signal::Delay { x: _, d: _, max } => u64::from(max) > DELAY_BUDGET,
        _ => false,
    }
}
