// How the rates of a graph are found.

ghost use Rattle.std.specs.Prelude.{◌≡◌, ◌<◌, ◌≤◌, length, map, All, IfOk};
ghost use Rattle.fv_signal.specs.headline.Rates.{rate_in, rate_at, fastest as fastest_of, faster as faster_of, rates as rates_of};
ghost use Rattle.fv_analysis.specs.inner.Stands.{OperandsThere};

use crate::rate_list::Rates;
use fv_signal::{Graph, Rate, Signal, SignalId};
use std::alloc::{AllocError, Global};

/// How often each signal may change.
pub fn rates(alloc: Global, graph: &Graph) -> Result<Rates, AllocError>
    ensures rates { IfOk result (λ r. r ≡ rates_of graph.now.signals) }
    ensures long { IfOk result (λ r. length r ≡ length graph.now.signals) }
{
    let mut all = Vec::new(alloc);
    for place in 0..graph.len() {
        let signal = graph.signal(SignalId::new(place));
        let rate = rate_of(&all, signal);
        all.push(rate)?;
    }
    Ok(Rates::new(all))
}

// The rate of a signal over earlier ones.
fn rate_of(rates: &[Rate], signal: Signal) -> Rate
    requires { OperandsThere (length rates.now) signal }
    ensures { result ≡ rate_in (rate_at rates.now) signal }
{
    match signal {
        Signal::Const(_) => Rate::Constant,
        Signal::Control(_) => Rate::Control,
        Signal::Point { op, args } => fastest(rates, &args[..op.inputs() as usize]),
        Signal::Input(_) => Rate::Sample,
        Signal::Delay { x: _, d: _, max: _ } => Rate::Sample,
        Signal::Back { group: _, i: _ } => Rate::Sample,
        Signal::Member { group: _, i: _ } => Rate::Sample,
        Signal::Read { table: _, r } => rates[r.number() as usize],
        Signal::Write {
            table: _,
            w: _,
            x: _,
            r: _,
        } => Rate::Sample,
    }
}

// The fastest of the rates of these signals.
fn fastest(rates: &[Rate], signals: &[SignalId]) -> Rate
    requires { All (λ a. a < length rates.now) signals.now }
    ensures { result ≡ fastest_of (map (rate_at rates.now) signals.now) }
{
    let mut rate = Rate::Constant;
    for signal in signals {
        rate = faster(rate, rates[signal.number() as usize]);
    }
    rate
}

// The faster of two rates.
fn faster(a: Rate, b: Rate) -> Rate
    ensures { result ≡ faster_of a b }
{
    match (a, b) {
        (Rate::Constant, rate) => rate,
        (Rate::Sample, _) => Rate::Sample,
        (Rate::Control, Rate::Sample) => Rate::Sample,
        (Rate::Control, Rate::Control) => Rate::Control,
        (Rate::Control, Rate::Constant) => Rate::Control,
    }
}
