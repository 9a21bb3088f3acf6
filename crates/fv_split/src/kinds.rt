// What each signal is to its own code, and to code that reads it.

ghost use Rattle.std.specs.Prelude.{◌≡◌, ◌<◌, ℕ, length, map, All, IfOk, unwrap_or};
ghost use Rattle.fv_components.specs.headline.Reach.{at};
ghost use Rattle.fv_signal.specs.headline.Value.{NamesWithin};
ghost use Rattle.fv_signal.specs.headline.Rates.{rates as rates_of};
ghost use Rattle.fv_split_plan.specs.Separated.{lane_at};
ghost use Rattle.fv_split.specs.inner.Bases.{base_of as base_in, kind_with as kind_in, AreBases, AreKinds};

use fv_analysis::Rates;
use fv_signal::{Graph, Rate, Signal, SignalId};
use fv_split_code::Kind;
use std::alloc::{AllocError, Global};

// What a signal is without its lane. Its number is that of a held value.
fn base_of(
    graph: &Graph,
    stands: &[SignalId],
    lanes: &[Option<u64>],
    node: Signal,
    rate: Rate,
    number: u64,
) -> Kind
    requires names { NamesWithin graph.now node }
    requires stands { length stands.now ≡ length graph.now.signals }
    requires lanes { length lanes.now ≡ length graph.now.signals }
    requires within { All (λ s. s < length lanes.now) stands.now }
    ensures { result ≡ base_in graph.now stands.now lanes.now node rate number }
{
    match rate {
        Rate::Constant => match node {
            Signal::Const(n) => Kind::Number(n),
            _ => Kind::Held(number),
        },
        Rate::Control => Kind::Held(number),
        Rate::Sample => match node {
            Signal::Input(channel) => Kind::Input(channel),
            Signal::Back { group, i } => {
                let definition = graph.group(group)[i as usize];
                let stand = stands[definition.number() as usize];
                Kind::Back(lanes[stand.number() as usize].unwrap_or(0))
            }
            Signal::Const(_) => Kind::Inner,
            Signal::Control(_) => Kind::Inner,
            Signal::Point { op: _, args: _ } => Kind::Inner,
            Signal::Delay { x: _, d: _, max: _ } => Kind::Inner,
            Signal::Member { group: _, i: _ } => Kind::Inner,
            Signal::Read { table: _, r: _ } => Kind::Inner,
            Signal::Write {
                table: _,
                w: _,
                x: _,
                r: _,
            } => Kind::Inner,
        },
    }
}

// What a signal is to code that reads it: a number or a held value is read as one, and any other signal from its lane where it
// has one.
fn kind_with(base: Kind, lane: Option<u64>) -> Kind
    ensures { result ≡ kind_in base lane }
{
    match base {
        Kind::Number(n) => Kind::Number(n),
        Kind::Held(number) => Kind::Held(number),
        _ => match lane {
            Some(lane) => Kind::Lane(lane),
            None => base,
        },
    }
}

/// What each signal is without its lane.
pub(crate) fn bases(
    alloc: Global,
    graph: &Graph,
    stands: &[SignalId],
    rates: &Rates,
    lanes: &[Option<u64>],
    numbers: &[u64],
) -> Result<Vec<Kind>, AllocError>
    requires stands { length stands.now ≡ length graph.now.signals }
    requires rates { length rates.now ≡ length graph.now.signals }
    requires lanes { length lanes.now ≡ length graph.now.signals }
    requires numbers { length numbers.now ≡ length graph.now.signals }
    requires within { All (λ s. s < length graph.now.signals) stands.now }
    ensures { IfOk result (λ bases. AreBases graph.now stands.now rates.now lanes.now numbers.now (length graph.now.signals) bases.items) }
{
    let mut bases = Vec::with_capacity(alloc, stands.len())?;
    for s in 0..graph.len() {
        let id = SignalId::new(s);
        let node = graph.signal(id);
        let number = numbers[s as usize];
        bases.push(base_of(graph, stands, lanes, node, rates.get(id), number))?;
    }
    Ok(bases)
}

/// What each signal is to code that reads it.
pub(crate) fn kinds(
    alloc: Global,
    bases: &[Kind],
    lanes: &[Option<u64>],
) -> Result<Vec<Kind>, AllocError>
    requires { length lanes.now ≡ length bases.now }
    ensures { IfOk result (λ kinds. AreKinds bases.now lanes.now (length bases.now) kinds.items) }
{
    let mut kinds = Vec::with_capacity(alloc, bases.len())?;
    for s in 0..bases.len() {
        kinds.push(kind_with(bases[s], lanes[s]))?;
    }
    Ok(kinds)
}
