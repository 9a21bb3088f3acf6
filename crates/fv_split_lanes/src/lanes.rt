// Where each signal is computed.

ghost use Rattle.std.specs.Prelude.{◌≡◌, ◌↔◌, ◌<◌, ℕ, length, All, IfOk, OnOk, IsTrue, false};
ghost use Rattle.fv_signal.specs.headline.Value.{IsGraph};
ghost use Rattle.fv_signal.specs.headline.Rates.{rates as rates_of};
ghost use Rattle.fv_signal.specs.declared.rate.Rate.TheVariants as rate;
ghost use Rattle.fv_components.specs.headline.Reach.{at};
ghost use Rattle.fv_analysis.specs.headline.Stands.{stands_of};
ghost use Rattle.fv_split_plan.specs.headline.Separated.{IsComputed};
ghost use Rattle.fv_split_lanes.specs.Placed.{ArePlaced};
ghost use Rattle.fv_split_lanes.specs.inner.Numbered.{AddsSignal, AreNumbered, AreLooped, AreInner};

use crate::home::homes;
use crate::mark::{is_computed, separated};
use crate::rank::ranks;
use crate::reader::readers;
use crate::rows::{links, reads};
use fv_analysis::Rates;
use fv_components::components;
use fv_signal::{Graph, Rate, Signal, SignalId};
use std::alloc::{AllocError, Global};

/// The lanes and loops of a graph, and the loop in whose code each signal is computed.
#[derive(Drop)]
pub struct Lanes {
    /// The lane of each signal, if it has one.
    pub lanes: Vec<Option<u64>>,
    /// The signal of each lane.
    pub signals: Vec<SignalId>,
    /// The loop of each lane.
    pub owners: Vec<u64>,
    /// How many loops there are.
    pub loops: u64,
    /// The loop in whose code each signal is computed, or a number that is no loop's.
    pub homes: Vec<u64>,
}

/// The signals that were numbered so far: the lane of each, each lane's signal and loop, and the loop of each signal with a lane.
#[derive(Drop)]
pub struct Numbering {
    pub lanes: Vec<Option<u64>>,
    pub signals: Vec<SignalId>,
    pub owners: Vec<u64>,
    pub places: Vec<u64>,
}

impl Numbering {
    // Adds one signal more, which has a lane of a loop or none.
    fn add(
        &mut self,
        signal: SignalId,
        separated: bool,
        owner: u64,
        none: u64,
    ) -> Result<(), AllocError>
        ensures { OnOk result (AddsSignal self.old signal separated owner none self.new) }
    {
        if separated {
            self.lanes.push(Some(self.signals.len() as u64))?;
            self.signals.push(signal)?;
            self.owners.push(owner)?;
            self.places.push(owner)?;
        } else {
            self.lanes.push(None)?;
            self.places.push(none)?;
        }
        Ok(())
    }
}

// Lanes for the separated signals, in their order. The components' ranks say their loops.
fn number(
    alloc: Global,
    marks: &[bool],
    numbers: &[u64],
    ranks: &[u64],
) -> Result<Numbering, AllocError>
    requires numbers { length numbers.now ≡ length marks.now }
    requires within { All (λ c. c < length marks.now) numbers.now }
    requires ranks { length marks.now < length ranks.now }
    ensures { IfOk result (λ n. AreNumbered marks.now numbers.now ranks.now n) }
{
    let none = ranks[marks.len()];
    let mut numbering = Numbering {
        lanes: Vec::with_capacity(alloc, marks.len())?,
        signals: Vec::new(alloc),
        owners: Vec::new(alloc),
        places: Vec::with_capacity(alloc, marks.len())?,
    };
    for s in 0..marks.len() {
        let owner = ranks[numbers[s] as usize];
        numbering.add(SignalId::new(s as u64), marks[s], owner, none)?;
    }
    Ok(numbering)
}

// Whether a signal is computed at each sample, and is not separated.
fn is_inner(node: Signal, often: Rate, separated: bool) -> bool
    ensures { IsTrue result ↔ (IsComputed node × (often ≡ rate.Sample) × (separated ≡ false)) }
{
    is_computed(node) && matches!(often, Rate::Sample) && !separated
}

// Which signals are computed inside the code that reads them.
fn inner(
    alloc: Global,
    graph: &Graph,
    rates: &Rates,
    marks: &[bool],
) -> Result<Vec<bool>, AllocError>
    requires rates { length rates.now ≡ length graph.now.signals }
    requires marks { length marks.now ≡ length graph.now.signals }
    ensures { IfOk result (λ inner. AreInner graph.now rates.now marks.now (length graph.now.signals) inner.items) }
{
    let mut inner = Vec::with_capacity(alloc, marks.len())?;
    for s in 0..graph.len() {
        let id = SignalId::new(s);
        inner.push(is_inner(graph.signal(id), rates.get(id), marks[s as usize]))?;
    }
    Ok(inner)
}

// The lanes of the separated signals, and how many loops there are. Loops are the components that have a lane.
fn numbered(alloc: Global, graph: &Graph, marks: &[bool]) -> Result<(Numbering, u64), AllocError>
    requires graph { IsGraph graph.now }
    requires marks { length marks.now ≡ length graph.now.signals }
    ensures { IfOk result (λ found. AreLooped graph.now marks.now found.0 found.1) }
{
    let links = links(alloc, graph)?;
    let numbers = components(alloc, &links)?;
    let ranks = ranks(alloc, &numbers, marks)?;
    let loops = ranks[marks.len()];
    let numbering = number(alloc, marks, &numbers, &ranks)?;
    Ok((numbering, loops))
}

/// The lanes and loops of a graph, and where each signal is computed.
pub fn assign_lanes(
    alloc: Global,
    graph: &Graph,
    stands: &[SignalId],
    rates: &Rates,
) -> Result<Lanes, AllocError>
    requires graph { IsGraph graph.now }
    requires stands { stands.now ≡ stands_of graph.now }
    requires within { All (λ s. s < length graph.now.signals) stands.now }
    requires rates { rates.now ≡ rates_of graph.now.signals }
    ensures { IfOk result (λ places. ArePlaced graph.now places) }
{
    let reads = reads(alloc, graph, stands)?;
    let readers = readers(alloc, &reads)?;
    let marks = separated(alloc, graph, stands, rates, &readers)?;
    let inner = inner(alloc, graph, rates, &marks)?;
    let (numbering, loops) = numbered(alloc, graph, &marks)?;
    let homes = homes(alloc, &reads, &inner, &numbering.places, loops)?;
    let Numbering {
        lanes,
        signals,
        owners,
        places: _,
    } = numbering;
    Ok(Lanes {
        lanes,
        signals,
        owners,
        loops,
        homes,
    })
}
