// What is found out about a graph before the code of its loops is made.

ghost use Rattle.std.specs.Prelude.{◌≡◌, length, IfOk};
ghost use Rattle.fv_signal.specs.headline.Value.{IsGraph};
ghost use Rattle.fv_signal.specs.headline.Rates.{rates as rates_of};
ghost use Rattle.fv_split.specs.inner.Surveyed.{IsSurveyed};

use crate::cells::cells_of;
use crate::kinds::{bases, kinds};
use fv_analysis::{Rates, stands};
use fv_loopcode::Step;
use fv_signal::{Graph, SignalId};
use fv_split_code::{Survey, held_code};
use fv_split_lanes::assign_lanes;
use fv_split_plan::CellsInfo;
use std::alloc::{AllocError, Global};

/// What is known of the signals of a graph, how many loops there are, the signal of each lane, and what computes the held values.
#[derive(Drop)]
pub struct Surveyed {
    pub survey: Survey,
    pub loops: u64,
    pub signals: Vec<SignalId>,
    pub held: Vec<Step>,
}

/// What is found out about a graph with these rates. Beside it, the loop and the table of each of its cells, which the plan keeps.
pub(crate) fn survey_graph(
    alloc: Global,
    graph: &Graph,
    rates: &Rates,
) -> Result<(Surveyed, Vec<CellsInfo>), AllocError>
    requires graph { IsGraph graph.now }
    requires rates { rates.now ≡ rates_of graph.now.signals }
    ensures { IfOk result (λ found. IsSurveyed graph.now found.0 found.1) }
{
    let stands = stands(alloc, graph)?;
    let places = assign_lanes(alloc, graph, &stands, rates)?;
    let values = held_code(alloc, graph, rates)?;
    let bases = bases(alloc, graph, &stands, rates, &places.lanes, &values.numbers)?;
    let kinds = kinds(alloc, &bases, &places.lanes)?;
    let cells = cells_of(alloc, graph, &places.homes)?;
    let survey = Survey {
        stands,
        bases,
        kinds,
        lanes: places.lanes,
        cells: cells.numbers,
        homes: places.homes,
        owners: places.owners,
    };
    let surveyed = Surveyed {
        survey,
        loops: places.loops,
        signals: places.signals,
        held: values.steps,
    };
    Ok((surveyed, cells.infos))
}
