// How a graph is split.

ghost use Rattle.std.specs.Prelude.{◌≡◌, length, IfOk};
ghost use Rattle.fv_signal.specs.Frames.{table};
ghost use Rattle.fv_signal.specs.headline.Rates.{rates as rates_of};
ghost use Rattle.fv_analysis.specs.headline.History.{history_of};
ghost use Rattle.fv_split_plan.specs.headline.Plans.{PlanStands, PlanReads, PlanNames};
ghost use Rattle.fv_split.specs.inner.Surveyed.{IsSurveyed};

use crate::cells::copied_tables;
use crate::lists::{infos, output_lanes};
use crate::loop_code::{all_code, code};
use crate::surveyed::{Surveyed, survey_graph};
use crate::told_reads::reads;
use fv_analysis::{Histories, Rates};
use fv_loopcode::Counts;
use fv_signal::{Graph, SignalId};
use fv_split_code::codes;
use fv_split_plan::{CellsInfo, Plan, PlanParts};
use std::alloc::{AllocError, Global};

// What the code of the held values may name: the tables.
fn still_counts(graph: &Graph) -> Counts
    ensures { result ≡ record { lanes = 0; tables = length graph.now.tables; cells = 0 } }
{
    Counts {
        lanes: 0,
        tables: graph.tables(),
        cells: 0,
    }
}

// The loops of a graph of which this was found out. The many lists of it are lent, since each `?` lets go of all that is owned.
fn planned(
    alloc: Global,
    graph: &Graph,
    outputs: &[SignalId],
    histories: &Histories,
    surveyed: &Surveyed,
    cells: Vec<CellsInfo>,
) -> Result<Plan, AllocError>
    requires histories { histories.now ≡ table (length graph.now.signals) (history_of graph.now) }
    requires outputs { outputs.now ≡ graph.now.outputs }
    requires surveyed { IsSurveyed graph.now surveyed.now cells }
    ensures stands { IfOk result (λ plan. PlanStands graph.now plan) }
    ensures reads { IfOk result (λ plan. PlanReads plan) }
    ensures names { IfOk result (λ plan. PlanNames graph.now plan) }
{
    let survey = &surveyed.survey;
    let outputs = output_lanes(alloc, outputs, &survey.stands, &survey.lanes)?;
    let lanes = infos(alloc, &surveyed.signals, &survey.owners, histories)?;
    let steps = codes(alloc, graph, survey, surveyed.loops)?;
    let told = reads(alloc, &steps, &survey.owners)?;
    let counts = Counts {
        lanes: lanes.len() as u64,
        tables: graph.tables(),
        cells: cells.len() as u64,
    };
    let codes = all_code(alloc, steps, counts)?;
    let held = code(alloc, &surveyed.held, still_counts(graph))?;
    let copied = copied_tables(alloc, graph)?;
    Ok(Plan::new(PlanParts {
        loops: surveyed.loops,
        lanes,
        tables: copied,
        cells,
        codes,
        reads: told,
        outputs,
        held,
    }))
}

/// The loops of a graph whose rates and histories these are.
pub fn split(
    alloc: Global,
    graph: &Graph,
    rates: &Rates,
    histories: &Histories,
) -> Result<Plan, AllocError>
    requires rates { rates.now ≡ rates_of graph.now.signals }
    requires histories { histories.now ≡ table (length graph.now.signals) (history_of graph.now) }
    // The plan stands for the graph: lanes, loops and their order, tables and cells, codes, held values, outputs.
    ensures stands { IfOk result (λ plan. PlanStands graph.now plan) }
    // The told reads are just the loads between different loops, each told once, the source lower.
    ensures reads { IfOk result (λ plan. PlanReads plan) }
    // The codes name only what is there, and load nothing further back than a history.
    ensures names { IfOk result (λ plan. PlanNames graph.now plan) }
{
    let outputs = graph.outputs();
    let (surveyed, cells) = survey_graph(alloc, graph, rates)?;
    planned(alloc, graph, outputs, histories, &surveyed, cells)
}
