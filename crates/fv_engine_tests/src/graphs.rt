// Graphs of programs.

use fv_engine_render::{Source, compile};
use fv_eval::Program;
use fv_interval::{spans, spans_of};
use fv_signal::Graph;
use std::alloc::Global;
use std::test::Fail;
use test_diagrams::program_of;

// The graph with which a program is played.
fn graph_in(alloc: Global, program: &Program) -> Result<Graph, Fail> {
    let controls = program.controls.as_slice();
    let bounds = spans_of(alloc, controls)?;
    let Ok(delays) = spans(alloc, &program.diagrams, program.root, &bounds) else {
        return Err("delays".into());
    };
    let source = Source {
        diagrams: &program.diagrams,
        root: program.root,
        delays: &delays,
        controls,
    };
    let graph = compile(alloc, &source)?;
    Ok(graph)
}

/// The graph with which the program of a text is played.
pub(crate) fn graph_of(alloc: Global, text: &str) -> Result<Graph, Fail> {
    let program = program_of(alloc, text)?;
    graph_in(alloc, &program)
}
