// What is rendered: a diagram, and its graph.

ghost use Rattle.std.specs.Prelude.{IfOk};
ghost use Rattle.fv_interval.specs.headline.Controls.{spans_of};
ghost use Rattle.fv_engine_render.specs.headline.Plans.{IsGraphOf};
ghost use Rattle.fv_engine_render.specs.Sources.{diagram_in};

use crate::controls::spans_fit;
use fv_diagram::{ControlInfo, DiagramId, Diagrams};
use fv_interval::{Delays, spans_of};
use fv_propagate::propagate;
use fv_signal::Graph;
use fv_simplify::simplify;
use std::alloc::{AllocError, Global};
use std::marker::Model;

/// What is played: a diagram in which each slot is bound, its delays as `spans` answers them, and its controls. Each control begins
/// between its bounds.
#[derive(Drop)]
pub struct Source<'d, 'e, 'c> {
    pub diagrams: &'d Diagrams,
    pub root: DiagramId,
    pub delays: &'e Delays,
    pub controls: &'c [ControlInfo],
}

impl<'d, 'e, 'c> Model for Source<'d, 'e, 'c> {
    ghost use Rattle.fv_engine_render.specs.Sources.{SourceView, IsSource};

    ghost Value = { SourceView };

    ghost view = { λ s. record { diagrams = s.diagrams.now; root = s.root; controls = s.controls.now; delays = s.delays.now } };

    ghost invariant = { λ s. IsSource (record { diagrams = s.diagrams.now; root = s.root; controls = s.controls.now; delays = s.delays.now }) };
}

/// The graph of a diagram, made simpler.
pub fn compile(alloc: Global, source: &Source<'_, '_, '_>) -> Result<Graph, AllocError>
    ensures { IfOk result (IsGraphOf (diagram_in source.now) (spans_of source.now.controls)) }
{
    spans_fit(source.controls);
    let whole = propagate(alloc, source.diagrams, source.root, source.delays)?;
    let spans = spans_of(alloc, source.controls)?;
    let graph = simplify(alloc, &whole, &spans)?;
    // For the prover: both graphs are finished.
    let _whole = whole.outputs();
    let _outputs = graph.outputs();
    Ok(graph)
}
