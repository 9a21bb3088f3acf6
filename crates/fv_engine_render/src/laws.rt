// The laws of runs, and of graphs side by side.

ghost use Rattle.fv_signal.specs.headline.Value.{Graph};
ghost use Rattle.fv_engine_render.specs.Render.{RunsHaveLoops};
ghost use Rattle.fv_engine_render.specs.SideBySide.{JoinedIsGraph};

use fv_compile::{joined_are_wide, joined_names, joined_propagates};
use fv_split_plan::outputs_need_loops;

/// Where a diagram has an output, each run of it that has a block has a loop.
pub fn runs_have_loops()
    ensures { RunsHaveLoops }
{
    // A plan of a graph with outputs has a loop.
    outputs_need_loops();
}

/// Graphs of diagrams that are joined are a graph of these diagrams side by side.
pub fn joined_is_graph()
    ensures { (f : Graph) → JoinedIsGraph f }
{
    // What graphs side by side answer, how many outputs they have, and what they name.
    joined_propagates();
    joined_are_wide();
    joined_names();
}
