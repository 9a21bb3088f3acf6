// The laws of tasks and edges.

ghost use Rattle.std.specs.Prelude.{ℕ, ◌<◌};
ghost use Rattle.fv_outside.specs.headline.Tasks.{Tasks};
ghost use Rattle.fv_outside.specs.Tasks.{task_count};
ghost use Rattle.fv_graph.specs.Graph.{IsGraph};
ghost use Rattle.fv_graph.specs.Wires.{IsWires, wires_of};
ghost use Rattle.fv_graph.specs.Reads.{ReadsLaw};

/// The numbers of edges: each edge stands once among those into its reader, and once among those out of its source; an
/// inner edge's source is below its reader.
pub fn edges_meet()
    ensures { (g : Tasks) → IsGraph g → IsWires (wires_of g) }
{}

/// What the edges mean. The inner edges into a task come from the tasks that it reads, one from each. Those out of it go to the
/// tasks that read it, one to each.
pub fn edges_follow_reads()
    ensures { (g : Tasks) (t : ℕ) → IsGraph g → t < task_count g → ReadsLaw g t }
{}
