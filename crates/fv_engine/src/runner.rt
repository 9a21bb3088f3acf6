// What runs the tasks of a plan.

ghost use Rattle.std.specs.Prelude.{◌≤◌, vec_capacity};
ghost use Rattle.fv_outside.specs.Tasks.{task_count};
ghost use Rattle.fv_engine.specs.Cores.{HasCore};

use fv_graph::{Core, Tasks};
use fv_loopcode_machine::{Scratch, unsettle};
use fv_outside::Line;

/// What runs the tasks of a plan.
#[derive(Drop)]
pub(crate) struct TaskRunner {
    // The tasks of the block.
    pub(crate) tasks: Tasks,
    // Which task may run next, for one worker.
    pub(crate) core: Core,
    // By loop: what its code works in, for one worker.
    pub(crate) scratch: Vec<Scratch>,
    // What the codes of several workers work in, kept from block to block.
    pub(crate) kept: Vec<Scratch>,
    // The block's journal.
    pub(crate) lines: Vec<Line>,
    ghost core_is: { HasCore tasks core },
    ghost room: { task_count (record tasks.tasks { vectors = tasks.most }) ≤ vec_capacity lines },
}

impl TaskRunner {
    ghost use Rattle.std.specs.Prelude.{◌≡◌, ◌<◌, [], length};
    ghost use Rattle.fv_graph.specs.Graph.{net_of};
    ghost use Rattle.fv_graph.specs.Core.{opening};
    ghost use Rattle.fv_loopcode_machine.specs.Scratches.{AreUnsettled};

    /// Sets the number of vectors of the block, and clears the journal.
    pub(crate) fn set_vectors(&mut self, vectors: u32)
        requires some { 0 < vectors }
        requires room { vectors ≤ self.old.tasks.most }
        ensures tasks { self.new.tasks ≡ record self.old.tasks { tasks = record self.old.tasks.tasks { vectors = vectors } } }
        ensures lines { self.new.lines.items ≡ [] }
        ensures scratch { self.new.scratch ≡ self.old.scratch }
    {
        self.tasks.set_vectors(vectors);
        self.lines.clear();
    }

    /// Has the core begin with the first task again, and no scratch settled.
    pub(crate) fn begin(&mut self)
        ensures tasks { self.new.tasks ≡ self.old.tasks }
        ensures same { self.new.core.tasks ≡ self.new.tasks.tasks }
        ensures one { self.new.core.workers ≡ 1 }
        ensures opening { self.new.core.now ≡ opening (net_of self.new.tasks.tasks) 1 }
        ensures scratch { AreUnsettled self.old.scratch.items self.new.scratch.items }
        ensures lines { self.new.lines ≡ self.old.lines }
        ensures room { task_count self.new.tasks.tasks ≤ vec_capacity self.new.lines }
    {
        // Called for its clause: there are no more vectors than the core has room for.
        let _vectors = self.tasks.vectors();
        self.core.reset(&self.tasks);
        unsettle(&mut self.scratch);
    }
}
