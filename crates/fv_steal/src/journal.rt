// The law of the workers' lines.

ghost use Rattle.fv_steal.specs.Journals.{JournalLaw, CountLaw};

use fv_graph::edges_follow_reads;

/// The lines of all workers, sorted by their starts, are the ordered journal of a block whose tasks are all done: one line for each
/// task and no other, and each task after all that it reads. There are as many of them as tasks, before they are sorted too.
pub fn journal_law<C>()
    ensures journal { JournalLaw C }
    ensures count { CountLaw C }
{
    // The edges go from tasks to the tasks that read them.
    edges_follow_reads();
}
