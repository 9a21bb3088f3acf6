// Notes that go over the edges of a block, and a body that hands out new ones.

ghost use Rattle.std.specs.Prelude.{◌≡◌, ◌<◌, All, IfOk, vec_len};
ghost use Rattle.fv_outside.specs.Tasks.{task_count};
ghost use Rattle.fv_graph.specs.Graph.{task_at};
ghost use Rattle.fv_ready.specs.Begun.{AreEntries};

use fv_graph::Tasks;
use fv_outside::Task;
use fv_ready::Parcel;
use fv_steal::Body;
use std::alloc::{AllocError, Global};

/// What goes over an edge: the edge's number, and that of the block.
#[derive(Drop)]
pub struct Note {
    pub(crate) edge: u64,
    pub(crate) block: u64,
}

impl Parcel for Note {
    type Key = u64;

    ghost edge_of = { λ n. n.edge };

    ghost key_of = { λ n. n.block };

    fn edge(&self) -> u64 {
        self.edge
    }
}

// The number of a task.
fn number_of(tasks: &Tasks, task: Task) -> u64
    requires { (task.loop_no < tasks.now.tasks.loops) × (task.vector < tasks.now.tasks.vectors) }
    ensures number { result ≡ task_at tasks.now.tasks task.loop_no task.vector }
    ensures there { result < task_count tasks.now.tasks }
{
    // All of them are counted in a word, so this one is too.
    let _count = tasks.len();
    u64::from(task.vector) * tasks.loops() + task.loop_no
}

// A body that hands out a new note on each edge.
#[derive(Drop)]
pub(crate) struct Notes<'t> {
    pub(crate) tasks: &'t Tasks,
    pub(crate) block: u64,
}

impl<'t> Body<Note> for Notes<'t> {
    ghost tasks = { λ b. b.tasks.now.tasks };

    ghost key = { λ b. b.block };

    fn run(&self, task: Task, parcels: &mut Vec<Note>) {
        let t = number_of(self.tasks, task);
        parcels.clear();
        for edge in self.tasks.outward(t) {
            parcels.push_reserved(Note {
                edge: *edge,
                block: self.block,
            });
        }
    }
}

// The notes of the entry edges.
pub(crate) fn entries(alloc: Global, loops: u64) -> Result<Vec<Note>, AllocError>
    ensures len { IfOk result (λ v. vec_len v ≡ loops) }
    ensures block { IfOk result (λ v. All (λ n. n.block ≡ 9) v.items) }
    ensures entries { IfOk result (λ v. AreEntries (λ n. n.edge) (λ n. n.block) v.items) }
{
    let mut list = Vec::with_capacity(alloc, loops as usize)?;
    for edge in 0..loops {
        list.push_reserved(Note { edge, block: 9 });
    }
    Ok(list)
}
