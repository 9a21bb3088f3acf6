// Tasks and their edges, by hand: loop 1 reads loop 0, three vectors. Each vector has the edges into its two tasks, and then
// that of the pair; the last two edges are the exits.

ghost use Rattle.std.specs.Prelude.{◌<◌};
ghost use Rattle.fv_outside.specs.Tasks.{task_count};

use fv_graph::Tasks;
use fv_outside::{Reads, Task};
use std::process::Abort;
use std::test::Fail;

// A task of a graph, and what the graph has of it.
struct Row {
    // The loop and the vector.
    task: Task,
    // The edges into it, in order.
    inward: &'static [u64],
    // The edges out of it, in order.
    outward: &'static [u64],
    // The inner edges out of it, in order.
    feeds: &'static [u64],
    // How many tasks it reads.
    count: u64,
}

static THREE_VECTORS: [Row; 6] = [
    Row {
        task: Task {
            loop_no: 0,
            vector: 0,
        },
        inward: &[0],
        outward: &[3, 2],
        feeds: &[3, 2],
        count: 0,
    },
    Row {
        task: Task {
            loop_no: 1,
            vector: 0,
        },
        inward: &[1, 2],
        outward: &[4],
        feeds: &[4],
        count: 1,
    },
    Row {
        task: Task {
            loop_no: 0,
            vector: 1,
        },
        inward: &[3],
        outward: &[6, 5],
        feeds: &[6, 5],
        count: 1,
    },
    Row {
        task: Task {
            loop_no: 1,
            vector: 1,
        },
        inward: &[4, 5],
        outward: &[7],
        feeds: &[7],
        count: 2,
    },
    Row {
        task: Task {
            loop_no: 0,
            vector: 2,
        },
        inward: &[6],
        outward: &[9, 8],
        feeds: &[8],
        count: 1,
    },
    Row {
        task: Task {
            loop_no: 1,
            vector: 2,
        },
        inward: &[7, 8],
        outward: &[10],
        feeds: &[],
        count: 2,
    },
];

// The tasks that the edges go into, but for the exits.
const READERS: [u64; 9] = [0, 1, 1, 2, 3, 3, 4, 5, 5];

// What of a task is otherwise than its row says, if anything is.
fn wrong_part(tasks: &Tasks, t: u64, row: &Row) -> Option<&'static str>
    requires { t < task_count tasks.now.tasks }
{
    if tasks.task(t) != row.task {
        return Some("the loop and the vector");
    }
    if tasks.inward(t) != row.inward {
        return Some("the edges into it");
    }
    if tasks.outward(t) != row.outward {
        return Some("the edges out of it");
    }
    if tasks.feeds(t) != row.feeds {
        return Some("what it feeds");
    }
    if tasks.count(t) != row.count {
        return Some("how many it reads");
    }
    None
}

// Fails where the tasks are not those of the rows.
fn assert_are_tasks(rt: &impl Abort, tasks: &Tasks, rows: &[Row]) {
    assert_eq!(rt; tasks.len(), rows.len() as u64);
    for t in 0..tasks.len() {
        if let Some(part) = wrong_part(tasks, t, &rows[t as usize]) {
            panic!(rt; "{part} of {t}");
        }
    }
}

// Fails where the edges do not go into those.
fn assert_are_readers(rt: &impl Abort, tasks: &Tasks) {
    assert_eq!(rt; tasks.edges(), 11);
    for edge in 0..9u64 {
        assert!(rt; edge < tasks.edges());
        assert_eq!(rt; tasks.reader(edge), READERS[edge as usize]);
    }
}

// With two vectors, the tasks of the second one feed none after them.
fn assert_has_two_vectors(rt: &impl Abort, tasks: &Tasks) {
    assert_eq!(rt; (tasks.len(), tasks.edges()), (4, 8));
    for t in 2..4u64 {
        assert!(rt; t < tasks.len());
        let inner = &THREE_VECTORS[t as usize].outward[1..];
        assert!(rt; tasks.feeds(t) == inner, "fed by {t} of the last vector");
    }
}

#[test]
fn tasks_of_a_pair(rt: HostRuntime) -> Result<(), Fail> {
    let reads = [Reads {
        reader: 1,
        source: 0,
    }];
    let mut tasks = Tasks::new(rt.alloc(), 2, 3, &reads)?;
    assert_are_tasks(&rt, &tasks, &THREE_VECTORS);
    assert_are_readers(&rt, &tasks);
    tasks.set_vectors(2);
    assert_has_two_vectors(&rt, &tasks);
    Ok(())
}
