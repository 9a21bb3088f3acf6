// Worked examples: events that replay, and events that do not.

ghost use Rattle.std.specs.Prelude.{◌≡◌, ◌<◌};

use fv_graph::{Core, Event, Tasks, replay};
use fv_outside::Reads;
use std::alloc::{AllocError, Global};
use std::process::Abort;
use std::test::Fail;

struct Row {
    name: &'static str,
    events: &'static [Event],
    replays: bool,
}

// Two loops apart, one vector, one worker: the tasks 0 and 1 lie in the one deque, 1 at its back.
static APART: [Row; 5] = [
    Row {
        name: "the back first",
        events: &[
            Event::Take { worker: 0, task: 1 },
            Event::Finish { worker: 0, task: 1 },
            Event::Take { worker: 0, task: 0 },
            Event::Finish { worker: 0, task: 0 },
            Event::Leave { worker: 0 },
        ],
        replays: true,
    },
    Row {
        name: "the front first",
        events: &[Event::Take { worker: 0, task: 0 }],
        replays: false,
    },
    Row {
        name: "the end of a task that does not run",
        events: &[Event::Finish { worker: 0, task: 0 }],
        replays: false,
    },
    Row {
        name: "a worker that leaves with a task in its deque",
        events: &[Event::Leave { worker: 0 }],
        replays: false,
    },
    Row {
        name: "a worker that is not there",
        events: &[Event::Leave { worker: 1 }],
        replays: false,
    },
];

// Loop 1 reads loop 0; three vectors, two workers. Task 0 alone is ready, and lies in the deque of worker 0.
static PAIR: [Row; 4] = [
    Row {
        name: "all tasks by two workers, with steals",
        events: &[
            Event::Steal {
                thief: 1,
                victim: 0,
                task: 0,
            },
            Event::Finish { worker: 1, task: 0 },
            Event::Arrive { worker: 1, edge: 3 },
            Event::Arrive { worker: 1, edge: 2 },
            Event::Steal {
                thief: 0,
                victim: 1,
                task: 2,
            },
            Event::Take { worker: 1, task: 1 },
            Event::Finish { worker: 1, task: 1 },
            Event::Arrive { worker: 1, edge: 4 },
            Event::Finish { worker: 0, task: 2 },
            Event::Arrive { worker: 0, edge: 6 },
            Event::Arrive { worker: 0, edge: 5 },
            Event::Take { worker: 0, task: 3 },
            Event::Finish { worker: 0, task: 3 },
            Event::Arrive { worker: 0, edge: 7 },
            Event::Take { worker: 0, task: 4 },
            Event::Finish { worker: 0, task: 4 },
            Event::Arrive { worker: 0, edge: 8 },
            Event::Steal {
                thief: 1,
                victim: 0,
                task: 5,
            },
            Event::Finish { worker: 1, task: 5 },
            Event::Leave { worker: 0 },
            Event::Leave { worker: 1 },
        ],
        replays: true,
    },
    Row {
        name: "a steal from the back",
        events: &[
            Event::Steal {
                thief: 1,
                victim: 0,
                task: 0,
            },
            Event::Finish { worker: 1, task: 0 },
            Event::Arrive { worker: 1, edge: 3 },
            Event::Arrive { worker: 1, edge: 2 },
            Event::Steal {
                thief: 0,
                victim: 1,
                task: 1,
            },
        ],
        replays: false,
    },
    Row {
        name: "a task before what it reads",
        events: &[Event::Take { worker: 1, task: 1 }],
        replays: false,
    },
    Row {
        name: "an edge that nobody owes",
        events: &[Event::Arrive { worker: 0, edge: 2 }],
        replays: false,
    },
];

fn apart(alloc: Global) -> Result<Tasks, AllocError> {
    Tasks::new(alloc, 2, 1, &[])
}

fn pair(alloc: Global) -> Result<Tasks, AllocError> {
    let reads = [Reads {
        reader: 1,
        source: 0,
    }];
    Tasks::new(alloc, 2, 3, &reads)
}

// The name of the first row that does otherwise.
fn first_wrong(
    alloc: Global,
    tasks: &Tasks,
    workers: u32,
    rows: &'static [Row],
) -> Result<&'static str, AllocError>
    requires { 0 < workers }
{
    for row in rows {
        let replays = replay(alloc, tasks, workers, row.events)?.is_some();
        if replays != row.replays {
            return Ok(row.name);
        }
    }
    Ok("")
}

#[test]
fn rows_of_loops_apart(rt: HostRuntime) -> Result<(), Fail> {
    let wrong = first_wrong(rt.alloc(), &apart(rt.alloc())?, 1, &APART)?;
    assert_eq!(rt; wrong, "");
    Ok(())
}

#[test]
fn rows_of_a_pair(rt: HostRuntime) -> Result<(), Fail> {
    let wrong = first_wrong(rt.alloc(), &pair(rt.alloc())?, 2, &PAIR)?;
    assert_eq!(rt; wrong, "");
    Ok(())
}

// The end of a task that does not run is refused, and the first task can still be taken.
fn assert_stays(rt: &impl Abort, core: &mut Core, tasks: &Tasks)
    requires { core.old.tasks ≡ tasks.now.tasks }
{
    let finish = Event::Finish { worker: 0, task: 0 };
    assert!(rt; core.step(tasks, finish).is_err());
    assert_eq!(rt; core.next_of(0), Some(1));
    let take = Event::Take { worker: 0, task: 1 };
    assert!(rt; core.step(tasks, take).is_ok());
}

// An event that is not legal leaves the core as it was.
#[test]
fn an_illegal_event(rt: HostRuntime) -> Result<(), Fail> {
    let tasks = apart(rt.alloc())?;
    let mut core = Core::new(rt.alloc(), &tasks, 1)?;
    assert_stays(&rt, &mut core, &tasks);
    Ok(())
}
