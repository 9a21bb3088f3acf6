// Worked examples.

use fv_graph::Tasks;
use fv_outside::{FreeGate, Reads};
use std::test::Fail;
use test_blocks::{Meeting, Until, ran};

// Two loops, one vector, and loop 1 reads loop 0. Sixteen workers leave both done, and task 0 finished before task 1 started.
#[test]
fn sixteen_workers_on_two_tasks(rt: HostRuntime) -> Result<(), Fail> {
    let alloc = rt.alloc();
    let reads = [Reads {
        reader: 1,
        source: 0,
    }];
    let tasks = Tasks::new(alloc, 2, 1, &reads)?;
    let block = ran(&rt, alloc, &tasks, 16, &FreeGate)?;
    assert!(rt; block.done);
    assert_eq!(rt; block.exits, 2);
    match block.lines.as_slice() {
        [a, b] => {
            let (first, second) = if a.start < b.start { (a, b) } else { (b, a) };
            assert_eq!(rt; first.task.loop_no, 0);
            assert_eq!(rt; second.task.loop_no, 1);
            assert!(rt; first.finish < second.start);
        }
        _ => panic!(rt; "not two lines"),
    }
    Ok(())
}

// One worker alone does all tasks of a chain over two vectors.
#[test]
fn one_worker_alone(rt: HostRuntime) -> Result<(), Fail> {
    let alloc = rt.alloc();
    let tasks = Tasks::new(alloc, 1, 2, &[])?;
    let block = ran(&rt, alloc, &tasks, 1, &FreeGate)?;
    assert!(rt; block.done);
    match block.lines.as_slice() {
        [a, b] => {
            assert_eq!(rt; a.task.vector, 0);
            assert_eq!(rt; b.task.vector, 1);
            assert!(rt; a.finish < b.start);
        }
        _ => panic!(rt; "not two lines"),
    }
    Ok(())
}

// Two loops that read nothing, and two workers. The gate holds each task until the other is about to run, so two threads run them.
#[test]
fn tasks_all_on_one_thread_are_refused(rt: HostRuntime) -> Result<(), Fail> {
    let alloc = rt.alloc();
    let tasks = Tasks::new(alloc, 2, 1, &[])?;
    let gate = Meeting::new(0, 1);
    let block = ran(&rt, alloc, &tasks, 2, &gate)?;
    assert!(rt; block.done);
    assert_eq!(rt; block.lines.len(), 2);
    assert!(rt; !gate.missed());
    Ok(())
}

// Three loops that read nothing, and two workers: worker 0 gets tasks 0 and 2, and takes task 0 first. The gate holds that one until
// task 2 runs, so another worker must have stolen it.
#[test]
fn workers_that_never_steal_are_refused(rt: HostRuntime) -> Result<(), Fail> {
    let alloc = rt.alloc();
    let tasks = Tasks::new(alloc, 3, 1, &[])?;
    let gate = Until::new(0, 2);
    let block = ran(&rt, alloc, &tasks, 2, &gate)?;
    assert!(rt; block.done);
    assert_eq!(rt; block.lines.len(), 3);
    assert!(rt; !gate.missed());
    Ok(())
}
