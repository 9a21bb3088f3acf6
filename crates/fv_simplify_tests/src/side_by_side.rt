// Each job's outputs have the values that they have alone.

use crate::joined_graphs::{Kind, job};
use fv_compile::{Job, can_be_joined, join};
use fv_signal::Graph;
use std::alloc::{AllocError, Global};
use std::process::Abort;
use std::test::Fail;
use test_graphs::{Sound, given};

// What is heard, and what is given in `frames` frames.
struct Heard {
    sound: Sound<'static>,
    frames: usize,
    wanted: &'static [i32],
}

// What the graph gives.
fn gives(alloc: Global, graph: &Graph, heard: &Heard) -> Result<bool, AllocError> {
    let answer = given(alloc, graph, &heard.sound, heard.frames)?;
    Ok(answer.as_slice() == heard.wanted)
}

// A job alone.
struct Alone {
    name: &'static str,
    kind: Kind,
    heard: Heard,
}

static ALONE: [Alone; 2] = [
    // The sums 1, 3 and 6, times 10.
    Alone {
        name: "the first alone",
        kind: Kind::RunningSum,
        heard: Heard {
            sound: Sound {
                controls: &[10],
                samples: &[1, 2, 3],
                width: 1,
            },
            frames: 3,
            wanted: &[10, 30, 60],
        },
    },
    // 5, 6 + 100 and 7 + 195, the differences 100, 195 and 294 one sample later, and its second control.
    Alone {
        name: "the second alone",
        kind: Kind::Crossed,
        heard: Heard {
            sound: Sound {
                controls: &[20, 30],
                samples: &[5, 100, 6, 200, 7, 400],
                width: 2,
            },
            frames: 3,
            wanted: &[5, 0, 30, 106, 100, 30, 202, 195, 30],
        },
    },
];

#[test]
fn jobs_alone(rt: HostRuntime) -> Result<(), Fail> {
    for row in &ALONE {
        let job = job(rt.alloc(), row.kind)?;
        assert!(rt; gives(rt.alloc(), &job.graph, &row.heard)?, "{}", row.name);
    }
    Ok(())
}

// Jobs together, and what their graph has.
struct Together {
    // What the row is called where it fails.
    name: &'static str,
    // The jobs, in order.
    kinds: &'static [Kind],
    // What is heard, and what is given for it.
    heard: Heard,
    // How many outputs the graph has.
    outputs: usize,
    // How many groups the graph has.
    groups: u64,
    // How many tables the graph has.
    tables: u64,
}

static TOGETHER: [Together; 5] = [
    // Their channels, controls and outputs stand one after another.
    Together {
        name: "two with feedback",
        kinds: &[Kind::RunningSum, Kind::Crossed],
        heard: Heard {
            sound: Sound {
                controls: &[10, 20, 30],
                samples: &[1, 5, 100, 2, 6, 200, 3, 7, 400],
                width: 3,
            },
            frames: 3,
            wanted: &[10, 5, 0, 30, 30, 106, 100, 30, 60, 202, 195, 30],
        },
        outputs: 4,
        groups: 2,
        tables: 0,
    },
    // There are two groups: neither job hears the other.
    Together {
        name: "one graph twice",
        kinds: &[Kind::RunningSum, Kind::RunningSum],
        heard: Heard {
            sound: Sound {
                controls: &[1, 3],
                samples: &[5, 7, 5, 0],
                width: 2,
            },
            frames: 2,
            wanted: &[5, 21, 10, 21],
        },
        outputs: 2,
        groups: 2,
        tables: 0,
    },
    // Each job has its own tables, also where the lists are equal: none reads what another one writes.
    Together {
        name: "three with tables",
        kinds: &[
            Kind::Items(&[7, 8]),
            Kind::Items(&[1, 2]),
            Kind::Items(&[7, 8]),
        ],
        heard: Heard {
            sound: Sound {
                controls: &[],
                samples: &[1, 0, 0, 0, 1, 1],
                width: 3,
            },
            frames: 2,
            wanted: &[8, 7, 1, 0, 7, 0, 7, 0, 2, 0, 8, 0],
        },
        outputs: 6,
        groups: 0,
        tables: 3,
    },
    Together {
        name: "one job",
        kinds: &[Kind::RunningSum],
        heard: Heard {
            sound: Sound {
                controls: &[2],
                samples: &[1, 2],
                width: 1,
            },
            frames: 2,
            wanted: &[2, 6],
        },
        outputs: 1,
        groups: 1,
        tables: 0,
    },
    // Sixteen times the input times the control: output 15 is the last input times the last control.
    Together {
        name: "sixteen jobs",
        kinds: &[Kind::ByAControl; 16],
        heard: Heard {
            sound: Sound {
                controls: &[1, 2, 3, 4, 5, 6, 7, 8, 9, 10, 11, 12, 13, 14, 15, 16],
                samples: &[1, 2, 3, 4, 5, 6, 7, 8, 9, 10, 11, 12, 13, 14, 15, 16],
                width: 16,
            },
            frames: 1,
            wanted: &[
                1, 4, 9, 16, 25, 36, 49, 64, 81, 100, 121, 144, 169, 196, 225, 256,
            ],
        },
        outputs: 16,
        groups: 0,
        tables: 0,
    },
];

// Jobs of these kinds.
fn jobs_of(alloc: Global, kinds: &[Kind]) -> Result<Vec<Job>, Fail> {
    let mut jobs = Vec::new(alloc);
    for kind in kinds {
        jobs.push(job(alloc, *kind)?)?;
    }
    Ok(jobs)
}

// The graph is as the row says.
fn assert_graph(
    rt: &impl Abort,
    alloc: Global,
    graph: &Graph,
    row: &Together,
) -> Result<(), AllocError> {
    assert!(rt; gives(alloc, graph, &row.heard)?, "{}", row.name);
    assert!(rt;
        graph.outputs().len() == row.outputs,
        "outputs of {}",
        row.name
    );
    assert!(rt; graph.groups() == row.groups, "groups of {}", row.name);
    assert!(rt; graph.tables() == row.tables, "tables of {}", row.name);
    Ok(())
}

// The jobs can be joined, and their graph is as the row says.
fn assert_joined(rt: &impl Abort, alloc: Global, row: &Together) -> Result<(), Fail> {
    let jobs = jobs_of(alloc, row.kinds)?;
    assert!(rt; can_be_joined(&jobs), "{}", row.name);
    let graph = join(alloc, &jobs)?;
    Ok(assert_graph(rt, alloc, &graph, row)?)
}

#[test]
fn jobs_together(rt: HostRuntime) -> Result<(), Fail> {
    for row in &TOGETHER {
        assert_joined(&rt, rt.alloc(), row)?;
    }
    Ok(())
}

#[test]
fn no_job(rt: HostRuntime) -> Result<(), Fail> {
    assert!(rt; can_be_joined(&[]));
    let graph = join(rt.alloc(), &[])?;
    assert!(rt; graph.is_empty());
    Ok(())
}
