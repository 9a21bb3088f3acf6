// Tasks that are made at random.

ghost use Rattle.std.specs.Prelude.{◌<◌, ◌+◌, IfOk, OnOk};
ghost use Rattle.fv_graph.specs.Graph.{ArePairs};
ghost use Rattle.test_blocks.specs.Pairs.{AreBefore};

use fv_graph::Tasks;
use fv_outside::Reads;
use rand_core::Rng;
use rand_pcg::Pcg32;
use std::alloc::{AllocError, Global};

// The most tasks of a block.
const MOST_TASKS: u32 = 200;

// Has a loop read each lower one or not, at random: in `percent` of a hundred cases.
fn add_pairs(
    rng: &mut Pcg32,
    percent: u32,
    loops: u64,
    reader: u64,
    pairs: &mut Vec<Reads>,
) -> Result<(), AllocError>
    requires there { reader < loops }
    requires before { AreBefore loops reader 0 pairs.old.items }
    ensures { OnOk result (AreBefore loops (reader + 1) 0 pairs.new.items) }
{
    for source in 0..reader {
        if rng.next_u32() % 100 < percent {
            pairs.push(Reads { reader, source })?;
        }
    }
    Ok(())
}

// Random pairs of `loops` loops, each source lower than its reader.
fn random_pairs(
    alloc: Global,
    rng: &mut Pcg32,
    percent: u32,
    loops: u64,
) -> Result<Vec<Reads>, AllocError>
    ensures { IfOk result (λ v. ArePairs loops v.items) }
{
    let mut pairs = Vec::new(alloc);
    for reader in 0..loops {
        add_pairs(rng, percent, loops, reader, &mut pairs)?;
    }
    Ok(pairs)
}

/// Tasks of `loops` loops and `vectors` vectors, in which each loop reads each lower one in `percent` of a hundred cases.
pub fn tasks_with(
    alloc: Global,
    rng: &mut Pcg32,
    loops: u32,
    vectors: u32,
    percent: u32,
) -> Result<Tasks, AllocError>
    requires { (0 < loops) × (0 < vectors) }
{
    let pairs = random_pairs(alloc, rng, percent, u64::from(loops))?;
    Tasks::new(alloc, u64::from(loops), vectors, &pairs)
}

/// 1 to 200 tasks, made at random: how many loops and vectors there are, and which loops read which lower ones, few or all.
pub fn random_tasks(alloc: Global, rng: &mut Pcg32) -> Result<Tasks, AllocError> {
    let loops = 1 + rng.next_u32() % MOST_TASKS;
    let vectors = 1 + rng.next_u32() % (MOST_TASKS / loops);
    let percent = rng.next_u32() % 101;
    tasks_with(alloc, rng, loops, vectors, percent)
}
