//! Blocks by crews of workers, over and over.
//!
//! `steal_rounds rounds FIRST COUNT` makes COUNT plans at random, from the number FIRST on, and runs each by crews of 1, 2, 4 and 16
//! workers: every task runs once, and the journal is in order. `steal_rounds plan LOOPS VECTORS PERCENT WORKERS COUNT` runs one plan
//! COUNT times, for whoever measures it. In the plan each loop reads each lower one in PERCENT of a hundred cases.
#![tactic(auto)]

ghost use Rattle.std.specs.Prelude.{◌<◌, ◌≤◌};
ghost use Rattle.fv_base.specs.declared.limits.TheConstants.{MOST_WORKERS};

use anyhow::{Context, Result, bail, ensure};
use fv_base::limits::MOST_WORKERS;
use fv_graph::Tasks;
use fv_outside::FreeGate;
use rand_pcg::Pcg32;
use std::alloc::Global;
use std::env;
use std::marker::Sync;
use std::sync::Wait;
use std::thread::Threads;
use test_blocks::{Counter, is_ordered, ran, random_tasks, tasks_with};

// The stream of all generators.
const STREAM: u64 = 54;

// What the program was called with, its own name included.
fn words(rt: &HostRuntime) -> Result<Vec<String>> {
    let mut words = Vec::new(rt.alloc());
    for word in env::args(rt)? {
        words.push(word)?;
    }
    Ok(words)
}

// The word at a place, as a number.
fn number(words: &[String], place: usize) -> Result<u32> {
    let word = words.get(place).context("a number is missing")?;
    Ok(word.as_str().parse::<u32>()?)
}

// Runs a block of these tasks by `count` workers: each task ran once, and all is in order.
fn look_at_block<R: Threads + Wait + Sync>(
    rt: &R,
    alloc: Global,
    tasks: &Tasks,
    workers: u32,
) -> Result<()>
    requires { (0 < workers) × (workers ≤ MOST_WORKERS) }
{
    let gate = Counter::new();
    let mut block = ran(rt, alloc, tasks, workers, &gate)?;
    ensure!(block.done, "not all tasks are done");
    ensure!(
        block.exits as u64 == tasks.loops(),
        "not each loop has its exit"
    );
    ensure!(gate.tasks() == tasks.len(), "not each task was told once");
    block.lines.sort_by_key(|line| line.start)?;
    ensure!(
        is_ordered(alloc, tasks, &block.lines)?,
        "the journal is not in order"
    );
    Ok(())
}

// A plan that is made at random, by each crew. How many tasks it has.
fn round<R: Threads + Wait + Sync>(rt: &R, alloc: Global, seed: u64) -> Result<u64> {
    let tasks = random_tasks(alloc, &mut Pcg32::new(seed, STREAM))?;
    look_at_block(rt, alloc, &tasks, 1)?;
    look_at_block(rt, alloc, &tasks, 2)?;
    look_at_block(rt, alloc, &tasks, 4)?;
    look_at_block(rt, alloc, &tasks, MOST_WORKERS)?;
    Ok(tasks.len())
}

// Many rounds, and what to say of them.
fn rounds<R: Threads + Wait + Sync>(
    rt: &R,
    alloc: Global,
    first: u32,
    count: u32,
) -> Result<String> {
    let mut tasks = 0u64;
    for i in 0..count {
        let seed = u64::from(first) + u64::from(i);
        let here = round(rt, alloc, seed).context(format_args!("in the plan of {seed}"))?;
        tasks = tasks.wrapping_add(here);
    }
    Ok(format!(in alloc;
        "{count} plans of {tasks} tasks by 1, 2, 4 and 16 workers: each task once, in order"
    )?)
}

// One plan over and over, and what to say of it.
fn plan<R: Threads + Wait + Sync>(rt: &R, alloc: Global, words: &[String]) -> Result<String> {
    let loops = number(words, 2)?;
    let vectors = number(words, 3)?;
    let percent = number(words, 4)?;
    let workers = number(words, 5)?;
    let count = number(words, 6)?;
    ensure!(loops > 0 && vectors > 0, "a plan has a loop and a vector");
    ensure!(workers > 0 && workers <= MOST_WORKERS, "1 to 16 workers");
    let tasks = tasks_with(alloc, &mut Pcg32::new(1, STREAM), loops, vectors, percent)?;
    for _i in 0..count {
        let block = ran(rt, alloc, &tasks, workers, &FreeGate)?;
        ensure!(block.done, "not all tasks are done");
    }
    let edges = tasks.edges();
    let many = tasks.len();
    Ok(format!(in alloc; "{count} blocks of {many} tasks and {edges} edges by {workers} workers")?)
}

// What the words ask for.
fn report<R: Threads + Wait + Sync>(rt: &R, alloc: Global, words: &[String]) -> Result<String> {
    match words.get(1).context("rounds, or plan")?.as_str() {
        "rounds" => rounds(rt, alloc, number(words, 2)?, number(words, 3)?),
        "plan" => plan(rt, alloc, words),
        other => bail!("{other}: rounds, or plan"),
    }
}

fn main(rt: HostRuntime) -> Result<()> {
    let words = words(&rt)?;
    let line = report(&rt, rt.alloc(), &words)?;
    println!(rt; "{line}")?;
    Ok(())
}
