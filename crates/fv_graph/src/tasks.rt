// The tasks of a block and their edges.

ghost use Rattle.std.specs.Prelude.{◌≡◌, ℕ, ◌+◌, ◌*◌, ◌^◌, ◌<◌, ◌≤◌, length, IfOk, OnOk};
ghost use Rattle.fv_graph.specs.Graph.{Graph, IsGraph, ArePairs, edges_of, inward, outward, feeds_of, reader_of, net_of, task_of};
ghost use Rattle.std.specs.List.Sorted.{IsPermutation};
ghost use Rattle.fv_outside.specs.headline.Tasks.{reads_loop};
ghost use Rattle.fv_outside.specs.Tasks.{task_count};
ghost use Rattle.fv_graph.specs.Net.{need_count};

use crate::groups::{group, readers, sources};
use crate::lists::{EdgeLists, can_number, list_at, lists_of};
use crate::sorted::sorted;
use fv_outside::{Reads, Task};
use std::alloc::{AllocError, Global};
use std::marker::Model;

/// The tasks of a block and their edges.
#[derive(Drop)]
pub struct Tasks {
    // How many loops each vector has.
    loops: u64,
    // How many vectors the block has, at least 1.
    vectors: u32,
    // For how many vectors there is room.
    most: u32,
    // Which loop reads lanes of which other, by reader and then by source.
    reads: Vec<Reads>,
    // By task, for the most vectors: the edges into it, in order.
    inward: EdgeLists,
    // By task, for the most vectors: the edges out of it, in order.
    outward: EdgeLists,
}

impl Model for Tasks {
    ghost use Rattle.std.specs.Prelude.{◌≤◌, ◌*◌, ◌^◌};
    ghost use Rattle.std.specs.Prelude.{◌<◌};
    ghost use Rattle.fv_graph.specs.Graph.{Graph, IsGraph, coded_graph, edges_of};
    ghost use Rattle.fv_graph.specs.inner.Lists.{AreInward, AreOutward};

    ghost Value = { Graph };

    ghost coded = { coded_graph };

    ghost view = { λ t. record { tasks = record { loops = t.loops; vectors = t.vectors; reads = t.reads.items }; most = t.most } };

    ghost invariant = { λ t. IsGraph (record { loops = t.loops; vectors = t.vectors; reads = t.reads.items }) × (t.vectors ≤ t.most)
        × AreInward (record { loops = t.loops; vectors = t.most; reads = t.reads.items }) t.inward
        × AreOutward (record { loops = t.loops; vectors = t.most; reads = t.reads.items }) t.outward
        × (edges_of (record { loops = t.loops; vectors = t.most; reads = t.reads.items }) < 2 ^ 62)
        × (t.most < 2 ^ 32) };
}

impl Tasks {
    /// The tasks of `loops` loops over `vectors` vectors, and their edges. `reads` says which loop reads lanes of which other.
    /// There is room for `vectors` vectors from then on. Too many edges to number are answered as want of memory.
    pub fn new(
        alloc: Global,
        loops: u64,
        vectors: u32,
        reads: &[Reads],
    ) -> Result<Tasks, AllocError>
        requires some_loop { 0 < loops }
        requires some_vector { 0 < vectors }
        requires pairs { ArePairs loops reads.now }
        ensures loops { IfOk result (λ t. t.tasks.loops ≡ loops) }
        ensures vectors { IfOk result (λ t. (t.tasks.vectors ≡ vectors) × (t.most ≡ vectors)) }
        ensures reads { IfOk result (λ t. IsPermutation reads.now t.tasks.reads) }
        ensures pairs { IfOk result (λ t. (j i : ℕ) → reads_loop t.tasks.reads j i ≡ reads_loop reads.now j i) }
        ensures graph { IfOk result (λ t. IsGraph t.tasks) }
    {
        let pairs = sorted(alloc, reads)?;
        let count = pairs.len() as u64;
        if !can_number(loops, count, vectors) {
            return Err(AllocError);
        }
        let stride = loops + count;
        let into = group(alloc, loops, &readers(alloc, &pairs)?)?;
        let out = group(alloc, loops, &sources(alloc, &pairs)?)?;
        let inward = lists_of(alloc, loops, stride, u64::from(vectors), 0, &into)?;
        let outward = lists_of(alloc, loops, stride, u64::from(vectors), stride, &out)?;
        Ok(Tasks {
            loops,
            vectors,
            most: vectors,
            reads: pairs,
            inward,
            outward,
        })
    }

    /// How many loops there are.
    pub fn loops(&self) -> u64
        ensures value { result ≡ self.now.tasks.loops }
        ensures graph { IsGraph self.now.tasks }
    {
        self.loops
    }

    /// How many vectors there are.
    pub fn vectors(&self) -> u32
        ensures value { result ≡ self.now.tasks.vectors }
        ensures room { result ≤ self.now.most }
    {
        self.vectors
    }

    /// Which loop reads lanes of which other, by reader and then by source.
    pub fn reads(&self) -> &[Reads]
        ensures { result.now ≡ self.now.tasks.reads }
    {
        self.reads.as_slice()
    }

    /// How many tasks there are.
    pub fn len(&self) -> u64
        ensures value { result ≡ task_count self.now.tasks }
        ensures graph { IsGraph self.now.tasks }
    {
        u64::from(self.vectors) * self.loops
    }

    /// One task.
    pub fn task(&self, t: u64) -> Task
        requires { t < task_count self.now.tasks }
        ensures { result ≡ task_of self.now.tasks t }
    {
        Task {
            loop_no: t % self.loops,
            vector: (t / self.loops) as u32,
        }
    }

    /// Sets the number of vectors: tasks, counts and edges are those for it from now on. It takes no memory.
    pub fn set_vectors(&mut self, vectors: u32)
        requires some { 0 < vectors }
        requires room { vectors ≤ self.old.most }
        ensures { self.new ≡ record self.old { tasks = record self.old.tasks { vectors = vectors } } }
    {
        self.vectors = vectors;
    }

    /// How many edges there are, entry and exit edges too.
    pub fn edges(&self) -> u64
        ensures value { result ≡ edges_of self.now.tasks }
        ensures small { result < 2 ^ 62 }
        ensures fewer { task_count self.now.tasks ≤ result }
    {
        u64::from(self.vectors) * (self.loops + self.reads.len() as u64) + self.loops
    }

    /// The edges into a task, in order.
    pub fn inward(&self, t: u64) -> &[u64]
        requires { t < task_count self.now.tasks }
        ensures { result.now ≡ inward self.now.tasks t }
    {
        list_at(&self.inward, t / self.loops, t % self.loops)
    }

    /// The edges out of a task, in order.
    pub fn outward(&self, t: u64) -> &[u64]
        requires { t < task_count self.now.tasks }
        ensures { result.now ≡ outward self.now.tasks t }
    {
        list_at(&self.outward, t / self.loops, t % self.loops)
    }

    /// How many tasks a task reads.
    pub fn count(&self, t: u64) -> u64
        requires { t < task_count self.now.tasks }
        ensures { result ≡ need_count (net_of self.now.tasks) t }
    {
        let edges = self.inward(t).len() as u64;
        if t < self.loops { edges - 1 } else { edges }
    }

    /// The inner edges out of a task, in order: all but the exit edge.
    pub fn feeds(&self, t: u64) -> &[u64]
        requires { t < task_count self.now.tasks }
        ensures { result.now ≡ feeds_of self.now.tasks t }
    {
        let outward = self.outward(t);
        if t + self.loops < self.len() {
            outward
        } else {
            &outward[1..]
        }
    }

    /// The task that an edge goes into. Of an exit edge, it is a number above those of all tasks.
    pub fn reader(&self, edge: u64) -> u64
        requires { edge < edges_of self.now.tasks }
        ensures { result ≡ reader_of self.now.tasks edge }
    {
        let stride = self.loops + self.reads.len() as u64;
        let place = edge % stride;
        let first = edge / stride * self.loops;
        if place < self.loops {
            first + place
        } else {
            first + self.reads[(place - self.loops) as usize].reader
        }
    }
}
