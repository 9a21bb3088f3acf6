// The gate in memory.

ghost use Rattle.std.specs.Prelude.{◌≡◌, ◌+◌, ◌<◌, ◌≤◌, [], length, option_map, IfOk, IsSomeAnd};
ghost use Rattle.fv_outside.specs.Journal.{told_after, told_at};

use crate::gate::{Gate, Line};
use crate::tasks::{Reads, Task};
use std::alloc::{AllocError, Global};
use std::marker::Model;

/// A gate that keeps what it is told, until one more block, line or pair does not fit; from then on it tells nothing.
#[derive(Drop)]
pub struct Recorder {
    // The blocks that it was told of, in order.
    blocks: Vec<KeptBlock>,
    // Which loop reads from which: the pairs of all blocks, one block after another.
    reads: Vec<Reads>,
    // The lines of the journals of all blocks, one block after another.
    lines: Vec<Line>,
    // The most blocks that fit.
    most_blocks: u32,
    // The most lines that fit over all blocks, and the most pairs.
    most_lines: u32,
    // Whether all that it was told fitted so far. Where not, it tells nothing.
    tells: bool,
}

/// What is kept of a block: its numbers of loops and of vectors, and where its pairs and lines stand among those of all blocks.
#[derive(Clone, Copy)]
pub struct KeptBlock {
    loops: u64,
    vectors: u32,
    reads: Part,
    lines: Part,
}

/// A range of indices, with an exclusive end.
#[derive(Clone, Copy)]
pub struct Part {
    start: usize,
    end: usize,
}

impl Model for Recorder {
    ghost use Rattle.std.specs.Prelude.{◌^◌, ◌<◌, ◌≤◌, Option, vec_len, vec_capacity};
    ghost use Rattle.fv_outside.specs.headline.Journal.{Told};
    ghost use Rattle.fv_outside.specs.Recorded.{told_of, IsRecorded};

    ghost Value = { Option Told };

    ghost view = { λ r. told_of r.tells r.blocks.items r.reads.items r.lines.items r.most_blocks r.most_lines };

    // All memory is taken at first.
    ghost invariant = { λ r. IsRecorded r.blocks.items r.reads.items r.lines.items
        × (r.most_blocks < 2 ^ 32) × (vec_len r.blocks ≤ r.most_blocks) × (r.most_blocks ≤ vec_capacity r.blocks)
        × (vec_len r.reads ≤ r.most_lines) × (r.most_lines ≤ vec_capacity r.reads)
        × (vec_len r.lines ≤ r.most_lines) × (r.most_lines ≤ vec_capacity r.lines) };
}

impl Recorder {
    ghost use Rattle.std.specs.Prelude.{Some};

    /// A gate with room for `blocks` blocks, and for `lines` lines and `lines` pairs over all of them.
    pub fn new(alloc: Global, blocks: u32, lines: u32) -> Result<Recorder, AllocError>
        ensures { IfOk result (λ r. r ≡ Some (record { entries = []; room = record { calls = blocks; lines = lines; pairs = lines } })) }
    {
        Ok(Recorder {
            blocks: Vec::with_capacity(alloc, blocks as usize)?,
            reads: Vec::with_capacity(alloc, lines as usize)?,
            lines: Vec::with_capacity(alloc, lines as usize)?,
            most_blocks: blocks,
            most_lines: lines,
            tells: true,
        })
    }

    /// How many blocks it was told of, where it tells them.
    pub fn calls(&self) -> Option<u32>
        ensures { result ≡ option_map (λ t. length t.entries) self.now }
    {
        if self.tells {
            Some(self.blocks.len() as u32)
        } else {
            None
        }
    }

    /// The loops of block i.
    pub fn loops(&self, i: u32) -> u64
        requires { IsSomeAnd self.now (λ t. i < length t.entries) }
        ensures { result ≡ (told_at self.now i).tasks.loops }
    {
        self.blocks[i as usize].loops
    }

    /// The vectors of block i.
    pub fn vectors(&self, i: u32) -> u32
        requires { IsSomeAnd self.now (λ t. i < length t.entries) }
        ensures { result ≡ (told_at self.now i).tasks.vectors }
    {
        self.blocks[i as usize].vectors
    }

    /// The pairs of loops of block i.
    pub fn reads(&self, i: u32) -> &[Reads]
        requires { IsSomeAnd self.now (λ t. i < length t.entries) }
        ensures { result.now ≡ (told_at self.now i).tasks.reads }
    {
        let part = self.blocks[i as usize].reads;
        &self.reads[part.start..part.end]
    }

    /// The lines of block i.
    pub fn lines(&self, i: u32) -> &[Line]
        requires { IsSomeAnd self.now (λ t. i < length t.entries) }
        ensures { result.now ≡ (told_at self.now i).lines }
    {
        let part = self.blocks[i as usize].lines;
        &self.lines[part.start..part.end]
    }
}

impl Gate for Recorder {
    ghost told = { λ t. t };

    fn at(&self, _worker: u32, _task: Task) {}

    fn block_done(&mut self, loops: u64, vectors: u32, reads: &[Reads], lines: &[Line])
        ensures { self.new ≡ told_after self.old (record { tasks = record { loops = loops; vectors = vectors; reads = reads.now }; lines = lines.now }) }
    {
        if !self.tells {
            return;
        }
        let fits = self.blocks.len() < self.most_blocks as usize
            && reads.len() <= self.most_lines as usize - self.reads.len()
            && lines.len() <= self.most_lines as usize - self.lines.len();
        if !fits {
            self.tells = false;
            return;
        }
        self.reads.extend_from_slice(reads).unwrap();
        self.lines.extend_from_slice(lines).unwrap();
        let block = KeptBlock {
            loops,
            vectors,
            reads: part_behind(self.reads.len(), reads.len()),
            lines: part_behind(self.lines.len(), lines.len()),
        };
        self.blocks.push_reserved(block);
    }
}

// The last `count` of the first `end` places.
fn part_behind(end: usize, count: usize) -> Part
    requires { count ≤ end }
    ensures { (result.start + count ≡ end) × (result.end ≡ end) }
{
    Part {
        start: end - count,
        end,
    }
}
