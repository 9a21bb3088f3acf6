// A lane that is written in one block.

ghost use Rattle.std.specs.Prelude.{◌≡◌, ◌+◌, ◌<◌, ◌≤◌, ◌++◌, length};
ghost use Rattle.fv_lines.specs.Shape.{copied_history};

use crate::row::Row;
use crate::seen::Seen;
use crate::shape::{COPIED_HISTORY, LaneShape, LaneState};
use fv_pool::{Ended, Halves, Part};

/// A lane that is written in one block, over a part of the region: from its history on to the part's end, and then from the part's
/// front.
#[derive(Drop)]
pub struct LaneWriter<'a> {
    // The cells from where the history begins to the part's end.
    high: Row<'a>,
    // The cells of the part before those: none where the history is copied to the front.
    low: Row<'a>,
    // How the loans of both rows make that of the part.
    halves: Halves,
    // How the loans of the part and of what comes after it make the one that the part was cut from.
    outer: Halves,
    // How long the lane is, and how its history lies.
    shape: LaneShape,
    // How many samples the block has.
    frames: u32,
    // How many of them were written.
    written: u32,
    ghost inner: { outer.low ≡ halves.whole },
    ghost tied: { (halves.low ≡ low.link.whole) × (halves.high ≡ high.link.whole) },
    ghost order: { 0 < length low.front.now → length high.rest.items ≡ 0 },
    ghost count: { (length high.front.now + length low.front.now ≡ shape.history + written) × (written ≤ frames) × (frames ≤ shape.block) },
    ghost len: { (length high.front.now + length high.rest.items) + (length low.front.now + length low.rest.items) ≡ shape.len },
    ghost start: { shape.history ≤ copied_history → length low.front.now + length low.rest.items ≡ 0 },
}

impl<'a> LaneWriter<'a> {
    ghost use Rattle.std.specs.Prelude.{◌≡◌, ◌+◌, ◌-◌, ◌<◌, ◌≤◌, [], ◌∷◌, ◌++◌, ◌↔◌, length, take, drop, IsTrue};
    ghost use Rattle.fv_lines.specs.Hold.{held, Holds, begun_at};
    ghost use Rattle.fv_lines.specs.Seen.{samples_of, lane_seen};
    ghost use Rattle.fv_lines.specs.Writer.{list_of, content_of, part_of, outer_of, written_by, frames_of, shape_of};

    /// Appends a sample.
    pub fn append(&mut self, value: i32)
        requires { written_by self.old < frames_of self.old }
        ensures list { list_of self.new ≡ list_of self.old ++ value ∷ [] }
        ensures written { written_by self.new ≡ written_by self.old + 1 }
        ensures rest { (frames_of self.new ≡ frames_of self.old)
            × (shape_of self.new ≡ shape_of self.old) × (part_of self.new ≡ part_of self.old) × (outer_of self.new ≡ outer_of self.old) }
    {
        if self.high.is_full() {
            self.low.push(value);
        } else {
            self.high.push(value);
        }
        self.written += 1;
    }

    /// Appends these samples, one after another: as many as the cells up to the part's end take, and then the others.
    pub fn append_many(&mut self, values: &[i32])
        requires { written_by self.old + length values.now ≤ frames_of self.old }
        ensures list { list_of self.new ≡ list_of self.old ++ values.now }
        ensures written { written_by self.new ≡ written_by self.old + length values.now }
        ensures rest { (frames_of self.new ≡ frames_of self.old)
            × (shape_of self.new ≡ shape_of self.old) × (part_of self.new ≡ part_of self.old) × (outer_of self.new ≡ outer_of self.old) }
    {
        let before = values.len().min(self.high.left());
        self.high.push_many(&values[..before]);
        self.low.push_many(&values[before..]);
        self.written += values.len() as u32;
    }

    /// Whether all samples of the block are written.
    pub fn is_full(&self) -> bool
        ensures { IsTrue result ↔ (written_by self.now ≡ frames_of self.now) }
    {
        self.written == self.frames
    }

    /// The lane as it is now. Later appends do not change it.
    pub fn seen(&self) -> Seen<'a>
        ensures { lane_seen result ≡ record { history = (shape_of self.now).history; items = list_of self.now; room = 0 } }
    {
        Seen::new(self.high.filled(), self.low.filled(), self.shape.history)
    }

    /// A lane that begins with the history that the part and the state hold.
    pub fn begin(part: Part<'a>, shape: LaneShape, state: LaneState, frames: u32) -> LaneWriter<'a>
        requires { Holds shape state.start part.cells.items × (frames ≤ shape.block) }
        ensures list { list_of result ≡ held shape state.start part.entry.cells.items }
        ensures again { held shape (begun_at shape state.start) (content_of result) ≡ list_of result }
        ensures holds { Holds shape (begun_at shape state.start) (content_of result) }
        ensures rest { (written_by result ≡ 0)
            × (frames_of result ≡ frames) × (shape_of result ≡ shape) × (part_of result ≡ part.entry.cells.name) × (outer_of result ≡ part.entry.halves) }
    {
        let Part {
            cells,
            len,
            halves: outer,
        } = part;
        let cells = cells.into_slice(len);
        let history = shape.history as usize;
        let start = state.start as usize;
        if shape.history <= COPIED_HISTORY {
            cells.copy_within(start..start + history, 0);
            LaneWriter::over(cells, outer, 0, shape, frames)
        } else {
            LaneWriter::over(cells, outer, start, shape, frames)
        }
    }

    // A lane whose history already lies where it is to begin.
    fn over(
        cells: &'a mut [i32],
        outer: Halves,
        start: usize,
        shape: LaneShape,
        frames: u32,
    ) -> LaneWriter<'a>
        requires { Holds shape start cells.now × (frames ≤ shape.block) × (shape.history ≤ copied_history → start ≡ 0) × (outer.low ≡ cells.ghost_name) }
        ensures list { list_of result ≡ held shape start cells.old }
        ensures content { content_of result ≡ cells.old }
        ensures rest { (written_by result ≡ 0)
            × (frames_of result ≡ frames) × (shape_of result ≡ shape) × (part_of result ≡ cells.entry.ghost_name) × (outer_of result ≡ outer) }
    {
        let history = shape.history as usize;
        let (low, high, halves) = Halves::cut(cells, start);
        let first = if history <= high.len() {
            history
        } else {
            high.len()
        };
        let mut high = Row::new(high);
        let mut low = Row::new(low);
        high.keep(first);
        low.keep(history - first);
        LaneWriter {
            high,
            low,
            halves,
            outer,
            shape,
            frames,
            written: 0,
        }
    }

    /// The whole lane, where the next history lies, how the part's loan ends, and what ties it to the loan that it was cut from.
    pub fn close(self) -> (Seen<'a>, LaneState, Ended, Halves)
        requires { written_by self ≡ frames_of self }
        ensures seen { samples_of result.0 ≡ list_of self.entry }
        ensures ended { (result.2.name ≡ part_of self.entry) × (result.2.last ≡ content_of self.entry) }
        ensures outer { (result.3 ≡ outer_of self.entry) × (result.3.low ≡ result.2.name) }
        ensures held { held (shape_of self.entry) result.1.start result.2.last ≡ drop (frames_of self.entry) (list_of self.entry) }
        ensures holds { Holds (shape_of self.entry) result.1.start result.2.last }
    {
        let seen = self.seen();
        let shape = self.shape;
        let start = self.low.len() as u64 + u64::from(self.frames);
        let start = if start >= shape.len {
            start - shape.len
        } else {
            start
        };
        let (ended, outer) = self.end();
        (seen, LaneState { start }, ended, outer)
    }

    /// The history that the lane began with, whatever is written after it: where it lies, how the part's loan ends, and what ties it to
    /// the loan that it was cut from.
    pub fn stop(self) -> (LaneState, Ended, Halves)
        ensures ended { (result.1.name ≡ part_of self.entry) × (result.1.last ≡ content_of self.entry) }
        ensures outer { (result.2 ≡ outer_of self.entry) × (result.2.low ≡ result.1.name) }
        ensures held { held (shape_of self.entry) result.0.start result.1.last ≡ take (shape_of self.entry).history (list_of self.entry) }
        ensures holds { Holds (shape_of self.entry) result.0.start result.1.last }
    {
        let start = self.low.len() as u64;
        let start = if start >= self.shape.len {
            start - self.shape.len
        } else {
            start
        };
        let (ended, outer) = self.end();
        (LaneState { start }, ended, outer)
    }

    // How the part's loan ends where nothing more is written, and what ties it to the loan that the part was cut from.
    fn end(self) -> (Ended, Halves)
        ensures ended { (result.0.name ≡ part_of self.entry) × (result.0.last ≡ content_of self.entry) }
        ensures outer { (result.1 ≡ outer_of self.entry) × (result.1.low ≡ result.0.name) }
    {
        let (_, low) = self.low.end();
        let (_, high) = self.high.end();
        (self.halves.end(low, high), self.outer)
    }

    /// Where the next history lies.
    pub fn finish(self) -> LaneState
        requires { written_by self ≡ frames_of self }
        ensures held { held (shape_of self.entry) result.start (content_of self.entry) ≡ drop (frames_of self.entry) (list_of self.entry) }
        ensures holds { Holds (shape_of self.entry) result.start (content_of self.entry) }
    {
        let (_, state, _, _) = self.close();
        state
    }
}
