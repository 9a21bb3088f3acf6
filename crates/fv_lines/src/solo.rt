// All lanes, for one worker.

use crate::begun_lane::BegunLane;
use crate::flat::{advance, get, get_many, put, put_many, settle};
use crate::shape::{LaneShape, LaneState};
use fv_pool::Layout;

/// All lanes of a layout, lent to one worker for a block. Each borrow has a lifetime of its own, so that the owner knows what each
/// of them ends with.
#[derive(Drop)]
pub struct Solo<'a, 'l, 's, 'b, 'c> {
    // The cells of all lanes.
    cells: &'a mut [i32],
    // Where each lane's part of the cells begins, and how long it is.
    layout: &'l Layout,
    // By lane: its shape. It is read where the block begins and ends.
    shapes: &'s [LaneShape],
    // By lane: where its history begins. It is read where the block begins, and set where it ends.
    states: &'b mut [LaneState],
    // By lane: what a load or an append needs to know of it, in one record.
    begun: &'c mut [BegunLane],
    // How many samples each lane takes in the block.
    frames: u32,
}

impl<'a, 'l, 's, 'b, 'c> Solo<'a, 'l, 's, 'b, 'c> {
    ghost use Rattle.std.specs.Prelude.{◌≡◌, ◌↔◌, ◌+◌, ◌^◌, ◌<◌, ◌≤◌, length, slice_set, slice_index, IsTrue, ℕ};
    ghost use Rattle.fv_loopcode.specs.Words.{argument};
    ghost use Rattle.fv_loopcode.specs.headline.Lanes.{lane_of, appended, sample_at};
    ghost use Rattle.fv_loopcode.specs.Lanes.{all_appended, HasSample, HasJust};
    ghost use Rattle.fv_lines.specs.Solo.{lanes_of, lane_at, lengths_in, shapes_in, cells_in, frames_in, written_in, opening_lanes};
    ghost use Rattle.fv_lines.specs.Solo.{AreLists, AreHeld, AreFramed, AreFull, HoldNext, IsSolo, rest_of, rest_in};

    /// Every lane begins with the history that its cells and its state hold. `begun` has one record for each lane, whatever they say.
    pub fn begin(
        cells: &'a mut [i32],
        layout: &'l Layout,
        shapes: &'s [LaneShape],
        states: &'b mut [LaneState],
        begun: &'c mut [BegunLane],
        frames: u32,
    ) -> Solo<'a, 'l, 's, 'b, 'c>
        requires lists { AreLists layout.now shapes.now states.old begun.old cells.old }
        requires lanes { AreHeld layout.now shapes.now states.old }
        requires frames { AreFramed layout.now shapes.now frames }
        ensures valid { IsSolo result }
        ensures kept { rest_of result
            ≡ rest_in cells.entry.ghost_name states.entry.ghost_name begun.entry.ghost_name layout.now shapes.now frames }
        ensures lanes { lanes_of result ≡ opening_lanes layout.now shapes.now states.old frames cells.old }
    {
        let places = layout.places();
        for lane in 0..layout.len() {
            let i = lane as usize;
            let shape = shapes[i];
            let place = places[i];
            let first = place as usize;
            let len = layout.length(lane) as usize;
            let origin = settle(&mut cells[first..first + len], &shape, states[i]);
            begun[i] = BegunLane {
                shape,
                place,
                origin,
                written: 0,
            };
        }
        Solo {
            cells,
            layout,
            shapes,
            states,
            begun,
            frames,
        }
    }

    /// Appends a sample to a lane.
    pub fn append(&mut self, lane: u64, value: i32)
        requires valid { IsSolo self.old }
        requires there { lane < length (lanes_of self.old) }
        requires room { 1 ≤ (lane_of (lanes_of self.old) lane).room }
        ensures lanes { lanes_of self.new ≡ slice_set (lanes_of self.old) lane (appended (lane_of (lanes_of self.old) lane) value) }
        ensures valid { IsSolo self.new }
        ensures kept { rest_of self.new ≡ rest_of self.old }
    {
        self.write(lane, value);
    }

    /// The sample of a lane that lies `back` samples before sample `index` of the block.
    pub fn at(&self, lane: u64, index: u64, back: u64) -> i32
        requires valid { IsSolo self.now }
        requires there { lane < length (lanes_of self.now) }
        requires small { index < 2 ^ 32 }
        requires sample { HasSample (lane_of (lanes_of self.now) lane) index back }
        ensures { result ≡ sample_at (lane_of (lanes_of self.now) lane) index back }
    {
        self.read(lane, index, back)
    }

    /// The number of lanes.
    pub fn len(&self) -> u64
        ensures { result ≡ length (lanes_of self.now) }
    {
        self.layout.len()
    }

    /// Whether there are no lanes.
    pub fn is_empty(&self) -> bool
        ensures { IsTrue result ↔ (length (lanes_of self.now) ≡ 0) }
    {
        self.layout.is_empty()
    }

    /// How many samples more a lane takes.
    pub fn room(&self, lane: u64) -> u32
        requires valid { IsSolo self.now }
        requires there { lane < length (lanes_of self.now) }
        ensures { result ≡ (lane_of (lanes_of self.now) lane).room }
    {
        self.frames - self.begun[lane as usize].written
    }

    /// Whether the sample that lies `back` samples before sample `index` of the block is there.
    pub fn has_sample(&self, lane: u64, index: u64, back: u64) -> bool
        requires valid { IsSolo self.now }
        requires there { lane < length (lanes_of self.now) }
        requires small { index < 2 ^ 32 }
        ensures { IsTrue result ↔ HasSample (lane_of (lanes_of self.now) lane) index back }
    {
        let i = lane as usize;
        let begun = self.begun[i];
        let history = u64::from(begun.shape.history);
        let newest = history + index;
        back <= newest && newest - back < history + u64::from(begun.written)
    }

    /// Whether the lane has just `samples` samples of the block.
    pub fn has_just(&self, lane: u64, samples: u64) -> bool
        requires valid { IsSolo self.now }
        requires there { lane < length (lanes_of self.now) }
        ensures { IsTrue result ↔ HasJust (lane_of (lanes_of self.now) lane) samples }
    {
        samples == u64::from(self.begun[lane as usize].written)
    }

    /// Fills `to` with the samples that lie `back` samples before those of the block from number `index` on. The cells of a lane
    /// lie one after another, so they are one or two copies.
    pub fn load_many(&self, lane: u64, index: u64, back: u64, to: &mut [i32])
        requires valid { IsSolo self.now }
        requires there { lane < length (lanes_of self.now) }
        requires small { index + length to.old ≤ 2 ^ 32 }
        requires samples { (k : ℕ) → k < length to.old → HasSample (lane_of (lanes_of self.now) lane) (index + k) back }
        ensures long { length to.new ≡ length to.old }
        ensures samples { (k : ℕ) → k < length to.old → argument to.new k ≡ sample_at (lane_of (lanes_of self.now) lane) (index + k) back }
    {
        self.read_many(lane, index, back, to)
    }

    /// Appends these samples to a lane, one after another.
    pub fn append_many(&mut self, lane: u64, values: &[i32])
        requires valid { IsSolo self.old }
        requires there { lane < length (lanes_of self.old) }
        requires room { length values.now ≤ (lane_of (lanes_of self.old) lane).room }
        ensures lanes { lanes_of self.new
            ≡ slice_set (lanes_of self.old) lane (all_appended (lane_of (lanes_of self.old) lane) (argument values.now) (length values.now)) }
        ensures valid { IsSolo self.new }
        ensures kept { rest_of self.new ≡ rest_of self.old }
    {
        self.write_many(lane, values)
    }

    /// The block ends. The cells and the states then hold every lane's next history.
    pub fn finish(self)
        requires valid { IsSolo self }
        requires full { AreFull (lanes_of self) }

        // What the loans end with: `self.exit` has them in the order of the fields.
        ensures cells { self.exit.0.now ≡ cells_in self.entry }
        ensures count { length self.exit.1.1.1.0.now ≡ length (lengths_in self.entry) }
        ensures states { AreHeld (lengths_in self.entry) (shapes_in self.entry) self.exit.1.1.1.0.now }
        ensures held { HoldNext self.entry self.exit.1.1.1.0.now }
    {
        let shapes = self.shapes;
        let states = self.states;
        let begun = self.begun;
        let frames = self.frames;
        for i in 0..shapes.len() {
            states[i] = advance(&shapes[i], begun[i].origin, frames);
        }
    }

    // Appends a sample to a lane, by its number of written samples.
    fn write(&mut self, lane: u64, value: i32)
        requires valid { IsSolo self.old }
        requires there { lane < length (lengths_in self.old) }
        requires room { slice_index (written_in self.old) lane < self.old.frames }
        ensures valid { IsSolo self.new }
        ensures kept { rest_of self.new ≡ rest_of self.old }
        ensures lanes { lanes_of self.new ≡ slice_set (lanes_of self.old) lane (appended (lane_at self.old lane) value) }
    {
        let i = lane as usize;
        let begun = self.begun[i];
        let place = begun.place as usize;
        let len = begun.shape.len as usize;
        let index = u64::from(begun.written);
        put(
            &mut self.cells[place..place + len],
            &begun.shape,
            begun.origin,
            index,
            value,
        );
        self.begun[i].written += 1;
    }

    // Appends these samples to a lane, by its number of written samples.
    fn write_many(&mut self, lane: u64, values: &[i32])
        requires valid { IsSolo self.old }
        requires there { lane < length (lengths_in self.old) }
        requires room { slice_index (written_in self.old) lane + length values.now ≤ self.old.frames }
        ensures valid { IsSolo self.new }
        ensures kept { rest_of self.new ≡ rest_of self.old }
        ensures lanes { lanes_of self.new
            ≡ slice_set (lanes_of self.old) lane (all_appended (lane_at self.old lane) (argument values.now) (length values.now)) }
    {
        let i = lane as usize;
        let begun = self.begun[i];
        let place = begun.place as usize;
        let len = begun.shape.len as usize;
        let index = u64::from(begun.written);
        put_many(
            &mut self.cells[place..place + len],
            &begun.shape,
            begun.origin,
            index,
            values,
        );
        self.begun[i].written += values.len() as u32;
    }

    // A sample of a lane, from its origin.
    fn read(&self, lane: u64, index: u64, back: u64) -> i32
        requires valid { IsSolo self.now }
        requires there { lane < length (lengths_in self.now) }
        requires small { index < 2 ^ 32 }
        requires sample { HasSample (lane_at self.now lane) index back }
        ensures { result ≡ sample_at (lane_at self.now lane) index back }
    {
        let i = lane as usize;
        let begun = self.begun[i];
        let place = begun.place as usize;
        let len = begun.shape.len as usize;
        get(
            &self.cells[place..place + len],
            &begun.shape,
            begun.origin,
            index,
            back,
        )
    }

    // Copies as many samples of a lane as `to` has, from its origin.
    fn read_many(&self, lane: u64, index: u64, back: u64, to: &mut [i32])
        requires valid { IsSolo self.now }
        requires there { lane < length (lengths_in self.now) }
        requires small { index + length to.old ≤ 2 ^ 32 }
        requires samples { (k : ℕ) → k < length to.old → HasSample (lane_at self.now lane) (index + k) back }
        ensures long { length to.new ≡ length to.old }
        ensures samples { (k : ℕ) → k < length to.old → argument to.new k ≡ sample_at (lane_at self.now lane) (index + k) back }
    {
        if to.is_empty() {
            return;
        }
        let i = lane as usize;
        let begun = self.begun[i];
        let place = begun.place as usize;
        let len = begun.shape.len as usize;
        get_many(
            &self.cells[place..place + len],
            &begun.shape,
            begun.origin,
            index,
            back,
            to,
        );
    }
}
