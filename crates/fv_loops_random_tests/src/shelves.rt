// Lanes, tables and cells in vectors.

ghost use Rattle.std.specs.Prelude.{◌≡◌, ◌↔◌, ◌<◌, ◌≤◌, ◌+◌, ◌^◌, length, IsTrue};
ghost use Rattle.fv_num.specs.headline.Tables.{place as place_of, read_at, written};
ghost use Rattle.fv_loopcode.specs.headline.Lanes.{sample_at, appended};
ghost use Rattle.fv_loopcode.specs.Lanes.{HasSample, HasJust};
ghost use Rattle.fv_loops_random_tests.specs.Shelves.{lane_on, items_of, state_on};

use fv_loopcode::Store;

/// A lane.
#[derive(Drop)]
pub struct Track {
    /// The history of the lane and the samples that are written, and room for more.
    pub samples: Vec<i32>,
    /// How many samples the history has.
    pub history: u32,
    /// How many of the samples are there, those of the history too.
    pub written: u64,
}

impl Track {
    // The sample that lies `back` samples before this one of the block.
    fn at(&self, index: u64, back: u64) -> i32
        requires small { index < 2 ^ 32 }
        requires there { HasSample (lane_on self.now) index back }
        ensures { result ≡ sample_at (lane_on self.now) index back }
    {
        self.samples[(u64::from(self.history) + index - back) as usize]
    }

    /// How many samples are there.
    pub fn len(&self) -> u64
        ensures { result ≡ length (lane_on self.now).items }
    {
        self.written.min(self.samples.len() as u64)
    }

    // Whether there are exactly `samples` samples of the block.
    fn has_just(&self, samples: u64) -> bool
        ensures { IsTrue result ↔ HasJust (lane_on self.now) samples }
    {
        let history = u64::from(self.history);
        let len = self.len();
        history <= len && samples == len - history
    }

    // Appends a sample.
    fn append(&mut self, value: i32)
        requires { 1 ≤ (lane_on self.old).room }
        ensures { lane_on self.new ≡ appended (lane_on self.old) value }
    {
        self.samples[self.written as usize] = value;
        self.written += 1;
    }
}

/// The items of a table or of cells.
#[derive(Drop)]
pub struct Items {
    pub numbers: Vec<i32>,
}

// The place that an index means among `count` items: its own, or the nearest one.
fn place(count: usize, index: i32) -> usize
    requires { 0 < count }
    ensures is { result ≡ place_of count index }
    ensures within { result < count }
{
    if index < 0 {
        return 0;
    }
    (index as usize).min(count - 1)
}

impl Items {
    // The item at an index, clamped to the items.
    fn at(&self, index: i32) -> i32
        requires { 0 < length (items_of self.now) }
        ensures { result ≡ read_at (items_of self.now) index }
    {
        self.numbers[place(self.numbers.len(), index)]
    }

    // Puts a number at an index, clamped to the items.
    fn put(&mut self, index: i32, number: i32)
        requires { 0 < length (items_of self.old) }
        ensures { items_of self.new ≡ written (items_of self.old) index number }
    {
        let count = self.numbers.len();
        self.numbers[place(count, index)] = number;
    }
}

/// A store of any number of lanes, tables and cells.
#[derive(Drop)]
pub struct Shelves {
    pub lanes: Vec<Track>,
    pub tables: Vec<Items>,
    pub cells: Vec<Items>,
}

impl Store for Shelves {
    ghost state = { λ s. state_on s };

    ghost rest = { λ _. tt };

    fn load(&self, lane: u64, index: u64, back: u64) -> i32 {
        self.lanes[lane as usize].at(index, back)
    }

    fn has_just(&self, lane: u64, samples: u64) -> bool {
        self.lanes[lane as usize].has_just(samples)
    }

    fn append(&mut self, lane: u64, value: i32) {
        self.lanes[lane as usize].append(value);
    }

    fn read(&self, table: u64, index: i32) -> i32 {
        self.tables[table as usize].at(index)
    }

    fn exchange(&mut self, cells: u64, w: i32, x: i32, r: i32) -> i32 {
        self.cells[cells as usize].put(w, x);
        self.cells[cells as usize].at(r)
    }
}
