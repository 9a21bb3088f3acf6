// A lane, a table and cells in vectors.

ghost use Rattle.std.specs.Prelude.{◌≡◌, ◌<◌, length};
ghost use Rattle.fv_num.specs.headline.Tables.{place as place_of};
ghost use Rattle.fv_loops_tests.specs.Shelf.{state_in};

use fv_loopcode::Store;

/// A store of one lane, one table and one list of cells.
#[derive(Drop)]
pub struct Shelf {
    /// The history of the lane and the samples that are written, and room for more.
    pub samples: Vec<i32>,
    /// How many samples the history has.
    pub history: u32,
    /// How many of the samples are there, those of the history too.
    pub written: u64,
    /// The items of the table.
    pub table: Vec<i32>,
    /// The items of the cells.
    pub cells: Vec<i32>,
}

// The place that an index means among `count` items: its own, or the nearest one.
fn place(count: usize, index: i32) -> usize
    requires { 0 < count }
    ensures is { result ≡ place_of count index }
    ensures within { result < count }
{
    if index < 0 {
        return 0;
    }
    (index as usize).min(count - 1)
}

impl Store for Shelf {
    ghost state = { λ s. state_in s };

    ghost rest = { λ _. tt };

    fn load(&self, _lane: u64, index: u64, back: u64) -> i32 {
        self.samples[(u64::from(self.history) + index - back) as usize]
    }

    fn has_just(&self, _lane: u64, samples: u64) -> bool {
        let history = u64::from(self.history);
        let len = self.written.min(self.samples.len() as u64);
        history <= len && samples == len - history
    }

    fn append(&mut self, _lane: u64, value: i32) {
        self.samples[self.written as usize] = value;
        self.written += 1;
    }

    fn read(&self, _table: u64, index: i32) -> i32 {
        self.table[place(self.table.len(), index)]
    }

    fn exchange(&mut self, _cells: u64, w: i32, x: i32, r: i32) -> i32 {
        let count = self.cells.len();
        self.cells[place(count, w)] = x;
        self.cells[place(count, r)]
    }
}
