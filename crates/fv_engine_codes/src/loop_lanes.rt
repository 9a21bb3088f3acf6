// The lanes of one loop: its own, which it appends, and those of other loops that it loads, as they were seen; its tables and cells.

use crate::loop_cells::LoopCells;
use fv_lines::{LaneWriter, Seen};
use fv_loopcode::Store;

/// What the code of one loop works on. Its lanes are numbered anew: first its own ones, then the seen ones. Tables and cells have the
/// plan's numbers.
#[derive(Drop)]
pub struct LoopLanes<'a, 'b> {
    pub own: Vec<LaneWriter<'a>>,
    pub seen: Vec<Seen<'a>>,
    pub cells: LoopCells<'b>,
}

impl<'a, 'b> Store for LoopLanes<'a, 'b> {
    ghost use Rattle.fv_engine_codes.specs.Lanes.{state_in, AreLanesValid, LanesRest, rest_in};

    ghost state = { λ s. state_in s };

    ghost is_valid = { λ s. AreLanesValid s };

    ghost Rest = { LanesRest };

    ghost rest = { λ s. rest_in s };

    fn load(&self, lane: u64, index: u64, back: u64) -> i32 {
        let i = lane as usize;
        let own = self.own.len();
        if i < own {
            self.own[i].seen().sample(index, back)
        } else {
            self.seen[i - own].sample(index, back)
        }
    }

    fn has_just(&self, lane: u64, samples: u64) -> bool {
        let i = lane as usize;
        let own = self.own.len();
        if i < own {
            self.own[i].seen().has_just(samples)
        } else {
            self.seen[i - own].has_just(samples)
        }
    }

    fn append(&mut self, lane: u64, value: i32) {
        // Only its own lanes have room.
        self.own[lane as usize].append(value);
    }

    fn read(&self, table: u64, index: i32) -> i32 {
        self.cells.read(table, index)
    }

    fn exchange(&mut self, cells: u64, w: i32, x: i32, r: i32) -> i32 {
        // Only cells of its own have items.
        self.cells.exchange(cells, w, x, r)
    }

    fn load_many(&self, lane: u64, index: u64, back: u64, to: &mut [i32]) {
        let i = lane as usize;
        let own = self.own.len();
        if i < own {
            self.own[i].seen().samples(index, back, to)
        } else {
            self.seen[i - own].samples(index, back, to)
        }
    }

    fn append_many(&mut self, lane: u64, values: &[i32]) {
        // Only its own lanes have room, which no sample needs.
        if values.is_empty() {
            return;
        }
        self.own[lane as usize].append_many(values);
    }
}
