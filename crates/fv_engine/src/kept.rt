// What a block works on where one worker runs it.

use crate::lane_store::LaneStore;
use fv_lines::{exchange, item};
use fv_loopcode::Store;
use fv_split_plan::Plan;

/// Lanes, the plan's tables, and for each of its cells a list, lent for a block.
#[derive(Drop)]
pub(crate) struct Kept<'p, 'o, 'k, L> {
    pub(crate) plan: &'p Plan,
    pub(crate) lanes: &'o mut L,
    pub(crate) lists: &'k mut [Vec<i32>],
}

impl<L: LaneStore> Store for Kept<'_, '_, '_, L> {
    ghost use Rattle.fv_engine.specs.inner.Kept.{state_of, KeptRest, rest_with};

    ghost state = { λ s. state_of s.plan.now (L.lanes s.lanes.now) s.lists.now };

    ghost is_valid = { λ s. L.is_valid s.lanes.now };

    ghost Rest = { KeptRest L.Rest };

    ghost rest = { λ s. rest_with s.plan.now s.lanes.ghost_name (L.rest s.lanes.now) s.lists.ghost_name };

    fn load(&self, lane: u64, index: u64, back: u64) -> i32 {
        self.lanes.at(lane, index, back)
    }

    fn has_just(&self, lane: u64, samples: u64) -> bool {
        self.lanes.has_just(lane, samples)
    }

    fn append(&mut self, lane: u64, value: i32) {
        self.lanes.append(lane, value)
    }

    fn read(&self, table: u64, index: i32) -> i32 {
        item(self.plan.table(table), index)
    }

    fn exchange(&mut self, cells: u64, w: i32, x: i32, r: i32) -> i32 {
        exchange(&mut self.lists[cells as usize], w, x, r)
    }

    fn load_many(&self, lane: u64, index: u64, back: u64, to: &mut [i32]) {
        self.lanes.load_many(lane, index, back, to)
    }

    fn append_many(&mut self, lane: u64, values: &[i32]) {
        self.lanes.append_many(lane, values)
    }
}
