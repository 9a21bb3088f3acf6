// The held values of a block.

ghost use Rattle.std.specs.Prelude.{◌≡◌, ℕ, ◌<◌, length, All};
ghost use Rattle.fv_loopcode.specs.headline.Code.{NamesHeld};
ghost use Rattle.fv_split_plan.specs.headline.Plans.{IsHeldCode, LoadsWithin};
ghost use Rattle.fv_engine.specs.inner.Plans.{held_by};

use fv_lines::item;
use fv_loopcode::{Store, run, still_code_is_free};
use fv_split_plan::Plan;

// A store with the tables of a plan, one lane of one sample, and cells of one item. The code of held values neither loads, appends
// nor writes, so it reads nothing but the tables.
#[derive(Drop)]
struct OneSample<'p> {
    plan: &'p Plan,
    sample: i32,
    is_written: bool,
    item: i32,
}

impl Store for OneSample<'_> {
    ghost use Rattle.fv_engine.specs.inner.OneLane.{one_of_each};

    ghost state = { λ s. one_of_each s.plan.now.tables s.is_written s.sample s.item };

    ghost rest = { λ _. tt };

    fn load(&self, _lane: u64, _index: u64, _back: u64) -> i32 {
        self.sample
    }

    fn has_just(&self, _lane: u64, samples: u64) -> bool {
        samples == u64::from(self.is_written)
    }

    fn append(&mut self, _lane: u64, value: i32) {
        self.sample = value;
        self.is_written = true;
    }

    fn read(&self, table: u64, index: i32) -> i32 {
        item(self.plan.table(table), index)
    }

    fn exchange(&mut self, _cells: u64, _w: i32, x: i32, _r: i32) -> i32 {
        self.item = x;
        x
    }
}

/// Computes the held values under these controls.
pub(crate) fn hold(plan: &Plan, controls: &[i32], held: &mut [i32])
    requires long { length held.old ≡ length plan.now.held }
    requires code { IsHeldCode plan.now.held }
    requires reads { All (LoadsWithin plan.now) plan.now.held }
    requires controls { (k : ℕ) → NamesHeld plan.now.held k → k < length controls.now }
    ensures { held.new ≡ held_by plan.now controls.now }
{
    // For the prover: code that loads, appends and writes nothing may run over any state with the same tables.
    still_code_is_free();
    let mut store = OneSample {
        plan,
        sample: 0,
        is_written: false,
        item: 0,
    };
    let code = plan.held().steps();
    run(code, controls, &[], 0, 0, 1, held, &mut store);
}
