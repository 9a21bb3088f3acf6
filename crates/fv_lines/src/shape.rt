// How long a lane is, and how its history lies.

ghost use Rattle.std.specs.Prelude.{◌≡◌, ◌+◌, ◌^◌, ◌<◌, ◌≤◌};
ghost use Rattle.fv_lines.specs.Shape.{copied_history, IsLaneLength, IsMask};

/// The longest history that a block finds copied before its own samples. Lanes of longer ones are rings.
pub(crate) const COPIED_HISTORY: u32 = 16;

/// A lane that keeps `history` samples and takes up to `block` more, in `len` cells.
#[derive(Clone, Copy, Drop)]
pub struct LaneShape {
    pub history: u32,
    pub block: u32,
    pub len: u64,
    mask: u64,
    ghost mask_is: { IsMask history len mask },
    ghost fits: { (1 ≤ block) × (history + block ≤ 2 ^ 31) × (history + block ≤ len) × (len < 2 ^ 32) },
}

/// The cell of its part where a lane's history begins.
#[derive(Clone, Copy, Drop)]
pub struct LaneState {
    pub start: u64,
}

impl LaneShape {
    ghost use Rattle.fv_lines.specs.Shape.{Turned};
    ghost use Rattle.fv_lines.specs.Hold.{begun_at};

    /// The shape of a lane that keeps `history` samples and takes up to `block` more in a block.
    pub fn new(history: u32, block: u32) -> LaneShape
        requires { (1 ≤ block) × (history + block ≤ 2 ^ 31) }
        ensures { (result.history ≡ history) × (result.block ≡ block) × IsLaneLength history block result.len }
    {
        let sum = u64::from(history) + u64::from(block);
        let len = if history <= COPIED_HISTORY {
            sum
        } else {
            sum.next_power_of_two()
        };
        let mask = if history <= COPIED_HISTORY {
            0xffff_ffff
        } else {
            len - 1
        };
        LaneShape {
            history,
            block,
            len,
            mask,
        }
    }

    /// The number of its cells.
    pub fn len(&self) -> u64
        ensures { result ≡ self.now.len }
    {
        self.len
    }

    /// The cell that comes after `n` cells, where a ring begins anew after its last cell.
    pub(crate) fn cell(&self, n: u64) -> u64
        requires copied { self.now.history ≤ copied_history → n ≤ self.now.len }
        requires ring { copied_history < self.now.history → n < self.now.len + self.now.len }
        ensures copied { self.now.history ≤ copied_history → result ≡ n }
        ensures ring { copied_history < self.now.history → Turned self.now.len n result }
    {
        let shape = *self;
        // The length's range is needed in the proof.
        let _len = shape.len;
        n & shape.mask
    }

    /// Where the history lies once a block has begun, as long as nothing is appended.
    pub fn begun(&self, state: LaneState) -> LaneState
        ensures { result.start ≡ begun_at self.now state.start }
    {
        if self.history <= COPIED_HISTORY {
            LaneState { start: 0 }
        } else {
            state
        }
    }
}
