// What several workers keep of a plan.

use fv_engine_codes::{CellPlaces, LaneCount};
use fv_loopcode_machine::Code;

/// What several workers keep of a plan. By loop: its code over the lanes that it sees, and how many these are. By cells: the place
/// among those of its loop. And how many workers may run a block, and how many steps all codes have.
#[derive(Drop)]
pub(crate) struct CrewCodes {
    pub(crate) codes: Vec<Code>,
    pub(crate) counts: Vec<LaneCount>,
    pub(crate) places: CellPlaces,
    pub(crate) workers: u32,
    pub(crate) steps: u64,
}
