//! One region of cells, cut into parts. Promises that parts do not overlap, and what the region holds after the loans of its cells have
//! ended.
#![tactic(auto)]

mod cells;
mod layout;
mod loan;
mod part;
mod region;

pub use cells::Cells;
pub use layout::Layout;
pub use loan::{Ended, Halves, Link};
pub use part::{Cutter, Part, Uncut};
pub use region::Region;
