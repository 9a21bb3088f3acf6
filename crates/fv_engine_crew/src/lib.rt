//! A block by a crew of workers over the cells of one region: the parcels of a block, and how its lanes and cells go to their loops and
//! come back. Promises what one worker leaves, or, where memory is refused, that no task ran (`run_spread`).
#![tactic(auto)]

mod block;
mod body;
mod buffers;
mod cell_swap;
mod content;
mod crewed;
mod enter;
mod entries;
mod handed_lanes;
mod laws;
mod lent;
mod parcel;
mod returned_lanes;
mod room;
mod scratch;
mod spread;
mod start;
mod whole;

pub use block::SpreadBlock;
pub use body::LoopBody;
pub use cell_swap::swap_cells;
pub use content::{Content, SeenLanes, Writers};
pub use entries::entries_of;
pub use handed_lanes::deal;
pub use laws::dealt_rooms_enter;
pub use parcel::LoopParcel;
pub use returned_lanes::collect;
pub use room::take_room;
pub use spread::run_spread;
pub use start::Start;
