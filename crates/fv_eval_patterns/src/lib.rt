//! Patterns against values, and memos of long patterns. Promises exactly whether patterns match and what they bind (`matches`,
//! `match_all`), and that what is remembered is true.
#![tactic(auto)]

mod all_patterns;
mod bits;
mod diagram_patterns;
mod long_patterns;
mod shapes;
mod survey;
mod trials;
mod value_patterns;

pub use all_patterns::{Matching, Subjects};
pub use bits::{Bits, WORD};
pub use shapes::{Composition, Shape};
pub use survey::{Look, ShapeRow};
pub use trials::{Outcome, Trial, Trials};
pub use value_patterns::{Bindings, matches, parts_of};
