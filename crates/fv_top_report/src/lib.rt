//! The lines of the report, with one row for each refusal. Promises exactly the bytes of each line (`report_refusal`, `report_done`).
#![tactic(auto)]

mod line;
mod refusal;
mod report;
mod row;
mod status;

pub use fv_top_words::Cause;
pub use refusal::Refusal;
pub use report::{report_done, report_made, report_numbers, report_refusal};
pub use status::{Status, Tally};
