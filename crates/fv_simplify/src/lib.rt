//! Simpler graphs of signals: two runs of a pass that rebuilds, and between them equal signals read as one, even in feedback. Promises
//! a graph with the same values in which no rule applies (`simplify`), and an exact test of what may be read as one (`folds`).
#![tactic(auto)]

mod finder;
mod fold_laws;
mod folded;
mod foldings;
mod image;
mod kept_operand;
mod late;
mod laws;
mod marks;
mod operation;
mod pass;
mod read;
mod redirected;
mod rooms;
mod rule_laws;
mod short;
mod simpler;
mod widths;

pub use finder::find;
pub use fold_laws::{
    folded_values, redirected_is_graph, redirected_keeps_all, redirected_keeps_values,
};
pub use folded::fold;
pub use foldings::folds;
pub use kept_operand::choice;
pub use late::delayed;
pub use laws::{a_pass_rebuilds, images_are_put};
pub use redirected::redirect;
pub use rule_laws::{
    choices_keep_values, no_delay_is_taken_over, reads_no_further, rebuilt_is_folded,
    the_rest_is_kept, twice_is_simpler, values_are_kept,
};
pub use short::are_short;
pub use simpler::simplify;
