//! The grammar of Faust as a relation, its recursive descent, and viable prefixes. Promises that tokens spell at most one tree
//! (`spelled_once`), that the descent reads exactly what is spelled (`reads_what_is_spelled`), and that the place where it stops is
//! that of the syntax error: the tokens before it begin a program, and with the next one none begins (`stops_at_the_place`).
#![tactic(auto)]

mod form;
mod laws;
mod prefixes;
mod symbol;

pub use form::{Literal, Operator};
pub use fv_lex::{Iteration, Panel, Side, Slider, Switch};
pub use fv_num::Primitive;
pub use laws::{reads_what_is_spelled, spelled_once};
pub use prefixes::{
    beginnings_are_closed, stops_at_the_place, stops_behind_a_beginning, stops_where_none_goes_on,
};
pub use symbol::{Commas, Inside, Items, Mark, Operands};
