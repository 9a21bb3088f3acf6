//! The tokens of a Faust text. Promises the tokens of a text or its first refusal (`tokens`), and that no text has two answers
//! (`one_answer`).
#![tactic(auto)]

mod form;
mod lexer;
mod next;
mod refusal;
mod scan;
mod symbol;
mod token;

pub use form::{Iteration, Panel, Side, Slider, Switch};
pub use lexer::{one_answer, tokens};
pub use refusal::LexRefusal;
pub use token::{Kind, Place, Symbol, Tokens};
