//! Tests of the public calls of fv_lex and fv_parse.
#![tactic(auto)]

#[cfg(test)]
mod token_texts;
#[cfg(test)]
mod tree_texts;
