// Programs that tests make of their texts.

use fv_eval::{Program, evaluate};
use fv_lex::tokens;
use fv_parse::parse;
use std::alloc::Global;
use std::test::Fail;

/// The program of a text.
pub fn program_of(alloc: Global, text: &str) -> Result<Program, Fail> {
    let Ok(found) = tokens(alloc, text.as_bytes()) else {
        return Err("no tokens".into());
    };
    let Ok(tree) = parse(alloc, &found) else {
        return Err("no tree".into());
    };
    match evaluate(alloc, &tree) {
        Ok(program) => Ok(program),
        Err(_) => Err("no value".into()),
    }
}

/// The program that an expression defines, in which `a` is a slider from 0 to 10 that begins at 3, and `b` is an entry of any
/// number that begins at -2.
pub fn program_with_controls(alloc: Global, expression: &str) -> Result<Program, Fail> {
    let a = "a = hslider(\"a\", 3, 0, 10, 1);";
    let b = "b = nentry(\"b\", -2, -2147483647 - 1, 2147483647, 1);";
    let text = format!(in alloc; "{a} {b} process = {expression};")?;
    program_of(alloc, text.as_str())
}
