// Texts, each with the answer to it.

use crate::answers::answer;
use std::alloc::Global;
use std::process::Abort;
use std::test::Fail;

/// A text, and the answer to it.
pub struct Row {
    pub text: &'static str,
    pub answer: &'static str,
}

/// Each text has its answer.
pub fn assert_answers(rt: &impl Abort, alloc: Global, rows: &[Row]) -> Result<(), Fail> {
    for row in rows {
        let found = answer(alloc, row.text.as_bytes())?;
        assert_eq!(rt; found.as_str(), row.answer, "{}", row.text);
    }
    Ok(())
}
