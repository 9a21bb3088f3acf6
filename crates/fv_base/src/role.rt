// What a file is for.

/// What a file is for.
#[derive(Clone, Copy, PartialEq, Eq, Debug)]
pub enum Role {
    Program,
    Input,
    Controls,
    Output,
    Report,
}
