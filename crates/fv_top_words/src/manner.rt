// Of which kinds a run's files are.

/// What the file of a run's program is.
#[derive(Clone, Copy, PartialEq, Eq)]
pub enum ProgramKind {
    /// The text of one program.
    Alone,
    /// A file of jobs: texts of programs that are played side by side.
    Rack,
}

/// Of which kind the input of a run is.
#[derive(Clone, Copy, PartialEq, Eq)]
pub enum InputKind {
    /// A WAV file.
    Wave,
    /// An AU file where its first four bytes say so, else a WAV file.
    Either,
}

/// Of which kind its output is.
#[derive(Clone, Copy, PartialEq, Eq)]
pub enum OutputKind {
    /// A WAV file.
    Wave,
    /// An AU file.
    Au,
}

/// Of which kinds the files of a run are.
#[derive(Clone, Copy, PartialEq, Eq)]
pub struct Manner {
    pub program: ProgramKind,
    pub input: InputKind,
    pub output: OutputKind,
}
