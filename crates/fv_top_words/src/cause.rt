// What is wrong with the words.

/// What is wrong with the words, in the order in which the causes are looked for.
#[derive(Clone, Copy, PartialEq, Eq, Debug)]
pub enum Cause {
    /// They are not of the form of a command.
    Form,
    /// A number is not spelled as one.
    Number,
    /// A number is out of its range.
    Range,
    /// A block has too many vectors.
    Vectors,
    /// An option does not go together with an input file.
    Together,
    /// The output is also the program, the input or the script.
    Same,
}
