// Signs at fixed places, and what stands in brackets and lists.

/// A sign that a production has at a fixed place.
#[derive(Clone, Copy, Debug, PartialEq, Eq)]
pub enum Mark {
    Open,
    Close,
    OpenBrace,
    CloseBrace,
    Comma,
    Equals,
    Arrow,
    Semicolon,
    Dot,
}

/// What stands inside a pair of brackets.
#[derive(Clone, Copy, Debug, PartialEq, Eq)]
pub enum Inside {
    Expression,
    /// An expression without the composition `,`.
    Argument,
    /// Compositions of patterns.
    Pattern,
    Arguments,
    Patterns,
    Rules,
    Definitions,
}

/// What operators join.
#[derive(Clone, Copy, Debug, PartialEq, Eq)]
pub enum Operands {
    /// Those of expressions.
    Expressions,
    /// Those of patterns.
    Patterns,
}

/// What a comma does in a phrase.
#[derive(Clone, Copy, Debug, PartialEq, Eq)]
pub enum Commas {
    /// It composes in parallel.
    Join,
    /// It ends the phrase, since it stands between parts of a list.
    Separate,
}

/// What a list has.
#[derive(Clone, Copy, Debug, PartialEq, Eq)]
pub enum Items {
    /// Definitions and declarations.
    Statements,
    Definitions,
    Rules,
    /// Arguments or patterns, by what their operators join, with commas between.
    Parts(Operands),
}
