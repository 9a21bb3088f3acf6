// The nodes of a tree.

use fv_parse_grammar::{Iteration, Literal, Operator, Panel, Primitive, Side, Slider, Switch};
use std::marker::Model;

/// The number of a node in its tree.
#[derive(Clone, Copy, Debug, PartialEq, Eq)]
pub struct TreeId(u64);

impl Model for TreeId {
    ghost use Rattle.std.specs.Prelude.{ℕ};

    ghost Value = { ℕ };

    ghost view = { λ a. a.0 };

    ghost inverse = { λ n. record { 0 = n } };
}

impl TreeId {
    ghost use Rattle.std.specs.Prelude.{◌≡◌};

    /// The id with this number.
    pub fn new(number: u64) -> TreeId
        ensures { result ≡ number }
    {
        TreeId(number)
    }

    /// Its number.
    pub fn number(self) -> u64
        ensures { result ≡ self }
    {
        self.0
    }
}

/// A node. Its parts have lower numbers. Names and labels are numbers of tokens.
#[derive(Debug, Drop)]
pub enum TreeNode {
    /// An integer, with or without `+`.
    Number(u32),
    /// `-` and an integer.
    Negative(u32),
    Named(u64),
    /// `-` and a name.
    MinusNamed(u64),
    Primitive(Primitive),
    /// An expression in parentheses.
    Group(TreeId),
    /// The parameters and the body.
    Abstraction(Vec<u64>, TreeId),
    /// The list of rules.
    Case(TreeId),
    /// The numbers.
    Waveform(Vec<Literal>),
    /// The index, the count and the body.
    Iteration(Iteration, u64, TreeId, TreeId),
    Ports(Side, TreeId),
    /// The label.
    Switch(Switch, u64),
    /// The label, init, min, max and step.
    Slider(Slider, u64, TreeId, TreeId, TreeId, TreeId),
    /// The label and the expression.
    Panel(Panel, u64, TreeId),
    /// `'`
    Delayed(TreeId),
    /// The function and the list of arguments.
    Apply(TreeId, TreeId),
    Binary(Operator, TreeId, TreeId),
    /// The expression and the list of its definitions.
    Where(TreeId, TreeId),
    /// The list of patterns and the right side.
    Rule(TreeId, TreeId),
    /// A definition without parameters: the name and the right side.
    Constant(u64, TreeId),
    /// A definition with parameters: the name, the list of patterns and the right side.
    Function(u64, TreeId, TreeId),
    /// Definitions, rules, patterns or arguments, in order.
    List(Vec<TreeId>),
}
