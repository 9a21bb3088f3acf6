// What a single token means.

ghost use Rattle.std.specs.Prelude.{◌≡◌};
ghost use Rattle.fv_parse_grammar.specs.headline.Symbols.{outside, power, operator};
ghost use Rattle.fv_parse_grammar.specs.declared.symbol.Operands.TheVariants.{Expressions};
ghost use Rattle.fv_lex.specs.declared.token.Symbol.TheVariants.{Comma};

use fv_lex::Symbol;
use fv_num::Op;
use fv_parse_grammar::{Commas, Operands, Operator, Primitive};

/// How loosely an operator of expressions binds, in a pattern or not.
fn outside(operands: Operands, power: usize) -> usize
    ensures { result ≡ outside operands power }
{
    match operands {
        Operands::Expressions => power,
        Operands::Patterns => 99,
    }
}

/// How loosely a comma binds.
fn comma_power(commas: Commas) -> usize
    ensures { result ≡ power Expressions commas Comma }
{
    match commas {
        Commas::Join => 7,
        Commas::Separate => 99,
    }
}

/// How loosely a token joins what stands before it: an operator one more than its precedence.
pub(crate) fn power(operands: Operands, commas: Commas, token: Symbol) -> usize
    ensures { result ≡ power operands commas token }
{
    match token {
        Symbol::Name(_) | Symbol::Integer(_) => 0,
        Symbol::Tick | Symbol::Open => outside(operands, 1),
        Symbol::Primitive(Primitive::Delay) => outside(operands, 2),
        Symbol::Primitive(
            Primitive::Point(Op::Mul | Op::Div | Op::Rem | Op::And | Op::Xor | Op::Shl | Op::Shr),
        ) => outside(operands, 3),
        Symbol::Plus | Symbol::Minus | Symbol::Primitive(Primitive::Point(Op::Or)) => {
            outside(operands, 4)
        }
        Symbol::Primitive(Primitive::Point(Op::Lt | Op::Le | Op::Gt | Op::Ge | Op::Eq | Op::Ne)) =>
            outside(operands, 5),
        Symbol::Tilde => 6,
        Symbol::Comma => comma_power(commas),
        Symbol::Colon => 8,
        Symbol::Split | Symbol::Merge => 9,
        _ => 99,
    }
}

/// The operator that a token is.
pub(crate) fn operator(token: Symbol) -> Operator
    ensures { result ≡ operator token }
{
    match token {
        Symbol::Primitive(primitive) => Operator::Infix(primitive),
        Symbol::Plus => Operator::Infix(Primitive::Point(Op::Add)),
        Symbol::Minus => Operator::Infix(Primitive::Point(Op::Sub)),
        Symbol::Tilde => Operator::Recursion,
        Symbol::Comma => Operator::Parallel,
        Symbol::Split => Operator::Split,
        Symbol::Merge => Operator::Merge,
        _ => Operator::Sequence,
    }
}
