// Diagrams that are put by hand, and their numbers.

ghost use Rattle.fv_evaluation_tests.specs.Built.{AreComposed};

use crate::built::{Item, built};
use fv_arity::ArityKind;
use fv_diagram::{DiagramId, Diagrams, Node, Prim};
use fv_diagram_numbers::number_of;
use fv_eval_scopes::Numbers;
use fv_num::Op;
use fv_rules::{EvalRefusal, literal, negative_literal, put};
use std::alloc::Global;
use std::test::Fail;

// Diagrams in postfix order, each with its number.
static NUMBERS: [(&str, &[Item], Option<i32>); 13] = [
    ("a literal", &[Item::Number(7)], Some(7)),
    (
        "a difference",
        &[
            Item::Number(7),
            Item::Number(5),
            Item::Par,
            Item::Op(Op::Sub),
            Item::Seq,
        ],
        Some(2),
    ),
    (
        "a product of a difference",
        &[
            Item::Number(7),
            Item::Number(5),
            Item::Par,
            Item::Op(Op::Sub),
            Item::Seq,
            Item::Number(3),
            Item::Par,
            Item::Op(Op::Mul),
            Item::Seq,
        ],
        Some(6),
    ),
    (
        "a square",
        &[Item::Number(5), Item::Op(Op::Mul), Item::Split],
        Some(25),
    ),
    (
        "sums of every other number",
        &[
            Item::Number(1),
            Item::Number(2),
            Item::Par,
            Item::Number(30),
            Item::Number(40),
            Item::Par,
            Item::Par,
            Item::Op(Op::Sub),
            Item::Merge,
        ],
        Some(-11),
    ),
    (
        "numbers that are dealt in turn",
        &[
            Item::Number(9),
            Item::Number(4),
            Item::Par,
            Item::Op(Op::Sub),
            Item::Op(Op::Rem),
            Item::Par,
            Item::Split,
            Item::Op(Op::Mul),
            Item::Seq,
        ],
        Some(5),
    ),
    (
        "the first of two",
        &[
            Item::Number(1),
            Item::Number(2),
            Item::Par,
            Item::Prim(Prim::Attach),
            Item::Seq,
        ],
        Some(1),
    ),
    (
        "the second of two",
        &[
            Item::Number(1),
            Item::Number(2),
            Item::Par,
            Item::Prim(Prim::Cut),
            Item::Prim(Prim::Wire),
            Item::Par,
            Item::Seq,
        ],
        Some(2),
    ),
    (
        "a sum that wraps",
        &[
            Item::Number(2147483647),
            Item::Number(1),
            Item::Par,
            Item::Op(Op::Add),
            Item::Seq,
        ],
        Some(-2147483648),
    ),
    (
        "a delay",
        &[Item::Number(1), Item::Prim(Prim::Mem), Item::Seq],
        None,
    ),
    (
        "two outputs",
        &[Item::Number(1), Item::Number(2), Item::Par],
        None,
    ),
    ("an input", &[Item::Prim(Prim::Int)], None),
    ("a primitive with inputs", &[Item::Op(Op::Add)], None),
];

// The number of a diagram.
fn number(alloc: Global, items: &[Item]) -> Result<Option<i32>, EvalRefusal> {
    let mut diagrams = Diagrams::new(alloc);
    let id = built(alloc, &mut diagrams, items)?;
    Ok(number_of(alloc, &diagrams, id)?)
}

#[test]
fn numbers_of_diagrams(rt: HostRuntime) {
    for (name, items, expected) in &NUMBERS {
        match number(rt.alloc(), items) {
            Ok(found) => assert!(rt; found == *expected, "{name}"),
            Err(_) => panic!(rt; "{name} is refused"),
        }
    }
}

// The numbers of a diagram, asked for twice and then put, with the node that was put.
fn asked(
    alloc: Global,
    diagrams: &mut Diagrams,
    items: &[Item],
) -> Result<(Option<i32>, Option<i32>, Node), EvalRefusal>
    requires { AreComposed diagrams.old }
{
    let id = built(alloc, diagrams, items)?;
    let mut numbers = Numbers::new(alloc);
    let first = numbers.number_of(alloc, diagrams, id)?;
    let second = numbers.number_of(alloc, diagrams, id)?;
    let settled = numbers.settle(alloc, diagrams, id)?;
    Ok((first, second, diagrams.node(settled)))
}

// A diagram in postfix order, its number, which is asked for twice, and what it is put as.
#[derive(Clone, Copy)]
struct Settled {
    name: &'static str,
    items: &'static [Item],
    number: Option<i32>,
    settled: Node,
}

const SETTLED: [Settled; 2] = [
    Settled {
        name: "a square",
        items: &[Item::Number(5), Item::Op(Op::Mul), Item::Split],
        number: Some(25),
        settled: Node::Number(25),
    },
    Settled {
        name: "a wire",
        items: &[Item::Prim(Prim::Wire)],
        number: None,
        settled: Node::Prim(Prim::Wire),
    },
];

// Whether a row's diagram has its number, the second time too, and is put as the row says.
fn is_settled(alloc: Global, row: &Settled) -> bool {
    let mut diagrams = Diagrams::new(alloc);
    match asked(alloc, &mut diagrams, row.items) {
        Ok((first, second, node)) => {
            first == row.number && second == row.number && node == row.settled
        }
        Err(_) => false,
    }
}

#[test]
fn numbers_are_remembered(rt: HostRuntime) {
    for row in &SETTLED {
        assert!(rt; is_settled(rt.alloc(), row), "{}", row.name);
    }
}

// What is written, and the number that it is.
struct Written {
    name: &'static str,
    written: u32,
    number: i32,
}

static PLAIN: [Written; 2] = [
    Written {
        name: "the greatest number",
        written: 2147483647,
        number: 2147483647,
    },
    Written {
        name: "one more",
        written: 2147483648,
        number: -2147483648,
    },
];

static NEGATIVE: [Written; 2] = [
    Written {
        name: "a small number",
        written: 7,
        number: -7,
    },
    Written {
        name: "the least number",
        written: 2147483648,
        number: -2147483648,
    },
];

#[test]
fn literals_wrap(rt: HostRuntime) {
    for row in &PLAIN {
        assert!(rt; literal(row.written) == row.number, "{}", row.name);
    }
    for row in &NEGATIVE {
        assert!(rt; negative_literal(row.written) == row.number, "{}", row.name);
    }
}

// The refusal of a sum after a sum.
fn refused(diagrams: &mut Diagrams) -> Result<DiagramId, EvalRefusal> {
    let id = put(diagrams, &Node::Prim(Prim::Point(Op::Add)))?;
    let twice = Node::Seq {
        left: id,
        right: id,
    };
    put(diagrams, &twice)
}

#[test]
fn a_composition_that_does_not_fit(rt: HostRuntime) -> Result<(), Fail> {
    let mut diagrams = Diagrams::new(rt.alloc());
    match refused(&mut diagrams) {
        Err(EvalRefusal::Arity { kind, left, right }) => {
            assert!(rt; kind == ArityKind::Seq && left == 1 && right == 2);
        }
        _ => panic!(rt; "not refused for its arity"),
    }
    Ok(())
}
