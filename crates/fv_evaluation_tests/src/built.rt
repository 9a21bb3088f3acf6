// Diagrams that are put in postfix order.

ghost use Rattle.std.specs.Prelude.{◌≡◌, ◌<◌, ◌≤◌, length, IfOk};
ghost use Rattle.fv_diagram.specs.Arena.{count_of, ChildrenBelow, NamesLists};
ghost use Rattle.fv_evaluation_tests.specs.Built.{AreComposed};

use fv_diagram::{DiagramId, Diagrams, Node, Prim};
use fv_num::Op;
use fv_rules::{EvalRefusal, put};
use std::alloc::Global;

// A diagram, or a composition of the last two.
#[derive(Clone, Copy)]
pub enum Item {
    Number(i32),
    Prim(Prim),
    Op(Op),
    Par,
    Seq,
    Split,
    Merge,
}

// Puts a node over diagrams.
fn over(diagrams: &mut Diagrams, node: &Node) -> Result<DiagramId, EvalRefusal>
    requires composed { AreComposed diagrams.old }
    requires children { ChildrenBelow (count_of diagrams.old) node.now }
    requires lists { NamesLists (length diagrams.old.lists) node.now }
    ensures composed { AreComposed diagrams.new }
    ensures there { IfOk result (λ i. i < count_of diagrams.new) }
    ensures grows { count_of diagrams.old ≤ count_of diagrams.new }
{
    put(diagrams, node)
}

// Puts an item over two diagrams.
fn put_item(
    diagrams: &mut Diagrams,
    item: Item,
    left: DiagramId,
    right: DiagramId,
) -> Result<DiagramId, EvalRefusal>
    requires composed { AreComposed diagrams.old }
    requires left { left < count_of diagrams.old }
    requires right { right < count_of diagrams.old }
    ensures composed { AreComposed diagrams.new }
    ensures there { IfOk result (λ i. i < count_of diagrams.new) }
    ensures grows { count_of diagrams.old ≤ count_of diagrams.new }
{
    match item {
        Item::Number(n) => over(diagrams, &Node::Number(n)),
        Item::Prim(prim) => over(diagrams, &Node::Prim(prim)),
        Item::Op(op) => over(diagrams, &Node::Prim(Prim::Point(op))),
        Item::Par => over(diagrams, &Node::Par { left, right }),
        Item::Seq => over(diagrams, &Node::Seq { left, right }),
        Item::Split => over(diagrams, &Node::Split { left, right }),
        Item::Merge => over(diagrams, &Node::Merge { left, right }),
    }
}

/// The diagram of items.
pub fn built(
    alloc: Global,
    diagrams: &mut Diagrams,
    items: &[Item],
) -> Result<DiagramId, EvalRefusal>
    requires { AreComposed diagrams.old }
    ensures composed { AreComposed diagrams.new }
    ensures there { IfOk result (λ i. i < count_of diagrams.new) }
{
    let mut last = over(diagrams, &Node::Prim(Prim::Wire))?;
    let mut before = Vec::new(alloc);
    for item in items {
        match item {
            Item::Number(_) | Item::Prim(_) | Item::Op(_) => {
                before.push(last)?;
                last = put_item(diagrams, *item, last, last)?;
            }
            Item::Par | Item::Seq | Item::Split | Item::Merge => {
                let left = before.pop().unwrap_or(last);
                last = put_item(diagrams, *item, left, last)?;
            }
        }
    }
    Ok(last)
}
