// Arities that are refused.

use fv_arity::{ArityKind, ArityRefusal};
use fv_diagram::Prim;
use std::process::Abort;
use std::test::Fail;
use test_diagrams::{Build, Item, Unput, WIRE};

// A wire, two and three of them, a number, and a cut.
static ITEMS: [Item; 5] = [
    WIRE,
    Item::Par(0, 0),
    Item::Par(1, 0),
    Item::Number(1),
    Item::Prim(Prim::Cut),
];

// An item over these, and why it has no arity.
struct Row {
    item: Item,
    refusal: ArityRefusal,
}

static ROWS: [Row; 6] = [
    Row {
        item: Item::Seq(0, 1),
        refusal: ArityRefusal::Arity {
            kind: ArityKind::Seq,
            left: 1,
            right: 2,
        },
    },
    Row {
        item: Item::Split(1, 2),
        refusal: ArityRefusal::Arity {
            kind: ArityKind::Split,
            left: 2,
            right: 3,
        },
    },
    Row {
        item: Item::Merge(4, 0),
        refusal: ArityRefusal::Arity {
            kind: ArityKind::Merge,
            left: 0,
            right: 1,
        },
    },
    Row {
        item: Item::Merge(2, 1),
        refusal: ArityRefusal::Arity {
            kind: ArityKind::Merge,
            left: 3,
            right: 2,
        },
    },
    Row {
        item: Item::Rec(0, 1),
        refusal: ArityRefusal::Arity {
            kind: ArityKind::RecOut,
            left: 1,
            right: 2,
        },
    },
    Row {
        item: Item::Rec(3, 0),
        refusal: ArityRefusal::Arity {
            kind: ArityKind::RecIn,
            left: 0,
            right: 1,
        },
    },
];

#[test]
fn arities_are_refused(rt: HostRuntime) -> Result<(), Fail> {
    let mut build = Build::new(rt.alloc());
    for item in &ITEMS {
        build.put(*item)?;
    }
    for row in &ROWS {
        assert_eq!(rt; build.arity(row.item), Err(Unput::Arity(row.refusal)));
    }
    Ok(())
}
