// Items.

use fv_diagram::{DiagramId, Node, Prim};

/// A node whose parts are the items at these places.
#[derive(Clone, Copy)]
pub enum Item {
    Prim(Prim),
    Number(i32),
    Wave(u64),
    Table(u64, bool),
    Bind(u64),
    Par(u64, u64),
    Seq(u64, u64),
    Split(u64, u64),
    Merge(u64, u64),
    Rec(u64, u64),
}

/// A wire.
pub const WIRE: Item = Item::Prim(Prim::Wire);

// The node of an item.
pub(crate) fn node_of(item: Item) -> Node {
    match item {
        Item::Prim(prim) => Node::Prim(prim),
        Item::Number(n) => Node::Number(n),
        Item::Wave(table) => Node::Wave(table),
        Item::Table(table, writes) => Node::Table { table, writes },
        Item::Bind(a) => Node::Bind {
            slot: 9,
            body: DiagramId::new(a),
        },
        Item::Par(a, b) => Node::Par {
            left: DiagramId::new(a),
            right: DiagramId::new(b),
        },
        Item::Seq(a, b) => Node::Seq {
            left: DiagramId::new(a),
            right: DiagramId::new(b),
        },
        Item::Split(a, b) => Node::Split {
            left: DiagramId::new(a),
            right: DiagramId::new(b),
        },
        Item::Merge(a, b) => Node::Merge {
            left: DiagramId::new(a),
            right: DiagramId::new(b),
        },
        Item::Rec(a, b) => Node::Rec {
            left: DiagramId::new(a),
            right: DiagramId::new(b),
        },
    }
}
