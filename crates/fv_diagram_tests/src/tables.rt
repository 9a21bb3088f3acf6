// Waveforms and tables that are put by hand: what they answer, how wide they are, and their spans.

use crate::runs::play;
use crate::spans::assert_found;
use fv_arity::{ArityKind, ArityRefusal, arity_of};
use fv_diagram::{Arity, DiagramId, Diagrams, Node, Prim};
use fv_interval::{DelayRefusal, spans};
use fv_num::Span;
use std::alloc::Global;
use std::process::Abort;
use std::test::Fail;
use test_diagrams::{Build, Item, Unput, WIRE};

// Lists, and items over them, of which the last one is meant.
struct Drawn {
    name: &'static str,
    lists: &'static [&'static [i32]],
    items: &'static [Item],
}

// Frames that stand one after another, and what the last item answers on them.
struct Row {
    drawn: Drawn,
    frames: &'static [i32],
    want: &'static [i32],
}

static ROWS: [Row; 8] = [
    Row {
        drawn: Drawn {
            name: "a waveform begins again",
            lists: &[&[10, -20, 30]],
            items: &[Item::Wave(0)],
        },
        frames: &[],
        want: &[3, 10, 3, -20, 3, 30, 3, 10],
    },
    Row {
        drawn: Drawn {
            name: "a waveform of one number",
            lists: &[&[7]],
            items: &[Item::Wave(0)],
        },
        frames: &[],
        want: &[1, 7, 1, 7],
    },
    Row {
        drawn: Drawn {
            name: "an index outside means the nearest number",
            lists: &[&[10, 20, 30]],
            items: &[Item::Table(0, false)],
        },
        frames: &[-1, 0, 1, 2, 3, 2147483647, i32::MIN],
        want: &[10, 10, 20, 30, 30, 30, 10],
    },
    Row {
        drawn: Drawn {
            name: "what is written is read in the same frame and later",
            lists: &[&[1, 2, 3]],
            items: &[Item::Table(0, true)],
        },
        frames: &[1, 9, 1, 0, 5, 1, 7, -4, 9, -1, 8, 0, 2, 6, 1],
        want: &[9, 9, -4, 8, 9],
    },
    Row {
        drawn: Drawn {
            name: "where nothing was written the list's own number is read",
            lists: &[&[5, 7]],
            items: &[Item::Table(0, true)],
        },
        frames: &[0, 1, 1, 1, 2, 0],
        want: &[7, 1],
    },
    Row {
        drawn: Drawn {
            name: "a waveform reads a table",
            lists: &[&[2, 0, 1], &[100, 200, 300]],
            items: &[
                Item::Wave(0),
                Item::Prim(Prim::Cut),
                WIRE,
                Item::Par(1, 2),
                Item::Seq(0, 3),
                Item::Table(1, false),
                Item::Seq(4, 5),
            ],
        },
        frames: &[],
        want: &[300, 100, 200, 300],
    },
    Row {
        drawn: Drawn {
            name: "a table is written where its last answer says",
            lists: &[&[5, 7]],
            items: &[Item::Table(0, true), WIRE, Item::Rec(0, 1)],
        },
        frames: &[1, 1, 2, 1, 3, 0],
        want: &[7, 2, 1],
    },
    Row {
        drawn: Drawn {
            name: "each of two tables has the list for itself",
            lists: &[&[4]],
            items: &[Item::Table(0, true), Item::Table(0, false), Item::Par(0, 1)],
        },
        frames: &[0, 9, 0, 0, 0, 3, 0, 0],
        want: &[9, 4, 3, 4],
    },
];

// Keeps a list.
fn is_kept(alloc: Global, build: &mut Build, list: &[i32]) -> bool {
    matches!(build.table(alloc, list), Ok(Some(_)))
}

// Puts an item.
fn is_put(build: &mut Build, item: Item) -> bool {
    build.put(item) == Ok(None)
}

// The diagrams of items over lists.
fn built(rt: &impl Abort, alloc: Global, drawn: &Drawn) -> Build {
    let mut build = Build::new(alloc);
    for list in drawn.lists {
        assert!(rt; is_kept(alloc, &mut build, list), "{}", drawn.name);
    }
    for item in drawn.items {
        assert!(rt; is_put(&mut build, *item), "{}", drawn.name);
    }
    build
}

// Compares what the last item of a row answers.
fn play_row(rt: &impl Abort, alloc: Global, row: &Row) -> Result<(), Fail> {
    let build = built(rt, alloc, &row.drawn);
    let count = build.count();
    assert!(rt; count > 0);
    let root = DiagramId::new(count - 1);
    play(
        rt,
        alloc,
        row.drawn.name,
        build.diagrams(),
        root,
        row.frames,
        row.want,
    )
}

#[test]
fn tables_run(rt: HostRuntime) -> Result<(), Fail> {
    for row in &ROWS {
        play_row(&rt, rt.alloc(), row)?;
    }
    Ok(())
}

// A row of delays: the greatest number of the last item's one delay, or its refusal.
struct DelayRow {
    drawn: Drawn,
    want: Result<u32, DelayRefusal>,
}

static DELAYS: [DelayRow; 5] = [
    DelayRow {
        drawn: Drawn {
            name: "the greatest number of a table",
            lists: &[&[3, 7, 5]],
            items: &[
                WIRE,
                Item::Table(0, false),
                Item::Par(0, 1),
                Item::Prim(Prim::Delay),
                Item::Seq(2, 3),
            ],
        },
        want: Ok(7),
    },
    DelayRow {
        drawn: Drawn {
            name: "the least number of a table",
            lists: &[&[3, -1, 5]],
            items: &[
                WIRE,
                Item::Table(0, false),
                Item::Par(0, 1),
                Item::Prim(Prim::Delay),
                Item::Seq(2, 3),
            ],
        },
        want: Err(DelayRefusal::DelayNegative { least: -1 }),
    },
    DelayRow {
        drawn: Drawn {
            name: "what is written counts too",
            lists: &[&[1, 4]],
            items: &[
                WIRE,
                Item::Number(0),
                Item::Number(9),
                Item::Par(2, 1),
                Item::Par(1, 3),
                Item::Table(0, true),
                Item::Seq(4, 5),
                Item::Par(0, 6),
                Item::Prim(Prim::Delay),
                Item::Seq(7, 8),
            ],
        },
        want: Ok(9),
    },
    DelayRow {
        drawn: Drawn {
            name: "the numbers of a waveform",
            lists: &[&[2, 6, 4]],
            items: &[
                WIRE,
                Item::Wave(0),
                Item::Prim(Prim::Cut),
                Item::Par(2, 0),
                Item::Seq(1, 3),
                Item::Par(0, 4),
                Item::Prim(Prim::Delay),
                Item::Seq(5, 6),
            ],
        },
        want: Ok(6),
    },
    DelayRow {
        drawn: Drawn {
            name: "how many numbers a waveform has",
            lists: &[&[2, 6, 4]],
            items: &[
                WIRE,
                Item::Wave(0),
                Item::Prim(Prim::Cut),
                Item::Par(0, 2),
                Item::Seq(1, 3),
                Item::Par(0, 4),
                Item::Prim(Prim::Delay),
                Item::Seq(5, 6),
            ],
        },
        want: Ok(3),
    },
];

// Compares the delay of the last item of a row.
fn compare_delay(rt: &impl Abort, alloc: Global, row: &DelayRow) {
    let name = row.drawn.name;
    let build = built(rt, alloc, &row.drawn);
    let count = build.count();
    assert!(rt; count > 0);
    let root = DiagramId::new(count - 1);
    let controls = [Span::full(), Span::full()];
    let found = spans(alloc, build.diagrams(), root, &controls);
    match row.want {
        Ok(number) => assert_found(rt, &found, Ok(&[number]), name),
        Err(refusal) => assert_found(rt, &found, Err(refusal), name),
    }
}

#[test]
fn tables_have_spans(rt: HostRuntime) {
    for row in &DELAYS {
        compare_delay(&rt, rt.alloc(), row);
    }
}

// An item, and its width.
struct Width {
    item: Item,
    arity: Arity,
}

static WIDTHS: [Width; 3] = [
    Width {
        item: Item::Wave(0),
        arity: Arity {
            inputs: 0,
            outputs: 2,
        },
    },
    Width {
        item: Item::Table(0, false),
        arity: Arity {
            inputs: 1,
            outputs: 1,
        },
    },
    Width {
        item: Item::Table(0, true),
        arity: Arity {
            inputs: 3,
            outputs: 1,
        },
    },
];

#[test]
fn tables_have_widths(rt: HostRuntime) -> Result<(), Fail> {
    let mut build = Build::new(rt.alloc());
    assert!(rt; build.table(rt.alloc(), &[])?.is_none());
    assert!(rt; build.table(rt.alloc(), &[1, 2])? == Some(0));
    for width in &WIDTHS {
        assert!(rt;
            build.arity(width.item) == Ok(width.arity),
            "{:?}",
            width.arity
        );
        build.put(width.item)?;
    }
    let refusal = ArityRefusal::Arity {
        kind: ArityKind::Seq,
        left: 2,
        right: 1,
    };
    assert!(rt; build.arity(Item::Seq(0, 1)) == Err(Unput::Arity(refusal)));
    Ok(())
}

// A primitive, and how many inputs it has.
static PRIMITIVES: [(Prim, u32); 2] = [(Prim::ReadTable, 3), (Prim::WriteTable, 5)];

#[test]
fn table_primitives_have_widths(rt: HostRuntime) -> Result<(), Fail> {
    let none = Diagrams::new(rt.alloc());
    for (prim, inputs) in &PRIMITIVES {
        let arity = Arity {
            inputs: *inputs,
            outputs: 1,
        };
        assert!(rt; arity_of(&none, Node::Prim(*prim)) == Ok(arity), "{prim:?}");
    }
    Ok(())
}

#[test]
fn lists_are_kept(rt: HostRuntime) -> Result<(), Fail> {
    let mut diagrams = Diagrams::new(rt.alloc());
    let first = diagrams.table(rt.alloc(), &[5, -6])?;
    let second = diagrams.table(rt.alloc(), &[7])?;
    assert!(rt; diagrams.values(first) == [5, -6].as_slice(), "the first");
    assert!(rt; diagrams.values(second) == [7].as_slice(), "the second");
    let wave = diagrams.put(
        Node::Wave(second),
        Arity {
            inputs: 0,
            outputs: 2,
        },
    )?;
    assert!(rt; !diagrams.has_table_primitive(wave), "a waveform");
    let primitive = diagrams.put(
        Node::Prim(Prim::ReadTable),
        Arity {
            inputs: 3,
            outputs: 1,
        },
    )?;
    assert!(rt; diagrams.has_table_primitive(primitive), "a primitive");
    Ok(())
}
