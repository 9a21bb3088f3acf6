// Graphs that are built. What a test puts is put by functions that borrow the builder, so they drop nothing where memory ends.

ghost use Rattle.std.specs.Prelude.{◌≡◌, ◌<◌, [], ◌∷◌, All, IfOk, OnOk, length};
ghost use Rattle.fv_share.specs.Drafts.{AreClosed, lists_in};
ghost use Rattle.fv_signal_tests.specs.Empty.{empty};

use fv_num::Op;
use fv_share::Builder;
use fv_signal::{Graph, Signal, SignalId};
use std::alloc::{AllocError, Global};
use std::process::Abort;
use std::test::Fail;
use test_graphs::graph_over;

// Puts two inputs, and the first one again.
fn put_inputs(rt: &impl Abort, builder: &mut Builder) -> Result<(), Fail> {
    let input = builder.node(Signal::Input(0))?;
    let again = builder.node(Signal::Input(0))?;
    let other = builder.node(Signal::Input(1))?;
    assert!(rt; input == again && input != other);
    Ok(())
}

#[test]
fn inputs_are_shared(rt: HostRuntime) -> Result<(), Fail> {
    let mut builder = Builder::new(rt.alloc());
    put_inputs(&rt, &mut builder)
}

// A sum and a product of two inputs, of which the sum is put twice.
fn put_operations(rt: &impl Abort, builder: &mut Builder) -> Result<[SignalId; 2], AllocError>
    requires { builder.old ≡ empty }
    ensures closed { OnOk result (AreClosed builder.new) }
    ensures there { IfOk result (λ ids. All (λ s. s < length builder.new.signals) ids) }
{
    let input = builder.node(Signal::Input(0))?;
    let other = builder.node(Signal::Input(1))?;
    let args = [input, other, input, input];
    let sum = builder.node(Signal::Point { op: Op::Add, args })?;
    let same = builder.node(Signal::Point { op: Op::Add, args })?;
    let product = builder.node(Signal::Point { op: Op::Mul, args })?;
    assert!(rt; sum == same && sum != product, "signals");
    Ok([sum, product])
}

#[test]
fn operations_are_shared(rt: HostRuntime) -> Result<(), Fail> {
    let mut builder = Builder::new(rt.alloc());
    let outputs = put_operations(&rt, &mut builder)?;
    let graph = builder.finish(&outputs)?;
    assert!(rt;
        graph.len() == 4 && graph.outputs() == outputs.as_slice(),
        "graph"
    );
    Ok(())
}

// The only member of a new group, a sample earlier.
fn put_back(builder: &mut Builder) -> Result<SignalId, AllocError> {
    let group = builder.group()?;
    builder.node(Signal::Back { group, i: 0 })
}

#[test]
fn groups_are_apart(rt: HostRuntime) -> Result<(), Fail> {
    let mut builder = Builder::new(rt.alloc());
    let one = put_back(&mut builder)?;
    let two = put_back(&mut builder)?;
    assert!(rt; one != two);
    Ok(())
}

// An input, and the only member of a group, which it defines.
fn put_member(builder: &mut Builder) -> Result<(SignalId, SignalId), AllocError>
    requires { builder.old ≡ empty }
    ensures closed { OnOk result (AreClosed builder.new) }
    ensures there { IfOk result (λ ids. ids.1 < length builder.new.signals) }
{
    let input = builder.node(Signal::Input(0))?;
    let group = builder.group()?;
    builder.close_group(group, &[input])?;
    let member = builder.node(Signal::Member { group, i: 0 })?;
    Ok((input, member))
}

// The graph has one group, which this signal defines, and this output.
fn assert_group(rt: &impl Abort, graph: &Graph, definition: SignalId, output: SignalId) {
    assert!(rt;
        graph.groups() == 1 && graph.group(0) == [definition].as_slice(),
        "group"
    );
    assert!(rt; graph.outputs() == [output].as_slice(), "output");
}

#[test]
fn a_group_is_closed(rt: HostRuntime) -> Result<(), Fail> {
    let mut builder = Builder::new(rt.alloc());
    let (input, member) = put_member(&mut builder)?;
    let graph = builder.finish(&[member])?;
    assert_group(&rt, &graph, input, member);
    Ok(())
}

// A delay of a member of a group that waits.
fn put_late(rt: &impl Abort, builder: &mut Builder) -> Result<(), Fail>
    requires { builder.old ≡ empty }
{
    builder.open_groups(3)?;
    let last = builder.node(Signal::Back { group: 2, i: 0 })?;
    let one = builder.node(Signal::Const(1))?;
    let delay = Signal::Delay {
        x: last,
        d: one,
        max: 1,
    };
    let late = builder.node(delay)?;
    assert!(rt; builder.signal(late) == delay && builder.signal(one) == Signal::Const(1));
    Ok(())
}

#[test]
fn what_was_put_is_read(rt: HostRuntime) -> Result<(), Fail> {
    let mut builder = Builder::new(rt.alloc());
    put_late(&rt, &mut builder)
}

// `count` groups that are opened, and the first one's number.
struct Opened {
    name: &'static str,
    count: u64,
    first: u64,
}

static OPENED: [Opened; 3] = [
    Opened {
        name: "three",
        count: 3,
        first: 0,
    },
    Opened {
        name: "none behind three",
        count: 0,
        first: 3,
    },
    Opened {
        name: "one behind three",
        count: 1,
        first: 3,
    },
];

#[test]
fn groups_are_numbered(rt: HostRuntime) -> Result<(), Fail> {
    let mut builder = Builder::new(rt.alloc());
    for row in &OPENED {
        assert!(rt;
            builder.open_groups(row.count)? == row.first,
            "{}",
            row.name
        );
    }
    Ok(())
}

// Two lists of signals.
fn two_lists(
    alloc: Global,
    first: &[SignalId],
    second: &[SignalId],
) -> Result<Vec<Vec<SignalId>>, AllocError>
    ensures { IfOk result (λ lists. lists_in lists.items ≡ first.now ∷ second.now ∷ []) }
{
    let mut lists = Vec::new(alloc);
    lists.push(Vec::from_slice(alloc, first)?)?;
    lists.push(Vec::from_slice(alloc, second)?)?;
    Ok(lists)
}

// Three groups: one without members, one of an input and a member of the third a sample earlier, and one of the input.
fn put_groups(alloc: Global, builder: &mut Builder) -> Result<(SignalId, SignalId), AllocError>
    requires { builder.old ≡ empty }
    ensures closed { OnOk result (AreClosed builder.new) }
    ensures there { IfOk result (λ ids. ids.1 < length builder.new.signals) }
{
    let input = builder.node(Signal::Input(0))?;
    let first = builder.open_groups(3)?;
    let back = builder.node(Signal::Back { group: 2, i: 0 })?;
    builder.close_group(first, &[])?;
    let members = two_lists(alloc, &[input, back], &[input])?;
    builder.close_groups(first + 1, members);
    Ok((input, back))
}

// The graph has these groups.
fn assert_groups(rt: &impl Abort, graph: &Graph, second: &[SignalId], third: &[SignalId]) {
    assert!(rt; graph.groups() == 3);
    assert!(rt; graph.group(1) == second, "the second");
    assert!(rt; graph.group(2) == third, "the third");
}

#[test]
fn groups_are_closed_together(rt: HostRuntime) -> Result<(), Fail> {
    let mut builder = Builder::new(rt.alloc());
    let (input, back) = put_groups(rt.alloc(), &mut builder)?;
    let graph = builder.finish(&[back])?;
    assert_groups(&rt, &graph, &[input, back], &[input]);
    Ok(())
}

// A list, and the number of its table.
struct Kept {
    name: &'static str,
    list: &'static [i32],
    table: u64,
}

static KEPT: [Kept; 3] = [
    Kept {
        name: "two numbers",
        list: &[7, 8],
        table: 0,
    },
    Kept {
        name: "the first of them",
        list: &[7],
        table: 1,
    },
    Kept {
        name: "the two again",
        list: &[7, 8],
        table: 0,
    },
];

#[test]
fn equal_lists_are_one_table(rt: HostRuntime) -> Result<(), Fail> {
    let mut builder = Builder::new(rt.alloc());
    for row in &KEPT {
        assert!(rt; builder.table(row.list)? == row.table, "{}", row.name);
    }
    assert!(rt; builder.tables() == 2);
    Ok(())
}

// A list, and the tables of a graph after it.
fn put_tables(rt: &impl Abort, builder: &mut Builder, graph: &Graph) -> Result<(), AllocError>
    requires { builder.old ≡ empty }
    ensures { OnOk result (AreClosed builder.new) }
{
    let there = builder.table(&[7])?;
    let behind = builder.add_tables(graph)?;
    assert!(rt; there == 0 && behind == 1);
    Ok(())
}

// The graph has these tables.
fn assert_tables(rt: &impl Abort, graph: &Graph) {
    assert!(rt; graph.tables() == 3);
    assert!(rt; graph.table(0) == [7].as_slice(), "the first");
    assert!(rt; graph.table(1) == [7, 8].as_slice(), "the second");
}

// The tables of a graph come after those that are there, also where a list is there already.
#[test]
fn tables_come_behind_others(rt: HostRuntime) -> Result<(), Fail> {
    let graph = graph_over(rt.alloc(), &[], &[], &[&[7, 8], &[7]], &[])?;
    let mut builder = Builder::new(rt.alloc());
    put_tables(&rt, &mut builder, &graph)?;
    let graph = builder.finish(&[])?;
    assert_tables(&rt, &graph);
    Ok(())
}
