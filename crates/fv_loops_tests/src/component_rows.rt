// Worked examples: the nodes that each node leads to, and the components' numbers.

use fv_components::{Rows, are_links, components};
use std::alloc::{AllocError, Global};
use std::process::Abort;
use std::test::Fail;

struct Example {
    name: &'static str,
    links: &'static [&'static [u64]],
    numbers: &'static [u64],
}

static EXAMPLES: [Example; 9] = [
    Example {
        name: "no nodes",
        links: &[],
        numbers: &[],
    },
    Example {
        name: "one node",
        links: &[&[]],
        numbers: &[0],
    },
    Example {
        name: "a node that leads to itself",
        links: &[&[0]],
        numbers: &[0],
    },
    Example {
        name: "a chain down to the first node",
        links: &[&[], &[0], &[1], &[2]],
        numbers: &[0, 1, 2, 3],
    },
    Example {
        name: "a chain up to the last node",
        links: &[&[1], &[2], &[3], &[]],
        numbers: &[3, 2, 1, 0],
    },
    Example {
        name: "a ring of three, a way into it and a way out of it",
        links: &[&[1], &[2], &[3], &[1, 4], &[]],
        numbers: &[2, 1, 1, 1, 0],
    },
    Example {
        name: "two rings, joined one way",
        links: &[&[1, 2], &[0], &[3], &[2]],
        numbers: &[1, 1, 0, 0],
    },
    Example {
        name: "two rings that share a node",
        links: &[&[1], &[0, 2], &[1]],
        numbers: &[0, 0, 0],
    },
    Example {
        name: "a node twice among the links",
        links: &[&[1, 1], &[]],
        numbers: &[1, 0],
    },
];

fn rows_of(alloc: Global, links: &[&[u64]]) -> Result<Rows, AllocError> {
    let mut rows = Rows::new(alloc);
    for nodes in links {
        rows.push(nodes)?;
    }
    Ok(rows)
}

// The components' numbers, of links that lead to nodes that are there.
fn numbers_of(alloc: Global, links: &Rows) -> Result<Vec<u64>, Fail> {
    if !are_links(links) {
        return Err("no links".into());
    }
    Ok(components(alloc, links)?)
}

#[test]
fn components_have_these_numbers(rt: HostRuntime) -> Result<(), Fail> {
    for example in &EXAMPLES {
        let links = rows_of(rt.alloc(), example.links)?;
        let numbers = numbers_of(rt.alloc(), &links)?;
        assert_eq!(rt; numbers.as_slice(), example.numbers, "{}", example.name);
    }
    Ok(())
}

// Rows are read as they were pushed, empty ones too.
static PUSHED: [&[u64]; 5] = [&[], &[3, 1], &[], &[2], &[]];

#[test]
fn rows_are_those_that_were_pushed(rt: HostRuntime) -> Result<(), Fail> {
    let rows = rows_of(rt.alloc(), &PUSHED)?;
    assert_eq!(rt; rows.len() as usize, PUSHED.len());
    for i in 0..rows.len() {
        assert_eq!(rt; rows.row(i), PUSHED[i as usize], "row {i}");
    }
    Ok(())
}

#[test]
fn links_lead_to_nodes_that_are_there(rt: HostRuntime) -> Result<(), Fail> {
    let links = rows_of(rt.alloc(), &[&[1], &[0, 2]])?;
    assert!(rt; !are_links(&links));
    Ok(())
}

// A ring of 100,000 nodes, each of which also leads to the first one.
#[test]
fn a_long_ring_is_one_component(rt: HostRuntime) -> Result<(), Fail> {
    let nodes = 100_000;
    let mut rows = Rows::with_capacity(rt.alloc(), nodes)?;
    for node in 0..nodes {
        rows.push(&[(node + 1) % nodes, 0])?;
    }
    let numbers = numbers_of(rt.alloc(), &rows)?;
    assert!(rt; numbers.iter().all(|number| *number == 0));
    Ok(())
}
