// What names stand for, and what patterns match, in trees that were parsed.

ghost use Rattle.std.specs.Prelude.{◌<◌};
ghost use Rattle.fv_parse.specs.Trees.{size_of};

use fv_diagram::{Diagrams, Node};
use fv_eval_lookup::{Definitions, Shortcuts};
use fv_eval_patterns::{Bindings, matches};
use fv_eval_scopes::{EnvId, Meaning, Scopes, Value};
use fv_lex::tokens;
use fv_parse::{Tree, TreeId, parse};
use fv_rules::put;
use std::alloc::{AllocError, Global};
use std::test::Fail;

// What a name stands for, after its number; nothing where it stands for nothing.
fn add_meaning(line: &mut String, n: u64, meaning: &Meaning) -> Result<(), AllocError> {
    match meaning {
        Meaning::Unknown => Ok(()),
        meaning => write!(line, "{n} {meaning:?}; "),
    }
}

// What the bytes of each of the first `count` tokens stand for in an environment, by the token's number. Those that stand for
// nothing are left out.
fn meanings(
    alloc: Global,
    definitions: &Definitions,
    scopes: &Scopes,
    tree: &Tree,
    count: u64,
    env: EnvId,
) -> Result<String, AllocError> {
    let mut shortcuts = Shortcuts::new(alloc);
    let mut line = String::new(alloc);
    for n in 0..count {
        let meaning = definitions.look_up(scopes, &mut shortcuts, tree.name(n), env);
        add_meaning(&mut line, n, &meaning)?;
    }
    Ok(line)
}

// What the bytes of each of the first `count` tokens stand for among the outermost definitions.
fn outermost_meanings(alloc: Global, tree: &Tree, count: u64) -> Result<String, AllocError> {
    let definitions = Definitions::new(alloc, tree)?;
    let mut scopes = Scopes::new(alloc);
    let env = scopes.open(tree.root(), EnvId::new(0))?;
    meanings(alloc, &definitions, &scopes, tree, count, env)
}

// What the bytes of all tokens of a text stand for among the outermost definitions.
fn meanings_in(alloc: Global, text: &str) -> Result<String, AllocError> {
    let Ok(found) = tokens(alloc, text.as_bytes()) else {
        return String::from_str(alloc, "no tokens");
    };
    let Ok(tree) = parse(alloc, &found) else {
        return String::from_str(alloc, "no tree");
    };
    outermost_meanings(alloc, &tree, u64::from(found.len()))
}

// The bindings of a node, as a pattern, against an integer.
fn tried(alloc: Global, tree: &Tree, i: u64, n: i32) -> Result<Option<Bindings>, AllocError>
    requires { i < size_of tree.now }
{
    let mut diagrams = Diagrams::new(alloc);
    match put(&mut diagrams, &Node::Number(n)) {
        Ok(id) => matches(
            alloc,
            tree,
            TreeId::new(i),
            &mut diagrams,
            &Value::Diagram(id),
        ),
        Err(_refusal) => Err(AllocError),
    }
}

// The nodes that match an integer, with how many names they bind.
fn matching(alloc: Global, tree: &Tree, n: i32) -> Result<String, AllocError> {
    let mut line = String::new(alloc);
    for i in 0..tree.len() {
        if let Some(bindings) = tried(alloc, tree, i, n)? {
            write!(&mut line, "{i} binds {}; ", bindings.as_slice().len())?;
        }
    }
    Ok(line)
}

// The nodes of a text that match an integer, with how many names they bind.
fn matching_in(alloc: Global, text: &str, n: i32) -> Result<String, AllocError> {
    let Ok(found) = tokens(alloc, text.as_bytes()) else {
        return String::from_str(alloc, "no tokens");
    };
    let Ok(tree) = parse(alloc, &found) else {
        return String::from_str(alloc, "no tree");
    };
    matching(alloc, &tree, n)
}

// What the names of three definitions stand for, two of which are rules of one name.
const DEFINITIONS: &str = "f(0) = 1; f(x) = x; g(y) = y; process = f;";

const MEANINGS: &str =
    "0 Known(Rules { ruled: Definitions { list: TreeId(14), first: TreeId(3) }, env: EnvId(1), count: 0, last: 0 }); \
    7 Known(Rules { ruled: Definitions { list: TreeId(14), first: TreeId(3) }, env: EnvId(1), count: 0, last: 0 }); \
    14 Known(Abstraction { node: TreeId(11), bound: 0, env: EnvId(1) }); \
    21 Body { body: TreeId(12), env: EnvId(1) }; \
    23 Known(Rules { ruled: Definitions { list: TreeId(14), first: TreeId(3) }, env: EnvId(1), count: 0, last: 0 }); ";

#[test]
fn names_of_definitions(rt: HostRuntime) -> Result<(), Fail> {
    let line = meanings_in(rt.alloc(), DEFINITIONS)?;
    assert!(rt; line.as_str() == MEANINGS, "{line}");
    Ok(())
}

// The text whose patterns an integer is tried against.
const PATTERNS: &str = "f(7) = 1; f(-7) = 2; f(x) = 3; f((x:y)) = 4; process = f;";

// An integer, and the nodes that match it.
struct Matched {
    number: i32,
    nodes: &'static str,
}

static MATCHED: [Matched; 2] = [
    Matched {
        number: 7,
        nodes: "0 binds 0; 8 binds 1; 12 binds 1; 13 binds 1; 18 binds 1; ",
    },
    Matched {
        number: -7,
        nodes: "4 binds 0; 8 binds 1; 12 binds 1; 13 binds 1; 18 binds 1; ",
    },
];

#[test]
fn patterns_of_an_integer(rt: HostRuntime) -> Result<(), Fail> {
    for row in &MATCHED {
        let nodes = matching_in(rt.alloc(), PATTERNS, row.number)?;
        assert!(rt; nodes.as_str() == row.nodes, "{}: {nodes}", row.number);
    }
    Ok(())
}

// Binds the names from 200 on to 299, a scope each, to an abstraction that tells how far it is.
fn bind_hundred(scopes: &mut Scopes, root: TreeId, outer: EnvId) -> Result<EnvId, AllocError> {
    let mut env = outer;
    for i in 0..100 {
        let value = Value::Abstraction {
            node: root,
            bound: i,
            env: EnvId::new(0),
        };
        env = scopes.bind(200 + i, value, env)?;
    }
    Ok(env)
}

// How far the abstraction is that a name is bound to.
fn bound_in(meaning: &Meaning) -> Option<u64> {
    match meaning {
        Meaning::Known(Value::Abstraction { bound, .. }) => Some(*bound),
        _ => None,
    }
}

// What the names 150 to 350 are bound to in an environment, of those that are bound to an abstraction; and then the environment
// in which a name stands for its body.
fn bounds_in(
    alloc: Global,
    definitions: &Definitions,
    scopes: &Scopes,
    defined: u64,
    env: EnvId,
) -> Result<Vec<u64>, AllocError> {
    let mut shortcuts = Shortcuts::new(alloc);
    let mut bounds = Vec::new(alloc);
    for name in 150..350 {
        let meaning = definitions.look_up(scopes, &mut shortcuts, name, env);
        if let Some(bound) = bound_in(&meaning) {
            bounds.push(bound)?;
        }
    }
    if let Meaning::Body { env, .. } = definitions.look_up(scopes, &mut shortcuts, defined, env) {
        bounds.push(env.number())?;
    }
    Ok(bounds)
}

// What some names are bound to after a hundred scopes, which bind the names from 200 on to 299, and the name that the text defines
// first.
fn bound_names(alloc: Global, tree: &Tree) -> Result<Vec<u64>, AllocError> {
    let definitions = Definitions::new(alloc, tree)?;
    let mut scopes = Scopes::new(alloc);
    let outermost = scopes.open(tree.root(), EnvId::new(0))?;
    let env = bind_hundred(&mut scopes, tree.root(), outermost)?;
    bounds_in(alloc, &definitions, &scopes, tree.name(0), env)
}

#[test]
fn a_name_behind_many_scopes_is_found(rt: HostRuntime) -> Result<(), Fail> {
    let alloc = rt.alloc();
    let found = tokens(alloc, b"process = 1;")?;
    let tree = parse(alloc, &found)?;
    let bound = bound_names(alloc, &tree)?;
    let mut expected = Vec::new(alloc);
    for i in 0..100u64 {
        expected.push(i)?;
    }
    expected.push(1)?;
    assert_eq!(rt; bound.as_slice(), expected.as_slice());
    Ok(())
}
