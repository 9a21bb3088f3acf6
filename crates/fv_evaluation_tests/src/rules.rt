// The first rule that matches, the arguments that rules have taken, and the names that are bound.

ghost use Rattle.std.specs.Prelude.{◌<◌};
ghost use Rattle.fv_parse.specs.Trees.{size_of};

use fv_diagram::{Diagrams, Node};
use fv_eval_lookup::{Definitions, Shortcuts};
use fv_eval_patterns::Trials;
use fv_eval_scopes::{Binding, EnvId, Meaning, Numbers, Ruled, Scopes, Value};
use fv_lex::tokens;
use fv_parse::{Tree, TreeId, parse};
use fv_rules::{EvalRefusal, put};
use std::alloc::{AllocError, Global};
use std::process::Abort;
use std::test::Fail;

// The right side of the first rule of a `case` that matches an integer, and how many names it binds.
fn chosen(
    alloc: Global,
    definitions: &Definitions,
    case: u64,
    n: i32,
) -> Result<Option<(TreeId, usize)>, AllocError>
    requires { case < size_of definitions.now }
{
    let mut diagrams = Diagrams::new(alloc);
    let Ok(id) = put(&mut diagrams, &Node::Number(n)) else {
        return Err(AllocError);
    };
    let mut numbers = Numbers::new(alloc);
    let mut trials = Trials::new(alloc);
    let ruled = Ruled::Case(TreeId::new(case));
    let arguments = [Value::Diagram(id)];
    match definitions.choose(
        alloc,
        ruled,
        &mut diagrams,
        &mut numbers,
        &mut trials,
        &arguments,
    )? {
        None => Ok(None),
        Some((body, bindings)) => Ok(Some((body, bindings.as_slice().len()))),
    }
}

// Each node whose rules take arguments, how many, and what they choose for an integer.
fn choices(alloc: Global, tree: &Tree, n: i32) -> Result<String, AllocError> {
    let definitions = Definitions::new(alloc, tree)?;
    let mut line = String::new(alloc);
    for i in 0..tree.len() {
        let width = definitions.width(Ruled::Case(TreeId::new(i)));
        if width > 0 {
            let choice = chosen(alloc, &definitions, i, n)?;
            write!(&mut line, "{i} takes {width}: {choice:?}; ")?;
        }
    }
    Ok(line)
}

// Each node of a text whose rules take arguments, how many, and what they choose for an integer.
fn choices_in(alloc: Global, text: &str, n: i32) -> Result<String, AllocError> {
    let Ok(found) = tokens(alloc, text.as_bytes()) else {
        return String::from_str(alloc, "no tokens");
    };
    let Ok(tree) = parse(alloc, &found) else {
        return String::from_str(alloc, "no tree");
    };
    choices(alloc, &tree, n)
}

// A text, an integer, and what the rules in the text choose for it.
struct Choice {
    text: &'static str,
    argument: i32,
    choices: &'static str,
}

static CHOICES: [Choice; 3] = [
    Choice {
        text: "process = case { (7) => 1; (x) => x; };",
        argument: 7,
        choices: "9 takes 1: Some((TreeId(2), 0)); ",
    },
    Choice {
        text: "process = case { (7) => 1; (x) => x; };",
        argument: 8,
        choices: "9 takes 1: Some((TreeId(6), 1)); ",
    },
    Choice {
        text: "process = case { (7, x) => x; };",
        argument: 7,
        choices: "6 takes 2: None; ",
    },
];

#[test]
fn the_first_rule_that_matches(rt: HostRuntime) -> Result<(), Fail> {
    for row in &CHOICES {
        let line = choices_in(rt.alloc(), row.text, row.argument)?;
        assert!(rt;
            line.as_str() == row.choices,
            "{} of {}: {line}",
            row.text,
            row.argument
        );
    }
    Ok(())
}

// Three arguments, one after the other.
fn three(alloc: Global, scopes: &mut Scopes) -> Result<Vec<Value>, AllocError> {
    let mut last = 0;
    for n in 1..4 {
        last = scopes.take(value(n), last)?;
    }
    scopes.arguments(alloc, 3, last)
}

// A value that is told by its number.
fn value(n: u64) -> Value {
    Value::Abstraction {
        node: TreeId::new(n),
        bound: 0,
        env: EnvId::new(0),
    }
}

// The number that a value is told by, 0 of a diagram or rules.
fn number_told(value: &Value) -> u64 {
    if let Value::Abstraction { node, .. } = value {
        node.number()
    } else {
        0
    }
}

// The number that what a name stands for is told by, 0 where it stands for no value.
fn meant(meaning: &Meaning) -> u64 {
    if let Meaning::Known(value) = meaning {
        number_told(value)
    } else {
        0
    }
}

#[test]
fn arguments_come_in_order(rt: HostRuntime) -> Result<(), Fail> {
    let alloc = rt.alloc();
    let mut scopes = Scopes::new(alloc);
    let taken = three(alloc, &mut scopes)?;
    assert_eq!(rt; taken.len(), 3);
    for (i, value) in taken.iter().enumerate() {
        assert_eq!(rt; number_told(value), i as u64 + 1);
    }
    Ok(())
}

// Binds 5 to 1, 6 to 2, and 5 to 3.
fn bind_three(scopes: &mut Scopes) -> Result<EnvId, AllocError> {
    let bindings = [(5, 1), (6, 2), (5, 3)].map(|(name, n)| Binding {
        name,
        value: value(n),
    });
    scopes.bind_all(&bindings, EnvId::new(0))
}

// A name, and the number that its value is told by.
static MEANT: [(u64, u64); 3] = [(5, 3), (6, 2), (7, 0)];

// Each of these names stands for its value.
fn assert_meant(
    rt: &impl Abort,
    definitions: &Definitions,
    scopes: &Scopes,
    shortcuts: &mut Shortcuts,
    env: EnvId,
) {
    for (name, n) in &MEANT {
        let meaning = definitions.look_up(scopes, shortcuts, *name, env);
        assert!(rt; meant(&meaning) == *n, "{name}");
    }
}

// Binds three names, and compares what they stand for.
fn assert_innermost(rt: &impl Abort, alloc: Global, tree: &Tree) -> Result<(), AllocError> {
    let definitions = Definitions::new(alloc, tree)?;
    let mut scopes = Scopes::new(alloc);
    let env = bind_three(&mut scopes)?;
    let mut shortcuts = Shortcuts::new(alloc);
    assert_meant(rt, &definitions, &scopes, &mut shortcuts, env);
    Ok(())
}

#[test]
fn the_last_binding_is_innermost(rt: HostRuntime) -> Result<(), Fail> {
    let found = tokens(rt.alloc(), b"process = 1;")?;
    let tree = parse(rt.alloc(), &found)?;
    Ok(assert_innermost(&rt, rt.alloc(), &tree)?)
}
