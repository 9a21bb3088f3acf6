// Closed expressions, and the numbers that their diagrams have.

use fv_diagram_numbers::number_of;
use fv_eval::evaluate;
use fv_lex::tokens;
use fv_parse::parse;
use std::alloc::{AllocError, Global};
use std::test::Fail;

fn number(alloc: Global, text: &[u8]) -> Result<Option<i32>, AllocError> {
    let Ok(found) = tokens(alloc, text) else {
        return Ok(None);
    };
    let Ok(tree) = parse(alloc, &found) else {
        return Ok(None);
    };
    match evaluate(alloc, &tree) {
        Ok(program) => number_of(alloc, &program.diagrams, program.root),
        Err(_refusal) => Ok(None),
    }
}

// A closed expression, and its number.
struct Row {
    text: &'static str,
    number: i32,
}

static CLOSED: [Row; 15] = [
    Row {
        text: "process = 3 - 1 * 5;",
        number: -2,
    },
    Row {
        text: "process = 2147483647 + 1;",
        number: i32::MIN,
    },
    Row {
        text: "process = -7 / 2;",
        number: -3,
    },
    Row {
        text: "process = -7 % 2;",
        number: -1,
    },
    Row {
        text: "process = -8 >> 33;",
        number: -4,
    },
    Row {
        text: "process = 6 & 3 | 8;",
        number: 10,
    },
    Row {
        text: "process = min(3,max(1,2));",
        number: 2,
    },
    Row {
        text: "process = 5,6,7 : _,!,_ : -;",
        number: -2,
    },
    Row {
        text: "process = 1 <: _,_ :> +(3);",
        number: 5,
    },
    Row {
        text: "fact(0) = 1; fact(n) = n * fact(n - 1); process = fact(10);",
        number: 3_628_800,
    },
    Row {
        text: "process = sum(i,10,i * i);",
        number: 285,
    },
    Row {
        text: "process = prod(i,5,i + 1);",
        number: 120,
    },
    Row {
        text: "process = seq(i,3,*(i + 2))(1);",
        number: 24,
    },
    // names of nearer and of farther lists, after lists that have none of them; one is bound in between
    Row {
        text: "process = f(1) with{f(a)=a+b+c+d with{e=1;}with{e=2;}with{e=3;}with{e=4;}with{e=5;};} \
              with{b=10;}with{a=1000;b=20;c=100;}with{e=6;}with{a=2000;c=200;d=1000;};",
        number: 1111,
    },
    // a name that many lists define, after as many that do not, again and again
    Row {
        text: "process = f(3) with{f(0)=0;f(n)=q+f(n-1);} \
              with{a=1;}with{a=1;}with{a=1;}with{a=1;}with{a=1;}with{a=1;}with{a=1;}with{a=1;}with{a=1;}with{a=1;} \
              with{a=1;}with{a=1;}with{a=1;}with{a=1;}with{a=1;}with{a=1;}with{a=1;}with{a=1;}with{a=1;}with{a=1;} \
              with{q=5;} \
              with{q=7;}with{q=7;}with{q=7;}with{q=7;}with{q=7;}with{q=7;}with{q=7;}with{q=7;}with{q=7;}with{q=7;} \
              with{q=7;}with{q=7;}with{q=7;}with{q=7;}with{q=7;}with{q=7;}with{q=7;}with{q=7;}with{q=7;}with{q=7;};",
        number: 15,
    },
];

#[test]
fn closed_expressions(rt: HostRuntime) -> Result<(), Fail> {
    for row in &CLOSED {
        let found = number(rt.alloc(), row.text.as_bytes())?;
        assert_eq!(rt; found, Some(row.number), "{}", row.text);
    }
    Ok(())
}

static WITHOUT_A_NUMBER: [&str; 5] = [
    "process = _;",
    "process = 1,2;",
    "process = 1 : mem;",
    "process = 1 ~ !;",
    "process = button(\"b\");",
];

#[test]
fn expressions_without_a_number(rt: HostRuntime) -> Result<(), Fail> {
    for text in &WITHOUT_A_NUMBER {
        let found = number(rt.alloc(), text.as_bytes())?;
        assert!(rt; found.is_none(), "{text}");
    }
    Ok(())
}
