// Programs with waveforms and tables.

use crate::rows::{Row, assert_answers};
use fv_diagram::Node;
use fv_eval::{Program, evaluate};
use fv_lex::tokens;
use fv_parse::parse;
use std::alloc::{AllocError, Global};
use std::test::Fail;

// What stands before `rdtable` or `rwtable` becomes a table and what it takes, by whichever way it was put there.
static TABLES: [Row; 13] = [
    Row {
        text: "process = rdtable(4, (+(1) ~ _), _);",
        answer: "1 to 1: (Wire:table [1, 2, 3, 4] false)",
    },
    Row {
        text: "process = waveform{10,- 20,+30}, _ : rdtable;",
        answer: "1 to 1: (Wire:table [10, -20, 30] false)",
    },
    Row {
        text: "process = waveform{2147483647,-2147483647};",
        answer: "0 to 2: waveform [2147483647, -2147483647]",
    },
    Row {
        text: "process = rwtable(2,7,_,_,_);",
        answer: "3 to 1: ((Wire,(Wire,Wire)):table [7, 7] true)",
    },
    Row {
        text: "t = rdtable; process = 2,5,_ : t;",
        answer: "1 to 1: (Wire:table [5, 5] false)",
    },
    Row {
        text: "process = par(i,2,rdtable(i+1,i,_));",
        answer: "2 to 2: ((Wire:table [0] false),(Wire:table [1, 1] false))",
    },
    Row {
        text: "process = (0 : !),2,5,_ : rdtable;",
        answer: "1 to 1: (Wire:table [5, 5] false)",
    },
    Row {
        text: "part = case { (0) => 2,5,_; (1) => rdtable; }; process = seq(i,2,part(i));",
        answer: "1 to 1: (Wire:table [5, 5] false)",
    },
    Row {
        text: "t = rdtable; process = t(2,5);",
        answer: "1 to 1: (Wire:table [5, 5] false)",
    },
    Row {
        text: "process = \\(x).(2,5,x : rdtable);",
        answer: "1 to 1: [0 (slot 0:table [5, 5] false)]",
    },
    Row {
        text: "process = (0,3 : !,_),5,_ : rdtable;",
        answer: "1 to 1: (Wire:table [5, 5, 5] false)",
    },
    Row {
        text: "process = rdtable(2, \\(x).(x + 1)(6), _);",
        answer: "1 to 1: (Wire:table [7, 7] false)",
    },
    Row {
        text: "process = rdtable(2, rdtable(1,7,0), _);",
        answer: "1 to 1: (Wire:table [7, 7] false)",
    },
];

#[test]
fn tables(rt: HostRuntime) -> Result<(), Fail> {
    assert_answers(&rt, rt.alloc(), &TABLES)
}

// What is no table is refused: for the fit first, and then for the head, the size, the sum; at the end for what is left.
static NO_TABLES: [Row; 19] = [
    Row {
        text: "process = _ : rdtable;",
        answer: "Arity { kind: Seq, left: 1, right: 3 }",
    },
    Row {
        text: "process = rdtable;",
        answer: "TableForm { cause: Primitive }",
    },
    Row {
        text: "process = rdtable(_,1,_);",
        answer: "TableForm { cause: Head }",
    },
    Row {
        text: "process = (4 <: _,_,_) : rdtable;",
        answer: "TableForm { cause: Head }",
    },
    Row {
        text: "process = \\(x).(rdtable(4,x,_));",
        answer: "TableForm { cause: Head }",
    },
    Row {
        text: "process = rdtable(4,button(\"b\"),_);",
        answer: "TableForm { cause: Head }",
    },
    Row {
        text: "process = rdtable(4,(1 <: rdtable),_);",
        answer: "TableForm { cause: Head }",
    },
    Row {
        text: "process = (!,_ : _),1,_,_ : rdtable;",
        answer: "Arity { kind: Seq, left: 4, right: 3 }",
    },
    Row {
        text: "process = (!,_ : _),1,_ : rdtable;",
        answer: "TableForm { cause: Head }",
    },
    Row {
        text: "process = waveform{1,2} : rdtable;",
        answer: "Arity { kind: Seq, left: 2, right: 3 }",
    },
    Row {
        text: "process = 2,5,_ : (rdtable : _);",
        answer: "TableForm { cause: Primitive }",
    },
    Row {
        text: "process = par(i,(waveform{3} : _,!),_);",
        answer: "NotANumber { line: 1, column: 17 }",
    },
    Row {
        text: "process = rdtable(0,1,_);",
        answer: "TableForm { cause: Size }",
    },
    Row {
        text: "process = rdtable(-1,1,_);",
        answer: "TableForm { cause: Size }",
    },
    // The arity is tried before the head, the head before the size, and that before the sum.
    Row {
        text: "process = rdtable(0,_,_);",
        answer: "TableForm { cause: Head }",
    },
    Row {
        text: "process = rdtable(0,1,_), rdtable;",
        answer: "TableForm { cause: Size }",
    },
    Row {
        text: "process = rdtable(16777216,1,_);",
        answer: "TableBudget { sum: 50331648 }",
    },
    // No list of 2147483647 numbers is computed: they would take 8 GB.
    Row {
        text: "process = rdtable(2147483647,1,_);",
        answer: "TableBudget { sum: 6442450941 }",
    },
    Row {
        text: "process = (waveform{1,2} : !,_), rdtable(5592405,1,_);",
        answer: "TableBudget { sum: 16777217 }",
    },
];

#[test]
fn no_tables(rt: HostRuntime) -> Result<(), Fail> {
    assert_answers(&rt, rt.alloc(), &NO_TABLES)
}

// The text of a waveform of -1 and `others` numbers more, each of which is 2.
fn waveform(alloc: Global, others: usize) -> Result<String, AllocError> {
    let mut text = String::from_str(alloc, "process = waveform{-1")?;
    for _ in 0..others {
        text.push_str(",2")?;
    }
    text.push_str(" };")?;
    Ok(text)
}

// The program of a text.
fn program_of(alloc: Global, text: &[u8]) -> Option<Program> {
    let found = tokens(alloc, text).ok()?;
    let tree = parse(alloc, &found).ok()?;
    evaluate(alloc, &tree).ok()
}

// The numbers of the waveform that a program is.
fn numbers_of(program: &Program) -> &[i32] {
    match program.diagrams.node(program.root) {
        Node::Wave(list) => program.diagrams.values(list),
        _ => &[],
    }
}

// A waveform that fills a whole text.
#[test]
fn a_waveform_as_long_as_may_be(rt: HostRuntime) -> Result<(), Fail> {
    let count = 524_276;
    let text = waveform(rt.alloc(), count)?;
    let Some(program) = program_of(rt.alloc(), text.as_bytes()) else {
        return Err("no program".into());
    };
    let [first, others @ ..] = numbers_of(&program) else {
        return Err("no numbers".into());
    };
    assert!(rt; *first == -1 && others.len() == count);
    assert!(rt; others.iter().all(|value| *value == 2));
    Ok(())
}
