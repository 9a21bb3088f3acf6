// The tokens of whole texts, with their places.

use fv_base::Role;
use fv_lex::{
    Iteration, Kind, LexRefusal, Panel, Place, Side, Slider, Switch, Symbol, Tokens, one_answer,
    tokens,
};
use fv_num::{Op, Primitive};
use std::alloc::{AllocError, Global};
use std::process::Abort;
use std::test::Fail;

/// A token: its symbol, its column and its bytes.
type Row = (Symbol, u32, &'static [u8]);

/// Whether the token with this number is this one.
fn is_token(found: &Tokens, i: u32, kind: Kind, line: u32, row: &Row) -> bool {
    let (symbol, column, bytes) = *row;
    i < found.len()
        && found.symbols().get(i as usize).copied() == Some(symbol)
        && found.kind(i) == kind
        && found.text(i) == bytes
        && found.place(i) == Place { line, column }
}

/// The tokens of a text of one line are these, all of one kind.
fn expect_line(
    rt: &impl Abort,
    alloc: Global,
    text: &[u8],
    kind: Kind,
    rows: &[Row],
) -> Result<(), LexRefusal> {
    let found = tokens(alloc, text)?;
    assert_eq!(rt; found.len() as usize, rows.len());
    for i in 0..found.len() {
        assert!(rt;
            is_token(&found, i, kind, 1, &rows[i as usize]),
            "token {i}"
        );
    }
    Ok(())
}

// The tokens of `signs`.
static SIGNS: [Row; 34] = [
    (Symbol::Primitive(Primitive::Wire), 1, b"_"),
    (Symbol::Primitive(Primitive::Cut), 3, b"!"),
    (Symbol::Comma, 5, b","),
    (Symbol::Colon, 7, b":"),
    (Symbol::Split, 9, b"<:"),
    (Symbol::Merge, 12, b":>"),
    (Symbol::Tilde, 15, b"~"),
    (Symbol::Plus, 17, b"+"),
    (Symbol::Minus, 19, b"-"),
    (Symbol::Primitive(Primitive::Point(Op::Mul)), 21, b"*"),
    (Symbol::Primitive(Primitive::Point(Op::Div)), 23, b"/"),
    (Symbol::Primitive(Primitive::Point(Op::Rem)), 25, b"%"),
    (Symbol::Primitive(Primitive::Point(Op::And)), 27, b"&"),
    (Symbol::Primitive(Primitive::Point(Op::Or)), 29, b"|"),
    (Symbol::Primitive(Primitive::Point(Op::Shl)), 31, b"<<"),
    (Symbol::Primitive(Primitive::Point(Op::Shr)), 34, b">>"),
    (Symbol::Primitive(Primitive::Point(Op::Lt)), 37, b"<"),
    (Symbol::Primitive(Primitive::Point(Op::Le)), 39, b"<="),
    (Symbol::Primitive(Primitive::Point(Op::Gt)), 42, b">"),
    (Symbol::Primitive(Primitive::Point(Op::Ge)), 44, b">="),
    (Symbol::Primitive(Primitive::Point(Op::Eq)), 47, b"=="),
    (Symbol::Primitive(Primitive::Point(Op::Ne)), 50, b"!="),
    (Symbol::Primitive(Primitive::Delay), 53, b"@"),
    (Symbol::Tick, 55, b"'"),
    (Symbol::Open, 57, b"("),
    (Symbol::Close, 59, b")"),
    (Symbol::OpenBrace, 61, b"{"),
    (Symbol::CloseBrace, 63, b"}"),
    (Symbol::Equals, 65, b"="),
    (Symbol::Arrow, 67, b"=>"),
    (Symbol::Semicolon, 70, b";"),
    (Symbol::Dot, 72, b"."),
    (Symbol::Backslash, 74, b"\\"),
    (Symbol::Caret, 76, b"^"),
];

#[test]
fn signs(rt: HostRuntime) -> Result<(), Fail> {
    let text = b"_ ! , : <: :> ~ + - * / % & | << >> < <= > >= == != @ ' ( ) { } = => ; . \\ ^";
    expect_line(&rt, rt.alloc(), text, Kind::Sign, &SIGNS)?;
    Ok(())
}

// The tokens of `reserved_words`.
static RESERVED_WORDS: [Row; 30] = [
    (Symbol::Primitive(Primitive::Point(Op::Xor)), 1, b"xor"),
    (Symbol::Primitive(Primitive::Mem), 5, b"mem"),
    (Symbol::Primitive(Primitive::Prefix), 9, b"prefix"),
    (Symbol::Primitive(Primitive::Int), 16, b"int"),
    (Symbol::Primitive(Primitive::Attach), 20, b"attach"),
    (
        Symbol::Primitive(Primitive::Point(Op::Select2)),
        27,
        b"select2",
    ),
    (
        Symbol::Primitive(Primitive::Point(Op::Select3)),
        35,
        b"select3",
    ),
    (Symbol::Primitive(Primitive::Point(Op::Min)), 43, b"min"),
    (Symbol::Primitive(Primitive::Point(Op::Max)), 47, b"max"),
    (Symbol::Primitive(Primitive::Point(Op::Abs)), 51, b"abs"),
    (Symbol::Iteration(Iteration::Parallel), 55, b"par"),
    (Symbol::Iteration(Iteration::Sequence), 59, b"seq"),
    (Symbol::Iteration(Iteration::Sum), 63, b"sum"),
    (Symbol::Iteration(Iteration::Product), 67, b"prod"),
    (Symbol::Ports(Side::Inputs), 72, b"inputs"),
    (Symbol::Ports(Side::Outputs), 79, b"outputs"),
    (Symbol::Case, 87, b"case"),
    (Symbol::With, 92, b"with"),
    (Symbol::Declare, 97, b"declare"),
    (Symbol::Switch(Switch::Button), 105, b"button"),
    (Symbol::Switch(Switch::Checkbox), 112, b"checkbox"),
    (Symbol::Slider(Slider::Horizontal), 121, b"hslider"),
    (Symbol::Slider(Slider::Vertical), 129, b"vslider"),
    (Symbol::Slider(Slider::Number), 137, b"nentry"),
    (Symbol::Panel(Panel::Horizontal), 144, b"hgroup"),
    (Symbol::Panel(Panel::Vertical), 151, b"vgroup"),
    (Symbol::Panel(Panel::Tabs), 158, b"tgroup"),
    (Symbol::Primitive(Primitive::ReadTable), 165, b"rdtable"),
    (Symbol::Primitive(Primitive::WriteTable), 173, b"rwtable"),
    (Symbol::Waveform, 181, b"waveform"),
];

#[test]
fn reserved_words(rt: HostRuntime) -> Result<(), Fail> {
    let text =
        b"xor mem prefix int attach select2 select3 min max abs par seq sum prod inputs outputs case with declare button checkbox hslider vslider nentry \
          hgroup vgroup tgroup rdtable rwtable waveform";
    expect_line(&rt, rt.alloc(), text, Kind::Name, &RESERVED_WORDS)?;
    Ok(())
}

#[test]
fn unsupported_words(rt: HostRuntime) -> Result<(), Fail> {
    let text =
        b"import library component environment letrec route soundfile hbargraph vbargraph ffunction fconstant fvariable float sin cos tan asin acos atan \
          atan2 exp exp10 log log10 pow sqrt fmod remainder floor ceil rint";
    let found = tokens(rt.alloc(), text)?;
    assert_eq!(rt; found.len(), 31);
    let mut i = 0u64;
    for symbol in found.symbols() {
        assert_eq!(rt; *symbol, Symbol::Unsupported(i));
        i = i.wrapping_add(1);
    }
    Ok(())
}

// The tokens of `program`, each with its kind.
static PROGRAM: [(Kind, Row); 18] = [
    (Kind::Name, (Symbol::Declare, 1, b"declare")),
    (Kind::Name, (Symbol::Name(1), 9, b"name")),
    (Kind::Text, (Symbol::Text(2), 14, b"\"t\"")),
    (Kind::Sign, (Symbol::Semicolon, 17, b";")),
    (Kind::Name, (Symbol::Name(4), 27, b"process")),
    (Kind::Sign, (Symbol::Equals, 35, b"=")),
    (
        Kind::Name,
        (Symbol::Panel(Panel::Horizontal), 37, b"hgroup"),
    ),
    (Kind::Sign, (Symbol::Open, 43, b"(")),
    (Kind::Text, (Symbol::Text(8), 44, b"\"m\"")),
    (Kind::Sign, (Symbol::Comma, 47, b",")),
    (Kind::Sign, (Symbol::Primitive(Primitive::Wire), 49, b"_")),
    (
        Kind::Sign,
        (Symbol::Primitive(Primitive::Point(Op::Mul)), 51, b"*"),
    ),
    (Kind::Name, (Symbol::Switch(Switch::Button), 53, b"button")),
    (Kind::Sign, (Symbol::Open, 59, b"(")),
    (Kind::Text, (Symbol::Text(14), 60, b"\"on\"")),
    (Kind::Sign, (Symbol::Close, 64, b")")),
    (Kind::Sign, (Symbol::Close, 65, b")")),
    (Kind::Sign, (Symbol::Semicolon, 66, b";")),
];

/// A program with comments, strings and calls, after a line of its own.
#[test]
fn program(rt: HostRuntime) -> Result<(), Fail> {
    let text =
        b"/* two\n lines */\ndeclare name \"t\"; /* c */ process = hgroup(\"m\", _ * button(\"on\")); // end";
    let found = tokens(rt.alloc(), text)?;
    assert_eq!(rt; found.len() as usize, PROGRAM.len());
    for i in 0..found.len() {
        let (kind, row) = &PROGRAM[i as usize];
        assert!(rt; is_token(&found, i, *kind, 3, row), "token {i}");
    }
    let end = Place {
        line: 3,
        column: 74,
    };
    assert_eq!(rt; found.end(), end);
    Ok(())
}

// Texts, and the symbols of their tokens.
static LONGEST_TOKENS: [(&[u8], &[Symbol]); 20] = [
    (
        b"__1",
        &[
            Symbol::Primitive(Primitive::Wire),
            Symbol::Primitive(Primitive::Wire),
            Symbol::Integer(1),
        ],
    ),
    (b"___a1_", &[Symbol::Name(0)]),
    (b"1f2", &[Symbol::Integer(1), Symbol::Name(1)]),
    (b"1e", &[Symbol::Integer(1), Symbol::Name(1)]),
    (
        b"1e+x",
        &[
            Symbol::Integer(1),
            Symbol::Name(1),
            Symbol::Plus,
            Symbol::Name(3),
        ],
    ),
    (b"a.b", &[Symbol::Name(0), Symbol::Dot, Symbol::Name(2)]),
    (b":>=", &[Symbol::Merge, Symbol::Equals]),
    (
        b"<:>",
        &[Symbol::Split, Symbol::Primitive(Primitive::Point(Op::Gt))],
    ),
    (
        b"==>",
        &[
            Symbol::Primitive(Primitive::Point(Op::Eq)),
            Symbol::Primitive(Primitive::Point(Op::Gt)),
        ],
    ),
    (b"=>=", &[Symbol::Arrow, Symbol::Equals]),
    (b"/***/x", &[Symbol::Name(0)]),
    (b"/* // */1", &[Symbol::Integer(1)]),
    (b"// \xff end", &[]),
    (
        b"a/b//c\n/d",
        &[
            Symbol::Name(0),
            Symbol::Primitive(Primitive::Point(Op::Div)),
            Symbol::Name(2),
            Symbol::Primitive(Primitive::Point(Op::Div)),
            Symbol::Name(4),
        ],
    ),
    (b"2147483647", &[Symbol::Integer(2147483647)]),
    (b"000000000000001", &[Symbol::Integer(1)]),
    (b"minx", &[Symbol::Name(0)]),
    (b"\"/*\x00\n\"", &[Symbol::Text(0)]),
    (b")}(", &[Symbol::Close, Symbol::CloseBrace, Symbol::Open]),
    (b"", &[]),
];

#[test]
fn longest_tokens(rt: HostRuntime) -> Result<(), Fail> {
    for (text, symbols) in &LONGEST_TOKENS {
        let found = tokens(rt.alloc(), text)?;
        assert!(rt; found.symbols() == *symbols, "{text:?}");
    }
    Ok(())
}

// Texts, and the first refusal of each.
static FIRST_REFUSALS: [(&[u8], LexRefusal); 17] = [
    (
        b"process = #;",
        LexRefusal::BadByte {
            line: 1,
            column: 11,
        },
    ),
    (b"/* ab", LexRefusal::Unclosed { line: 1, column: 1 }),
    (
        b"process = _ * 0.5;",
        LexRefusal::RealLiteral {
            line: 1,
            column: 15,
        },
    ),
    (
        b"process = 2147483648;",
        LexRefusal::LiteralTooLarge {
            line: 1,
            column: 11,
        },
    ),
    (b" \"ab", LexRefusal::Unclosed { line: 1, column: 2 }),
    (b"/*/", LexRefusal::Unclosed { line: 1, column: 1 }),
    (b"x .5", LexRefusal::RealLiteral { line: 1, column: 3 }),
    (b"1.", LexRefusal::RealLiteral { line: 1, column: 1 }),
    (b"12e-3", LexRefusal::RealLiteral { line: 1, column: 1 }),
    (b"1E5", LexRefusal::RealLiteral { line: 1, column: 1 }),
    (b"1f", LexRefusal::RealLiteral { line: 1, column: 1 }),
    (b"x1.5", LexRefusal::RealLiteral { line: 1, column: 3 }),
    (
        b"99999999999.",
        LexRefusal::RealLiteral { line: 1, column: 1 },
    ),
    (b"a\n\n \x80", LexRefusal::BadByte { line: 3, column: 2 }),
    (b"\x7f", LexRefusal::BadByte { line: 1, column: 1 }),
    (b"\x00", LexRefusal::BadByte { line: 1, column: 1 }),
    (b"# /*", LexRefusal::BadByte { line: 1, column: 1 }),
];

#[test]
fn first_refusals(rt: HostRuntime) -> Result<(), Fail> {
    for (text, refusal) in &FIRST_REFUSALS {
        assert_eq!(rt; tokens(rt.alloc(), text).err(), Some(*refusal), "{text:?}");
    }
    Ok(())
}

/// The text, and then `piece` this many times.
fn repeated(alloc: Global, text: &[u8], piece: &[u8], times: usize) -> Result<Vec<u8>, AllocError> {
    let mut all = Vec::from_slice(alloc, text)?;
    for _ in 0..times {
        all.extend_from_slice(piece)?;
    }
    Ok(all)
}

#[test]
fn limits(rt: HostRuntime) -> Result<(), Fail> {
    // A law for the prover, which does nothing when it runs.
    one_answer();
    let alloc = rt.alloc();
    let blanks = repeated(alloc, b"", b" ", 1048576)?;
    assert_eq!(rt; tokens(alloc, blanks.as_slice())?.len(), 0);
    let over = repeated(alloc, b" ", b" ", 1048576)?;
    let too_long = LexRefusal::TextTooLong {
        role: Role::Program,
    };
    assert_eq!(rt; tokens(alloc, over.as_slice()).err(), Some(too_long));
    let open = repeated(alloc, b")} ", b"({", 64)?;
    assert_eq!(rt; tokens(alloc, open.as_slice())?.len(), 130);
    let deep = repeated(alloc, b"process = ", b"(", 129)?;
    let nesting = LexRefusal::Nesting {
        line: 1,
        column: 139,
    };
    assert_eq!(rt; tokens(alloc, deep.as_slice()).err(), Some(nesting));
    Ok(())
}
