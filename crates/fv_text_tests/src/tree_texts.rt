// What whole texts are parsed as.

use fv_base::Word;
use fv_lex::{Tokens, tokens};
use fv_parse::{ParseRefusal, Tree, TreeId, parse};
use std::alloc::{AllocError, Global};
use std::process::Abort;
use std::test::Fail;

fn add_word(line: &mut String, word: &Word) -> Result<(), AllocError> {
    for b in word.bytes() {
        line.push(*b as char)?;
    }
    Ok(())
}

/// The line of a refusal.
fn refused(alloc: Global, refusal: ParseRefusal) -> Result<String, AllocError> {
    let mut line = String::new(alloc);
    match refusal {
        ParseRefusal::Syntax { line, column } => format!(in alloc; "9 Syntax {line} {column}"),
        ParseRefusal::RuleWidths { line, column } => format!(in alloc;
            "13 RuleWidths {line} {column}"
        ),
        ParseRefusal::Unsupported { word } => {
            line.push_str("10 Unsupported ")?;
            add_word(&mut line, &word)?;
            Ok(line)
        }
        ParseRefusal::Redefined { name } => {
            line.push_str("11 Redefined ")?;
            add_word(&mut line, &name)?;
            Ok(line)
        }
        ParseRefusal::RepeatedName { name } => {
            line.push_str("12 RepeatedName ")?;
            add_word(&mut line, &name)?;
            Ok(line)
        }
        ParseRefusal::NoProcess => String::from_str(alloc, "14 NoProcess"),
        ParseRefusal::NoMemory => String::from_str(alloc, "40 NoMemory"),
    }
}

/// The nodes of the tree that is parsed, in order, or the line of its refusal.
fn answer(alloc: Global, text: &[u8]) -> Result<String, AllocError> {
    let Ok(found) = tokens(alloc, text) else {
        return String::from_str(alloc, "no tokens");
    };
    describe(alloc, &found)
}

fn describe(alloc: Global, found: &Tokens) -> Result<String, AllocError> {
    let tree = match parse(alloc, found) {
        Ok(tree) => tree,
        Err(refusal) => return refused(alloc, refusal),
    };
    let mut line = String::new(alloc);
    for i in 0..tree.len() {
        let node = tree.node(TreeId::new(i));
        let shown = format!(in alloc; "{node:?} ")?;
        line.push_str(shown.as_str())?;
    }
    let _ = line.pop();
    Ok(line)
}

/// Each text has this answer.
fn expect_answers(
    rt: &impl Abort,
    alloc: Global,
    rows: &[(&[u8], &str)],
) -> Result<(), AllocError> {
    for (text, expected) in rows {
        let found = answer(alloc, text)?;
        assert_eq!(rt; found.as_str(), *expected);
    }
    Ok(())
}

// Texts that are refused, and the line of the refusal.
static REFUSALS: [(&[u8], &str); 29] = [
    (b"process = (1 , );", "9 Syntax 1 16"),
    (b"process = _", "9 Syntax 1 12"),
    (b"f(x = 1;", "9 Syntax 1 5"),
    (b"par = 1;", "9 Syntax 1 1"),
    (b"process = 1 +;", "9 Syntax 1 14"),
    (b"process = _ : _ with { a = 1; }, _;", "9 Syntax 1 32"),
    (b"process = f(x with { a = 1; });", "9 Syntax 1 15"),
    (b"f(_) = 1; process = f;", "9 Syntax 1 3"),
    (b"process = waveform{};", "9 Syntax 1 20"),
    (b"process = waveform{1,};", "9 Syntax 1 22"),
    (b"process = waveform{1,-};", "9 Syntax 1 23"),
    (b"process = waveform{1 2};", "9 Syntax 1 22"),
    (b"process = waveform{-x};", "9 Syntax 1 21"),
    (b"process = waveform(1);", "9 Syntax 1 19"),
    (b"process = waveform{1", "9 Syntax 1 21"),
    (b"f(rdtable) = 1;", "9 Syntax 1 3"),
    (b"import(\"stdfaust.lib\");", "10 Unsupported import"),
    (b"process = 2 ^ sin;", "10 Unsupported ^"),
    (b"process = button(\"a%b\") ;;", "10 Unsupported %"),
    (b"a = 1; a = 2; process = a;", "11 Redefined a"),
    (b"f(x) = 1; f = 2; process = f;", "11 Redefined f"),
    (b"f(x,x) = x; process = f;", "12 RepeatedName x"),
    (b"process = \\(y,z,y).(1);", "12 RepeatedName y"),
    (b"f((p:q),q) = 1; process = f;", "12 RepeatedName q"),
    (
        b"f(0) = 1; f(x,y) = 2; process = f(0);",
        "13 RuleWidths 1 11",
    ),
    (
        b"process = case { (0) => 1; (x,y) => 2; };",
        "13 RuleWidths 1 28",
    ),
    (b"process = _ with { a = 1; a = 2; };", "11 Redefined a"),
    (b"", "14 NoProcess"),
    (b"declare name \"t\"; a = _;", "14 NoProcess"),
];

#[test]
fn refusals(rt: HostRuntime) -> Result<(), Fail> {
    Ok(expect_answers(&rt, rt.alloc(), &REFUSALS)?)
}

// A text of each form, and the nodes of its tree.
static FORMS: [(&[u8], &str); 13] = [
    (
        b"process = 1 + 2 * -3;",
        "Number(1) Number(2) Negative(3) Binary(Infix(Point(Mul)), TreeId(1), TreeId(2)) Binary(Infix(Point(Add)), TreeId(0), TreeId(3)) \
         Constant(0, TreeId(4)) \
         List([TreeId(5)])",
    ),
    (
        b"process = 1 - 2 - 3 < 4;",
        "Number(1) Number(2) Binary(Infix(Point(Sub)), TreeId(0), TreeId(1)) Number(3) Binary(Infix(Point(Sub)), TreeId(2), TreeId(3)) Number(4) \
         Binary(Infix(Point(Lt)), TreeId(4), TreeId(5)) Constant(0, TreeId(6)) List([TreeId(7)])",
    ),
    (
        b"process = _ : _ , ! : mem ~ _;",
        "Primitive(Wire) Primitive(Wire) Primitive(Cut) Binary(Parallel, TreeId(1), TreeId(2)) Primitive(Mem) Primitive(Wire) Binary(Recursion, \
         TreeId(4), TreeId(5)) \
         Binary(Sequence, TreeId(3), TreeId(6)) Binary(Sequence, TreeId(0), TreeId(7)) Constant(0, TreeId(8)) List([TreeId(9)])",
    ),
    (
        b"process = a <: b :> c;",
        "Named(2) Named(4) Named(6) Binary(Merge, TreeId(1), TreeId(2)) Binary(Split, TreeId(0), TreeId(3)) Constant(0, TreeId(4)) List([TreeId(5)])",
    ),
    (
        b"process = waveform{ - 1,+2,\n3 /* */ };",
        "Waveform([Negative(1), Plain(2), Plain(3)]) Constant(0, TreeId(0)) List([TreeId(1)])",
    ),
    (
        b"process = rdtable, rwtable;",
        "Primitive(ReadTable) Primitive(WriteTable) Binary(Parallel, TreeId(0), TreeId(1)) Constant(0, TreeId(2)) List([TreeId(3)])",
    ),
    (
        b"process = -f(3)';",
        "MinusNamed(3) Number(3) List([TreeId(1)]) Apply(TreeId(0), TreeId(2)) Delayed(TreeId(3)) Constant(0, TreeId(4)) List([TreeId(5)])",
    ),
    (
        b"process = \\(x,y).((x) - +);",
        "Named(11) Group(TreeId(0)) Primitive(Point(Add)) Binary(Infix(Point(Sub)), TreeId(1), TreeId(2)) Abstraction([4, 6], TreeId(3)) \
         Constant(0, TreeId(4)) \
         List([TreeId(5)])",
    ),
    (
        b"process = case { (0, x : y) => +1; (((z)), w) => -2; };",
        "Number(0) Named(7) Named(9) Binary(Sequence, TreeId(1), TreeId(2)) List([TreeId(0), TreeId(3)]) Number(1) Rule(TreeId(4), TreeId(5)) \
         Named(18) \
         Named(22) List([TreeId(7), TreeId(8)]) Negative(2) Rule(TreeId(9), TreeId(10)) List([TreeId(6), TreeId(11)]) Case(TreeId(12)) \
         Constant(0, TreeId(13)) List([TreeId(14)])",
    ),
    (
        b"process = par(i, 2, seq(j, 3, sum(k, 4, prod(l, 5, 6))));",
        "Number(2) Number(3) Number(4) Number(5) Number(6) Iteration(Product, 22, TreeId(3), TreeId(4)) Iteration(Sum, 16, TreeId(2), TreeId(5)) \
         Iteration(Sequence, 10, TreeId(1), TreeId(6)) Iteration(Parallel, 4, TreeId(0), TreeId(7)) Constant(0, TreeId(8)) List([TreeId(9)])",
    ),
    (
        b"process = inputs(_), outputs(!), button(\"a\"), checkbox(\"b\");",
        "Primitive(Wire) Ports(Inputs, TreeId(0)) Primitive(Cut) Ports(Outputs, TreeId(2)) Switch(Button, 14) Switch(Checkbox, 19) Binary(Parallel, \
         TreeId(4), TreeId(5)) \
         Binary(Parallel, TreeId(3), TreeId(6)) Binary(Parallel, TreeId(1), TreeId(7)) Constant(0, TreeId(8)) List([TreeId(9)])",
    ),
    (
        b"process = hgroup(\"g\", vslider(\"s\", 1, 2, 3, 4));",
        "Number(1) Number(2) Number(3) Number(4) Slider(Vertical, 8, TreeId(0), TreeId(1), TreeId(2), TreeId(3)) Panel(Horizontal, 4, TreeId(4)) \
         Constant(0, TreeId(5)) List([TreeId(6)])",
    ),
    (
        b"declare a \"b\"; declare f n \"t\"; f(x) = x @ 1; process = f with { g = 1; };",
        "Named(11) List([TreeId(0)]) Named(14) Number(1) Binary(Infix(Delay), TreeId(2), TreeId(3)) Function(9, TreeId(1), TreeId(4)) Named(20) \
         Number(1) Constant(23, TreeId(7)) List([TreeId(8)]) Where(TreeId(6), TreeId(9)) Constant(18, TreeId(10)) List([TreeId(5), TreeId(11)])",
    ),
];

#[test]
fn forms(rt: HostRuntime) -> Result<(), Fail> {
    Ok(expect_answers(&rt, rt.alloc(), &FORMS)?)
}

// Texts with each operator and each primitive, and the nodes of their trees.
static OPERATORS: [(&[u8], &str); 7] = [
    (
        b"process = 1 @ 2 * 3 / 4 % 5 & 6 xor 7 << 8 >> 9;",
        "Number(1) Number(2) Binary(Infix(Delay), TreeId(0), TreeId(1)) Number(3) Binary(Infix(Point(Mul)), TreeId(2), TreeId(3)) Number(4) \
         Binary(Infix(Point(Div)), TreeId(4), TreeId(5)) Number(5) Binary(Infix(Point(Rem)), TreeId(6), TreeId(7)) Number(6) \
         Binary(Infix(Point(And)), TreeId(8), TreeId(9)) Number(7) Binary(Infix(Point(Xor)), TreeId(10), TreeId(11)) Number(8) \
         Binary(Infix(Point(Shl)), TreeId(12), TreeId(13)) Number(9) Binary(Infix(Point(Shr)), TreeId(14), TreeId(15)) Constant(0, TreeId(16)) \
         List([TreeId(17)])",
    ),
    (
        b"process = 1 | 2 < 3 <= 4 > 5 >= 6 == 7 != 8;",
        "Number(1) Number(2) Binary(Infix(Point(Or)), TreeId(0), TreeId(1)) Number(3) Binary(Infix(Point(Lt)), TreeId(2), TreeId(3)) Number(4) \
         Binary(Infix(Point(Le)), TreeId(4), TreeId(5)) Number(5) Binary(Infix(Point(Gt)), TreeId(6), TreeId(7)) Number(6) \
         Binary(Infix(Point(Ge)), TreeId(8), TreeId(9)) Number(7) Binary(Infix(Point(Eq)), TreeId(10), TreeId(11)) Number(8) \
         Binary(Infix(Point(Ne)), TreeId(12), TreeId(13)) Constant(0, TreeId(14)) List([TreeId(15)])",
    ),
    (
        b"process = f(*, /, %, &, |, xor, <<, >>);",
        "Named(2) Primitive(Point(Mul)) Primitive(Point(Div)) Primitive(Point(Rem)) Primitive(Point(And)) Primitive(Point(Or)) \
         Primitive(Point(Xor)) Primitive(Point(Shl)) \
         Primitive(Point(Shr)) List([TreeId(1), TreeId(2), TreeId(3), TreeId(4), TreeId(5), TreeId(6), TreeId(7), TreeId(8)]) \
         Apply(TreeId(0), TreeId(9)) Constant(0, TreeId(10)) List([TreeId(11)])",
    ),
    (
        b"process = f(<, <=, >, >=, ==, !=, @, -);",
        "Named(2) Primitive(Point(Lt)) Primitive(Point(Le)) Primitive(Point(Gt)) Primitive(Point(Ge)) Primitive(Point(Eq)) Primitive(Point(Ne)) \
         Primitive(Delay) \
         Primitive(Point(Sub)) List([TreeId(1), TreeId(2), TreeId(3), TreeId(4), TreeId(5), TreeId(6), TreeId(7), TreeId(8)]) Apply(TreeId(0), \
         TreeId(9)) \
         Constant(0, TreeId(10)) List([TreeId(11)])",
    ),
    (
        b"process = f(prefix, int, attach, select2, select3, min, max, abs);",
        "Named(2) Primitive(Prefix) Primitive(Int) Primitive(Attach) Primitive(Point(Select2)) Primitive(Point(Select3)) Primitive(Point(Min)) \
         Primitive(Point(Max)) Primitive(Point(Abs)) \
         List([TreeId(1), TreeId(2), TreeId(3), TreeId(4), TreeId(5), TreeId(6), TreeId(7), TreeId(8)]) Apply(TreeId(0), TreeId(9)) \
         Constant(0, TreeId(10)) List([TreeId(11)])",
    ),
    (
        b"process = vgroup(\"v\", tgroup(\"t\", hslider(\"h\", 1, 2, 3, 4) + nentry(\"n\", 5, 6, 7, 8)));",
        "Number(1) Number(2) Number(3) Number(4) Slider(Horizontal, 12, TreeId(0), TreeId(1), TreeId(2), TreeId(3)) Number(5) Number(6) Number(7) \
         Number(8) Slider(Number, 25, TreeId(5), TreeId(6), TreeId(7), TreeId(8)) Binary(Infix(Point(Add)), TreeId(4), TreeId(9)) Panel(Tabs, 8, \
         TreeId(10)) \
         Panel(Vertical, 4, TreeId(11)) Constant(0, TreeId(12)) List([TreeId(13)])",
    ),
    (
        b"f(-1, +2, (x, y) <: z) = x; process = f;",
        "Negative(1) Number(2) Named(9) Named(11) Binary(Parallel, TreeId(2), TreeId(3)) Named(14) Binary(Split, TreeId(4), TreeId(5)) \
         List([TreeId(0), TreeId(1), TreeId(6)]) Named(17) Function(0, TreeId(7), TreeId(8)) Named(21) Constant(19, TreeId(10)) \
         List([TreeId(9), TreeId(11)])",
    ),
];

#[test]
fn operators(rt: HostRuntime) -> Result<(), Fail> {
    Ok(expect_answers(&rt, rt.alloc(), &OPERATORS)?)
}

/// Names are equal by their bytes.
fn expect_names(rt: &impl Abort, tree: &Tree<'_>) {
    assert_eq!(rt; tree.name(4), tree.name(10));
    for token in [6, 8, 18] {
        assert_eq!(rt; tree.name(token), 6, "token {token}");
    }
}

/// The list of three definitions stands where its first item does.
fn expect_list(rt: &impl Abort, tree: &Tree<'_>) {
    let place = tree.place(tree.root());
    assert_eq!(rt; (place.line, place.column), (2, 1));
    assert_eq!(rt; tree.items(tree.root()).len(), 3);
}

#[test]
fn names_labels_and_places(rt: HostRuntime) -> Result<(), Fail> {
    let found = tokens(
        rt.alloc(),
        b"declare name \"t\";\nab = a;\na = ab;\nprocess = hgroup(\"gain\", a);",
    )?;
    let tree = parse(rt.alloc(), &found)?;
    expect_names(&rt, &tree);
    assert!(rt; tree.label(16) == b"gain".as_slice(), "without quotes");
    expect_list(&rt, &tree);
    Ok(())
}

/// A text that begins with `front`, repeats `part` and ends with `back`.
fn repeated(
    alloc: Global,
    front: &[u8],
    part: &[u8],
    count: u32,
    back: &[u8],
) -> Result<Vec<u8>, AllocError> {
    let mut text = front.to_vec(alloc)?;
    for _ in 0..count {
        text.extend_from_slice(part)?;
    }
    text.extend_from_slice(back)?;
    Ok(text)
}

/// How many nodes the tree of a text has below its list of definitions.
fn nodes(alloc: Global, text: &[u8]) -> Result<u64, Fail> {
    let found = tokens(alloc, text)?;
    let tree = parse(alloc, &found)?;
    Ok(tree.root().number())
}

#[test]
fn as_deep_as_may_be(rt: HostRuntime) -> Result<(), Fail> {
    let open = repeated(rt.alloc(), b"process = ", b"(", 128, b"_")?;
    let text = repeated(rt.alloc(), &open, b")", 128, b";")?;
    assert_eq!(rt; nodes(rt.alloc(), &text)?, 130);
    let open = repeated(rt.alloc(), b"process = ", b"_ with { a = ", 128, b"_")?;
    let text = repeated(rt.alloc(), &open, b"; }", 128, b";")?;
    assert_eq!(rt; nodes(rt.alloc(), &text)?, 514);
    Ok(())
}

// 524,283 wires, 524,282 signs that join them, and the definition.
#[test]
fn a_chain_as_long_as_may_be(rt: HostRuntime) -> Result<(), Fail> {
    let text = repeated(rt.alloc(), b"process = _", b":_", 524_282, b";")?;
    assert_eq!(rt; text.len(), 1_048_576);
    assert_eq!(rt; nodes(rt.alloc(), &text)?, 1_048_566);
    Ok(())
}

#[test]
fn a_waveform_as_long_as_may_be(rt: HostRuntime) -> Result<(), Fail> {
    let text = repeated(rt.alloc(), b"process = waveform{-1", b",2", 524_276, b" };")?;
    assert_eq!(rt; text.len(), 1_048_576);
    assert_eq!(rt; nodes(rt.alloc(), &text)?, 2);
    Ok(())
}

#[test]
fn as_blank_as_may_be(rt: HostRuntime) -> Result<(), Fail> {
    let text = repeated(rt.alloc(), b"process = _;", b" ", 1_048_564, b"")?;
    assert_eq!(rt; text.len(), 1_048_576);
    assert_eq!(rt; nodes(rt.alloc(), &text)?, 2);
    Ok(())
}
