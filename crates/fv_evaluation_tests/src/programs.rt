// Programs, and what they stand for. Each form has its row.

use crate::rows::{Row, assert_answers};
use std::test::Fail;

static LEAVES: [Row; 7] = [
    Row {
        text: "process = 7;",
        answer: "0 to 1: 7",
    },
    Row {
        text: "process = -7;",
        answer: "0 to 1: -7",
    },
    Row {
        text: "process = _;",
        answer: "1 to 1: Wire",
    },
    Row {
        text: "process = !;",
        answer: "1 to 0: Cut",
    },
    Row {
        text: "process = mem;",
        answer: "1 to 1: Mem",
    },
    Row {
        text: "process = @;",
        answer: "2 to 1: Delay",
    },
    Row {
        text: "process = select3;",
        answer: "4 to 1: Point(Select3)",
    },
];

#[test]
fn leaves(rt: HostRuntime) -> Result<(), Fail> {
    assert_answers(&rt, rt.alloc(), &LEAVES)
}

static COMPOSITIONS: [Row; 8] = [
    Row {
        text: "process = _,! : _ ;",
        answer: "2 to 1: ((Wire,Cut):Wire)",
    },
    Row {
        text: "process = _ <: _,_;",
        answer: "1 to 2: (Wire<:(Wire,Wire))",
    },
    Row {
        text: "process = _,_ :> _;",
        answer: "2 to 1: ((Wire,Wire):>Wire)",
    },
    Row {
        text: "process = + ~ _;",
        answer: "1 to 1: (Point(Add)~Wire)",
    },
    Row {
        text: "process = 3 - 1;",
        answer: "0 to 1: ((3,1):Point(Sub))",
    },
    Row {
        text: "process = _';",
        answer: "1 to 1: (Wire:Mem)",
    },
    Row {
        text: "x = 3; process = -x;",
        answer: "0 to 1: ((0,3):Point(Sub))",
    },
    Row {
        text: "process = hgroup(\"g\", (_));",
        answer: "1 to 1: Wire",
    },
];

#[test]
fn compositions(rt: HostRuntime) -> Result<(), Fail> {
    assert_answers(&rt, rt.alloc(), &COMPOSITIONS)
}

static NAMES: [Row; 5] = [
    Row {
        text: "a = 3; process = a;",
        answer: "0 to 1: 3",
    },
    // The innermost definition counts, and a definition stands in its own list.
    Row {
        text: "a = 1; process = a with { a = 2; };",
        answer: "0 to 1: 2",
    },
    Row {
        text: "a = 1; b = a; process = b with { a = 2; };",
        answer: "0 to 1: 1",
    },
    Row {
        text: "a = 1; process = b with { b = a; a = 2; };",
        answer: "0 to 1: 2",
    },
    Row {
        text: "f(x) = x; x = 9; process = f(4), x;",
        answer: "0 to 2: (4,9)",
    },
];

#[test]
fn names(rt: HostRuntime) -> Result<(), Fail> {
    assert_answers(&rt, rt.alloc(), &NAMES)
}

static APPLIED_ABSTRACTIONS: [Row; 10] = [
    Row {
        text: "f(x) = x * 2; process = f(3);",
        answer: "0 to 1: ((3,2):Point(Mul))",
    },
    Row {
        text: "f(x,y) = x - y; process = f(5,2);",
        answer: "0 to 1: ((5,2):Point(Sub))",
    },
    Row {
        text: "f(x,y) = x - y; process = f(5)(2);",
        answer: "0 to 1: ((5,2):Point(Sub))",
    },
    // An argument that is left over goes to the result.
    Row {
        text: "process = \\(x).(\\(y).(x - y))(5,3);",
        answer: "0 to 1: ((5,3):Point(Sub))",
    },
    // An argument with a number is that integer, and another one stays as it is.
    Row {
        text: "f(x) = x; process = f(1 + 2);",
        answer: "0 to 1: 3",
    },
    Row {
        text: "f(x) = x; process = f(_ + 2);",
        answer: "1 to 1: ((Wire,2):Point(Add))",
    },
    // Parameters that are left become inputs, the first one outermost.
    Row {
        text: "process = \\(x).(x + 1);",
        answer: "1 to 1: [0 ((slot 0,1):Point(Add))]",
    },
    Row {
        text: "process = \\(x,y).(x - y);",
        answer: "2 to 1: [0 [1 ((slot 0,slot 1):Point(Sub))]]",
    },
    Row {
        text: "f(x,y) = x - y; process = f(5);",
        answer: "1 to 1: [0 ((5,slot 0):Point(Sub))]",
    },
    Row {
        text: "f(x,y,z) = y; process = f(5), f;",
        answer: "5 to 2: ([0 [1 slot 0]],[2 [3 [4 slot 3]]])",
    },
];

#[test]
fn applied_abstractions(rt: HostRuntime) -> Result<(), Fail> {
    assert_answers(&rt, rt.alloc(), &APPLIED_ABSTRACTIONS)
}

static APPLIED_DIAGRAMS: [Row; 10] = [
    Row {
        text: "process = +(1,2);",
        answer: "0 to 1: ((1,2):Point(Add))",
    },
    Row {
        text: "process = +((1,2));",
        answer: "0 to 1: ((1,2):Point(Add))",
    },
    // One argument of a primitive of two inputs is its second one, but for `prefix`.
    Row {
        text: "process = -(1);",
        answer: "1 to 1: ((Wire,1):Point(Sub))",
    },
    Row {
        text: "m = -; process = m(1);",
        answer: "1 to 1: ((Wire,1):Point(Sub))",
    },
    Row {
        text: "process = prefix(1);",
        answer: "1 to 1: ((1,Wire):Prefix)",
    },
    Row {
        text: "process = (_,_ : -)(1);",
        answer: "1 to 1: ((1,Wire):((Wire,Wire):Point(Sub)))",
    },
    // Wires stand for the inputs that are left.
    Row {
        text: "process = select3(0);",
        answer: "3 to 1: ((0,(Wire,(Wire,Wire))):Point(Select3))",
    },
    Row {
        text: "process = select3(_,10,20,30);",
        answer: "1 to 1: ((Wire,(10,(20,30))):Point(Select3))",
    },
    // Two wires are wanted again, and then one.
    Row {
        text: "process = (_,_,_)(1), (!,!)(2), (_,_,_)(3);",
        answer: "5 to 6: (((1,(Wire,Wire)):(Wire,(Wire,Wire))),(((2,Wire):(Cut,Cut)),((3,(Wire,Wire)):(Wire,(Wire,Wire)))))",
    },
    // Arguments are turned into diagrams.
    Row {
        text: "process = +(\\(x).(x), 2);",
        answer: "1 to 1: (([0 slot 0],2):Point(Add))",
    },
];

#[test]
fn applied_diagrams(rt: HostRuntime) -> Result<(), Fail> {
    assert_answers(&rt, rt.alloc(), &APPLIED_DIAGRAMS)
}

static APPLIED_RULES: [Row; 9] = [
    Row {
        text: "f(0) = 10; f(n) = n; process = f(0), f(4);",
        answer: "0 to 2: (10,4)",
    },
    Row {
        text: "process = case { (0) => 1; (n) => n - 1; }(5);",
        answer: "0 to 1: ((5,1):Point(Sub))",
    },
    Row {
        text: "f(0) = 1; f(n) = n * f(n - 1); process = f(2);",
        answer: "0 to 1: ((2,((1,1):Point(Mul))):Point(Mul))",
    },
    // Rules take their arguments one after the other, and give the others to the result.
    Row {
        text: "f(0,y) = y; f(x,y) = x; process = f(0)(8);",
        answer: "0 to 1: 8",
    },
    Row {
        text: "f(0,y) = \\(z).(y - z); process = f(0,8,3);",
        answer: "0 to 1: ((8,3):Point(Sub))",
    },
    // A composition is matched by its parts, a negative number by its value.
    Row {
        text: "f((a,b)) = b,a; process = f((1,2));",
        answer: "0 to 2: (2,1)",
    },
    Row {
        text: "f(a:b) = b; process = f(_:mem);",
        answer: "1 to 1: Mem",
    },
    Row {
        text: "f(-3) = 1; f(n) = 2; process = f(1 - 4), f(3);",
        answer: "0 to 2: (1,2)",
    },
    Row {
        text: "last((a,rest)) = last(rest); last(a) = a; process = last((7,8,9));",
        answer: "0 to 1: 9",
    },
];

#[test]
fn applied_rules(rt: HostRuntime) -> Result<(), Fail> {
    assert_answers(&rt, rt.alloc(), &APPLIED_RULES)
}

static ITERATIONS: [Row; 7] = [
    // `par` and `seq` from the right, `sum` and `prod` from the left, and the index from 0.
    Row {
        text: "process = par(i,3,i);",
        answer: "0 to 3: (0,(1,2))",
    },
    Row {
        text: "process = seq(i,3,+(i));",
        answer: "1 to 1: (((Wire,0):Point(Add)):(((Wire,1):Point(Add)):((Wire,2):Point(Add))))",
    },
    Row {
        text: "process = sum(i,3,i);",
        answer: "0 to 1: ((((0,1):Point(Add)),2):Point(Add))",
    },
    Row {
        text: "process = prod(i,3,i);",
        answer: "0 to 1: ((((0,1):Point(Mul)),2):Point(Mul))",
    },
    Row {
        text: "process = sum(i,1,i);",
        answer: "0 to 1: 0",
    },
    Row {
        text: "n = 1; process = par(i,n + 1,i * n);",
        answer: "0 to 2: (((0,1):Point(Mul)),((1,1):Point(Mul)))",
    },
    Row {
        text: "process = par(i,2,\\(x).(x));",
        answer: "2 to 2: ([0 slot 0],[1 slot 1])",
    },
];

#[test]
fn iterations(rt: HostRuntime) -> Result<(), Fail> {
    assert_answers(&rt, rt.alloc(), &ITERATIONS)
}

static ARITIES: [Row; 3] = [
    Row {
        text: "process = inputs(+);",
        answer: "0 to 1: 2",
    },
    Row {
        text: "process = outputs((_,_,_));",
        answer: "0 to 1: 3",
    },
    Row {
        text: "process = inputs(\\(x,y).(x)), outputs(!);",
        answer: "0 to 2: (2,0)",
    },
];

#[test]
fn arities(rt: HostRuntime) -> Result<(), Fail> {
    assert_answers(&rt, rt.alloc(), &ARITIES)
}

static CONTROLS: [Row; 4] = [
    Row {
        text: "process = button(\"go\"), checkbox(\"on\");",
        answer: "0 to 2: (control 0,control 1); Button 0 0 1 go; Checkbox 0 0 1 on",
    },
    Row {
        text: "process = vslider(\"v\",1 + 1,0,5 * 2,1), nentry(\"n\",-1,-2,3,1);",
        answer: "0 to 2: (control 0,control 1); VSlider 2 0 10 v; NEntry -1 -2 3 n",
    },
    // An equal label is the same control; the step has no effect.
    Row {
        text: "process = hslider(\"v\",5,0,10,1), hslider(\"v\",5,0,10,2);",
        answer: "0 to 2: (control 0,control 0); HSlider 5 0 10 v",
    },
    // So it is where one place of the text is evaluated again, after another control.
    Row {
        text: "f(x) = button(\"b\"), hslider(\"v\",x,0,10,1); process = f(5), f(5);",
        answer: "0 to 4: ((control 0,control 1),(control 0,control 1)); Button 0 0 1 b; HSlider 5 0 10 v",
    },
];

#[test]
fn controls(rt: HostRuntime) -> Result<(), Fail> {
    assert_answers(&rt, rt.alloc(), &CONTROLS)
}
