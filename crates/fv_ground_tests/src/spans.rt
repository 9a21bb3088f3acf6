// Rows of the table of spans, from outside.

use fv_num::{Op, Span, span_of};
use std::process::Abort;

// An operation of two numbers, with pairs of spans and the span of its values.
static ROWS: [(Op, &[[(i32, i32); 3]]); 18] = [
    (
        Op::Add,
        &[
            [(1, 2), (3, 5), (4, 7)],
            [(1, 2), (i32::MAX - 1, i32::MAX - 1), (i32::MIN, i32::MAX)],
            [(i32::MIN, i32::MIN), (0, 0), (i32::MIN, i32::MIN)],
        ],
    ),
    (
        Op::Sub,
        &[
            [(1, 2), (3, 5), (-4, -1)],
            [(i32::MIN, 0), (0, 1), (i32::MIN, i32::MAX)],
        ],
    ),
    (
        Op::Mul,
        &[
            [(-3, 2), (-5, 4), (-12, 15)],
            [(i32::MIN, i32::MIN), (-1, -1), (i32::MIN, i32::MAX)],
            [(46340, 46340), (46340, 46340), (2147395600, 2147395600)],
            [(0, 46341), (0, 46341), (i32::MIN, i32::MAX)],
        ],
    ),
    (
        Op::Div,
        &[
            [(-7, 9), (2, 2), (-3, 4)],
            [(-7, 9), (-2, -2), (-4, 3)],
            [(-7, 9), (0, 0), (0, 0)],
            [(-7, 9), (1, 3), (-9, 9)],
            [(i32::MIN, 5), (-1, -1), (i32::MIN, i32::MAX)],
            [(i32::MIN, 0), (1, 2), (i32::MIN, i32::MAX)],
            [(i32::MIN, i32::MAX), (2, 2), (-1073741824, 1073741823)],
        ],
    ),
    (
        Op::Rem,
        &[
            [(5, 9), (4, 4), (0, 3)],
            [(5, 9), (-4, -4), (0, 3)],
            [(-9, -5), (4, 4), (-3, 0)],
            [(-9, 2), (4, 4), (-3, 2)],
            [(5, 9), (1, 7), (0, 9)],
            [(-9, -5), (0, 7), (-9, 0)],
            [(-9, 5), (0, 0), (0, 0)],
            [
                (i32::MIN, i32::MAX),
                (i32::MIN, i32::MIN),
                (-i32::MAX, i32::MAX),
            ],
            [(i32::MIN, -1), (1, 2), (i32::MIN, 0)],
        ],
    ),
    (
        Op::And,
        &[
            [(1, 6), (2, 9), (0, 6)],
            [(-1, 6), (2, 9), (0, 9)],
            [(2, 9), (-1, 6), (0, 9)],
            [(-1, 6), (-2, 3), (i32::MIN, i32::MAX)],
        ],
    ),
    (
        Op::Or,
        &[
            [(0, 5), (1, 8), (0, 15)],
            [(0, 0), (0, 0), (0, 0)],
            [(0, 7), (0, 3), (0, 7)],
            [(0, 1), (0, 2), (0, 3)],
            [(-1, 0), (0, 1), (i32::MIN, i32::MAX)],
            [(0, i32::MAX), (0, 0), (0, i32::MAX)],
        ],
    ),
    (
        Op::Xor,
        &[
            [(4, 5), (4, 4), (0, 7)],
            [(0, 0), (-1, -1), (i32::MIN, i32::MAX)],
        ],
    ),
    (
        Op::Shl,
        &[
            [(1, 2), (3, 3), (8, 16)],
            [(-2, 1), (33, 33), (-4, 2)],
            [(1, 2), (31, 31), (i32::MIN, i32::MAX)],
            [(1, 2), (1, 2), (i32::MIN, i32::MAX)],
            [(-1, 0), (-1, -1), (i32::MIN, 0)],
        ],
    ),
    (
        Op::Shr,
        &[
            [(-8, 9), (1, 1), (-4, 4)],
            [(-8, 9), (33, 33), (-4, 4)],
            [(3, 9), (0, 1), (0, 9)],
            [(-9, -3), (0, 1), (-9, -1)],
            [(-9, 3), (0, 1), (-9, 3)],
            [(i32::MIN, i32::MAX), (-1, -1), (-1, 0)],
        ],
    ),
    (Op::Lt, &[[(1, 2), (5, 6), (0, 1)]]),
    (Op::Le, &[[(1, 2), (5, 6), (0, 1)]]),
    (Op::Gt, &[[(1, 2), (5, 6), (0, 1)]]),
    (Op::Ge, &[[(1, 2), (5, 6), (0, 1)]]),
    (Op::Eq, &[[(1, 1), (1, 1), (0, 1)]]),
    (Op::Ne, &[[(1, 1), (1, 1), (0, 1)]]),
    (Op::Min, &[[(1, 5), (3, 4), (1, 4)]]),
    (Op::Max, &[[(1, 5), (3, 4), (3, 5)]]),
];

/// The span from one number to another.
fn span(rt: &impl Abort, lo: i32, hi: i32) -> Span {
    assert!(rt; lo <= hi);
    Span { lo, hi }
}

/// The values of the operation, on inputs of these spans, have this span.
fn expect_span(rt: &impl Abort, op: Op, inputs: &[Span], want: (i32, i32)) {
    assert!(rt; op.inputs() as usize == inputs.len());
    let found = span_of(op, inputs);
    assert!(rt;
        (found.lo, found.hi) == want,
        "{op:?} {inputs:?}: {found:?}"
    );
}

#[test]
fn spans_of_two(rt: HostRuntime) {
    for (op, rows) in &ROWS {
        for [x, y, want] in *rows {
            let inputs = [span(&rt, x.0, x.1), span(&rt, y.0, y.1)];
            expect_span(&rt, *op, &inputs, *want);
        }
    }
}

// A span, and that of the magnitudes of its numbers.
static MAGNITUDES: [[(i32, i32); 2]; 7] = [
    [(3, 5), (3, 5)],
    [(-5, -3), (3, 5)],
    [(-5, 3), (0, 5)],
    [(-2, 3), (0, 3)],
    [(-5, 0), (0, 5)],
    [(-i32::MAX, 0), (0, i32::MAX)],
    [(i32::MIN, 0), (i32::MIN, i32::MAX)],
];

#[test]
fn spans_of_magnitudes(rt: HostRuntime) {
    for [x, want] in &MAGNITUDES {
        expect_span(&rt, Op::Abs, &[span(&rt, x.0, x.1)], *want);
    }
}

#[test]
fn spans_of_choices(rt: HostRuntime) {
    let bit = span(&rt, 0, 1);
    let seven = Span::point(7);
    expect_span(&rt, Op::Select2, &[bit, seven, span(&rt, -2, 3)], (-2, 7));
    let choices = [bit, seven, Span::point(9), Span::point(-4)];
    expect_span(&rt, Op::Select3, &choices, (-4, 9));
    let all = Span::full();
    assert!(rt; (all.lo, all.hi) == (i32::MIN, i32::MAX));
}
