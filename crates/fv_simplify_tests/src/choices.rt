// Which operand an operation's value is.

use fv_num::Op;
use fv_simplify::choice;
use std::process::Abort;

// An operation, the numbers of its first two operands where they are known, and the place of the operand that its value is.
type Row = (Op, Option<i32>, Option<i32>, Option<u64>);

static ROWS: [Row; 27] = [
    (Op::Add, None, Some(0), Some(0)),
    (Op::Add, Some(0), None, Some(1)),
    (Op::Sub, None, Some(0), Some(0)),
    (Op::Sub, Some(0), None, None),
    (Op::Mul, None, Some(1), Some(0)),
    (Op::Mul, Some(0), None, Some(0)),
    (Op::Div, None, Some(1), Some(0)),
    (Op::Div, None, Some(-1), None),
    (Op::Div, None, Some(0), Some(1)),
    (Op::Div, Some(0), None, None),
    (Op::Rem, None, Some(0), Some(1)),
    (Op::Rem, None, Some(1), None),
    (Op::And, Some(-1), None, Some(1)),
    (Op::And, None, Some(0), Some(1)),
    (Op::Or, None, Some(0), Some(0)),
    (Op::Xor, Some(0), None, Some(1)),
    (Op::Shl, None, Some(32), Some(0)),
    (Op::Shl, None, Some(31), None),
    (Op::Shr, None, Some(-64), Some(0)),
    (Op::Shr, Some(0), None, None),
    (Op::Min, None, Some(0), None),
    (Op::Abs, Some(0), None, None),
    (Op::Select2, Some(0), None, Some(1)),
    (Op::Select2, Some(7), None, Some(2)),
    (Op::Select3, Some(1), None, Some(2)),
    (Op::Select3, Some(2), None, Some(3)),
    (Op::Select3, None, Some(1), None),
];

#[test]
fn a_number_decides(rt: HostRuntime) {
    for (op, first, second, place) in &ROWS {
        assert_eq!(rt; choice(*op, *first, *second), *place, "{op:?}");
    }
}
