// Which operand an operation's value is.

ghost use Rattle.std.specs.Prelude.{◌≡◌, ◌==◌, pos, if◌then◌else◌};
ghost use Rattle.std.specs.Ordering.{int_eq};
ghost use Rattle.fv_num.specs.headline.Words.{amount};
ghost use Rattle.fv_simplify.specs.Choices.{is_neutral as is_neutral_of, is_absorbing as is_absorbing_of, left_by as left_by_of};
ghost use Rattle.fv_simplify.specs.Choices.{selected2 as selected2_of, selected3 as selected3_of, or_else as or_else_of, choice as choice_of, pair};

use fv_num::Op;

/// The index of the operand that the operation's value is, as far as its first two operands are known to be numbers.
pub fn choice(op: Op, first: Option<i32>, second: Option<i32>) -> Option<u64>
    ensures { result ≡ choice_of op (pair first second) }
{
    match op {
        Op::Select2 => selected2(first),
        Op::Select3 => selected3(first),
        _ => either(op, first, second),
    }
}

// The index of the operand that the value is, where the operation is no selector.
fn either(op: Op, first: Option<i32>, second: Option<i32>) -> Option<u64>
    ensures { result ≡ or_else_of (left_by_of op 1 0 second) (left_by_of op 0 1 first) }
{
    match left_by(op, 1, 0, second) {
        Some(i) => Some(i),
        None => left_by(op, 0, 1, first),
    }
}

// The operand that a number at this index leaves.
fn left_by(op: Op, place: u64, other: u64, known: Option<i32>) -> Option<u64>
    ensures { result ≡ left_by_of op place other known }
{
    let n = match known {
        Some(n) => n,
        None => return None,
    };
    if is_neutral(op, place, n) {
        Some(other)
    } else if is_absorbing(op, place, n) {
        Some(place)
    } else {
        None
    }
}

// Whether the number at this index leaves the other operand as it is.
fn is_neutral(op: Op, place: u64, n: i32) -> bool
    ensures { result ≡ is_neutral_of op place n }
{
    match op {
        Op::Add | Op::Or | Op::Xor => n == 0,
        Op::Sub => place == 1 && n == 0,
        Op::Mul => n == 1,
        Op::Div => place == 1 && n == 1,
        Op::And => n == -1,
        Op::Shl | Op::Shr => place == 1 && shifts_by_nothing(n),
        _ => false,
    }
}

// Whether the number at this index makes the value 0.
fn is_absorbing(op: Op, place: u64, n: i32) -> bool
    ensures { result ≡ is_absorbing_of op place n }
{
    match op {
        Op::Mul | Op::And => n == 0,
        Op::Div | Op::Rem => place == 1 && n == 0,
        _ => false,
    }
}

// Whether a shift by this number goes by 0.
fn shifts_by_nothing(n: i32) -> bool
    ensures { result ≡ (amount n == 0) }
{
    n.cast_unsigned() % 32 == 0
}

fn selected2(known: Option<i32>) -> Option<u64>
    ensures { result ≡ selected2_of known }
{
    match known {
        Some(n) => { if n == 0 { Some(1) } else { Some(2) } }
        None => None,
    }
}

fn selected3(known: Option<i32>) -> Option<u64>
    ensures { result ≡ selected3_of known }
{
    match known {
        Some(n) => Some(third_of(n)),
        None => None,
    }
}

// The place that a selector of three chooses.
fn third_of(n: i32) -> u64
    ensures { result ≡ (if int_eq n (pos 0) then 1 else if int_eq n (pos 1) then 2 else 3) }
{
    if n == 0 {
        1
    } else if n == 1 {
        2
    } else {
        3
    }
}
