// Operations over signals that were put.

ghost use Rattle.std.specs.Prelude.{◌≡◌, ◌<◌, length, take, All, IfOk};
ghost use Rattle.std.specs.Option.{option_map};
ghost use Rattle.fv_num.specs.headline.Words.{apply_of, inputs_of};
ghost use Rattle.fv_simplify.specs.Choices.{choice as choice_of};
ghost use Rattle.fv_simplify.specs.Nodes.{known as known_of, numbers as numbers_of};
ghost use Rattle.fv_simplify.specs.Passing.{so_far, chosen as chosen_of, operation as operation_of};

use crate::kept_operand::choice;
use crate::late::{number, put_number, put_signal};
use fv_num::{Op, apply};
use fv_share::Builder;
use fv_signal::{Signal, SignalId};
use std::alloc::AllocError;

/// Puts an operation on these signals: a number where all of its operands are, one of them where a number decides that, or itself.
pub(crate) fn operation(
    builder: &mut Builder,
    op: Op,
    args: [SignalId; 4],
) -> Result<SignalId, AllocError>
    requires { All (λ a. a < length builder.old.signals) args }
    ensures value { IfOk result (λ id. (id, builder.new) ≡ operation_of builder.old op args) }
    ensures there { IfOk result (λ id. id < length builder.new.signals) }
{
    match folded(builder, op, args) {
        Some(n) => put_number(builder, n),
        None => chosen(builder, op, args),
    }
}

// The number that an operation is whose operands all are numbers.
fn folded(builder: &Builder, op: Op, args: [SignalId; 4]) -> Option<i32>
    requires { All (λ a. a < length builder.now.signals) args }
    ensures { result ≡ option_map (apply_of op) (numbers_of (so_far builder.now) (take (inputs_of op) args)) }
{
    let count = op.inputs() as usize;
    let mut known = [0i32; 4];
    for i in 0..count {
        match number(builder, args[i]) {
            Some(n) => known[i] = n,
            None => return None,
        }
    }
    Some(apply(op, &known[..count]))
}

// Puts an operation of whose first two operands one may decide which it is.
fn chosen(builder: &mut Builder, op: Op, args: [SignalId; 4]) -> Result<SignalId, AllocError>
    requires { All (λ a. a < length builder.old.signals) args }
    ensures value { IfOk result (λ id. (id, builder.new)
        ≡ chosen_of builder.old op args (choice_of op (known_of (so_far builder.old) (take (inputs_of op) args)))) }
    ensures there { IfOk result (λ id. id < length builder.new.signals) }
{
    let first = number(builder, args[0]);
    let second = number(builder, args[1]);
    match choice(op, first, second) {
        Some(place) => Ok(args[place as usize]),
        None => put_signal(builder, Signal::Point { op, args }),
    }
}
