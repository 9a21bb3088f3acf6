// Delays over signals that were put.

ghost use Rattle.std.specs.Prelude.{◌≡◌, ◌<◌, ◌≤◌, ◌^◌, length, pos, if◌then◌else◌, IfOk};
ghost use Rattle.fv_share.specs.Drafts.{CanPut, put as put_of};
ghost use Rattle.fv_signal.specs.declared.signal.Signal.TheVariants.{Const as const_node, Delay as delay_node};
ghost use Rattle.fv_simplify.specs.Nodes.{number_at};
ghost use Rattle.fv_simplify.specs.Reducible.{limit};
ghost use Rattle.fv_signal.specs.headline.Value.{back_by as back_by_of};
ghost use Rattle.fv_simplify.specs.Rebuilt.{taken as taken_of, base as base_of};
ghost use Rattle.fv_simplify.specs.Passing.{so_far, is_zero as is_zero_of, put_late, late as late_of, by_number as by_number_of, delayed as delayed_of};

use fv_base::limits::DELAY_BUDGET;
use fv_share::Builder;
use fv_signal::{Signal, SignalId};
use std::alloc::AllocError;

/// The number that a signal is, where it is written there.
pub(crate) fn number(builder: &Builder, id: SignalId) -> Option<i32>
    requires { id < length builder.now.signals }
    ensures { result ≡ number_at (so_far builder.now) id }
{
    match builder.signal(id) {
        Signal::Const(n) => Some(n),
        _ => None,
    }
}

// Whether a signal is the number 0.
fn is_zero(builder: &Builder, id: SignalId) -> bool
    requires { id < length builder.now.signals }
    ensures { result ≡ is_zero_of (number_at (so_far builder.now) id) }
{
    match number(builder, id) {
        Some(n) => n == 0,
        None => false,
    }
}

// Puts signal x `by` samples later.
fn late(builder: &mut Builder, x: SignalId, by: u32) -> Result<SignalId, AllocError>
    requires there { x < length builder.old.signals }
    requires small { by < 2 ^ 31 }
    ensures value { IfOk result (λ id. (id, builder.new) ≡ late_of builder.old x by) }
    ensures there { IfOk result (λ id. id < length builder.new.signals) }
{
    if is_zero(builder, x) {
        return Ok(x);
    }
    put_delay(builder, x, by)
}

/// Puts a signal.
pub(crate) fn put_signal(builder: &mut Builder, signal: Signal) -> Result<SignalId, AllocError>
    requires { CanPut builder.old signal }
    ensures value { IfOk result (λ id. (id, builder.new) ≡ put_of builder.old signal) }
    ensures there { IfOk result (λ id. id < length builder.new.signals) }
{
    builder.node(signal)
}

// A small number with a sign.
fn signed(n: u32) -> i32
    requires { n < 2 ^ 31 }
    ensures { result ≡ pos n }
{
    n as i32
}

/// Puts a number.
pub(crate) fn put_number(builder: &mut Builder, n: i32) -> Result<SignalId, AllocError>
    ensures value { IfOk result (λ id. (id, builder.new) ≡ put_of builder.old (const_node n)) }
    ensures there { IfOk result (λ id. id < length builder.new.signals) }
{
    put_signal(builder, Signal::Const(n))
}

// Puts a delay of x by `by` samples.
fn put_delay(builder: &mut Builder, x: SignalId, by: u32) -> Result<SignalId, AllocError>
    requires there { x < length builder.old.signals }
    requires small { by < 2 ^ 31 }
    ensures value { IfOk result (λ id. (id, builder.new) ≡ put_late builder.old x by) }
    ensures there { IfOk result (λ id. id < length builder.new.signals) }
{
    let n = signed(by);
    let d = put_number(builder, n)?;
    let id = put_signal(builder, Signal::Delay { x, d, max: by })?;
    Ok(id)
}

// How many samples a delay by the number c goes back: from 0 to `most`.
fn back_by(most: u32, c: i32) -> u32
    ensures value { result ≡ back_by_of most c }
    ensures small { result < 2 ^ 31 }
    ensures within { result ≤ most }
{
    if c < 0 {
        return 0;
    }
    most.min(c.cast_unsigned())
}

// The signal of which x is taken as a delay, and by how many samples.
fn base(builder: &Builder, x: SignalId, room: Option<u32>) -> (SignalId, u32)
    requires { x < length builder.now.signals }
    ensures value { result ≡ base_of (so_far builder.now) room x }
    ensures there { result.0 < length builder.now.signals }
    ensures small { result.1 ≤ limit }
{
    match builder.signal(x) {
        Signal::Delay { x: s, d, max } => taken(builder, x, s, d, max, room),
        _ => (x, 0),
    }
}

// The signal of which x is taken as a delay, and by how many samples, where x is a delay of s by d. It is s itself where d is a
// number and both delays fit into one; else it is x.
fn taken(
    builder: &Builder,
    x: SignalId,
    s: SignalId,
    d: SignalId,
    max: u32,
    room: Option<u32>,
) -> (SignalId, u32)
    requires x { x < length builder.now.signals }
    requires s { s < length builder.now.signals }
    requires d { d < length builder.now.signals }
    ensures value { result ≡ taken_of x s max (number_at (so_far builder.now) d) room }
    ensures there { result.0 < length builder.now.signals }
    ensures small { result.1 ≤ limit }
{
    match (number(builder, d), room) {
        (Some(_), Some(most)) => {
            if u64::from(max) + u64::from(most) <= DELAY_BUDGET {
                (s, max)
            } else {
                (x, 0)
            }
        }
        _ => (x, 0),
    }
}

// Puts signal x `by` samples later. Where x is taken as a delay, its samples are added.
fn by_number(
    builder: &mut Builder,
    x: SignalId,
    by: u32,
    room: Option<u32>,
) -> Result<SignalId, AllocError>
    requires there { x < length builder.old.signals }
    requires small { by ≤ 1073741824 }
    ensures value { IfOk result (λ id. (id, builder.new) ≡ by_number_of builder.old room x by) }
    ensures there { IfOk result (λ id. id < length builder.new.signals) }
{
    if by == 0 {
        return Ok(x);
    }
    let (from, already) = base(builder, x, room);
    late(builder, from, already + by)
}

/// Signal x as many samples later as d says, at most `most`. `room` is how far the delays of x go in the graph that is rebuilt,
/// where all of them are by numbers.
pub fn delayed(
    builder: &mut Builder,
    x: SignalId,
    d: SignalId,
    most: u32,
    room: Option<u32>,
) -> Result<SignalId, AllocError>
    requires x { x < length builder.old.signals }
    requires d { d < length builder.old.signals }
    requires short { most ≤ limit }
    ensures value { IfOk result (λ id. (id, builder.new) ≡ delayed_of builder.old room x d most) }
    ensures there { IfOk result (λ id. id < length builder.new.signals) }
{
    match number(builder, d) {
        Some(c) => by_number(builder, x, back_by(most, c), room),
        None => varying(builder, x, d, most),
    }
}

// Puts signal x as many samples later as d says, where d is no number.
fn varying(
    builder: &mut Builder,
    x: SignalId,
    d: SignalId,
    most: u32,
) -> Result<SignalId, AllocError>
    requires x { x < length builder.old.signals }
    requires d { d < length builder.old.signals }
    ensures value { IfOk result (λ id. (id, builder.new)
        ≡ (if is_zero_of (number_at (so_far builder.old) x) then (x, builder.old) else put_of builder.old (delay_node x d most))) }
    ensures there { IfOk result (λ id. id < length builder.new.signals) }
{
    if is_zero(builder, x) {
        return Ok(x);
    }
    put_signal(builder, Signal::Delay { x, d, max: most })
}
