// Which signals can be made simpler, and how far a graph reads back, by the words of their definitions.

ghost use Rattle.std.specs.Prelude.{◌<◌, length};

use fv_num::Op;
use fv_signal::{Graph, Signal, SignalId};
use std::alloc::{AllocError, Global};

// How far a delay goes back at most.
const LIMIT: i64 = 16_777_216;

/// Why a signal can be made simpler.
#[derive(Clone, Copy, PartialEq, Eq, Debug)]
pub(crate) enum Rule {
    /// An operation on numbers.
    OnNumbers,
    /// A number that leaves the other operand as it is.
    ByNeutral,
    /// A number that makes the value 0.
    ByAbsorbing,
    /// A selector that is a number.
    BySelector,
    /// A delay by 0.
    ByNothing,
    /// A delay of 0.
    OfNothing,
    /// A delay by a number that is not its greatest.
    Loose,
    /// A delay by a number of such a delay, which its readers can take over.
    OfDelay,
}

/// All of them.
pub(crate) const RULES: [Rule; 8] = [
    Rule::OnNumbers,
    Rule::ByNeutral,
    Rule::ByAbsorbing,
    Rule::BySelector,
    Rule::ByNothing,
    Rule::OfNothing,
    Rule::Loose,
    Rule::OfDelay,
];

// The number that a signal is.
fn number(graph: &Graph, s: SignalId) -> Option<i32> {
    if s.number() >= graph.len() {
        return None;
    }
    match graph.signal(s) {
        Signal::Const(n) => Some(n),
        _ => None,
    }
}

// By how many samples a signal is later than another, where it is so by a number.
fn later_than(graph: &Graph, s: SignalId, x: SignalId) -> Option<i32>
    requires { s < length graph.now.signals }
{
    match graph.signal(s) {
        Signal::Delay { x: of, d, max: _ } => { if of == x { number(graph, d) } else { None } }
        _ => None,
    }
}

// Whether a signal reads another.
fn reads(graph: &Graph, r: SignalId, s: SignalId) -> bool
    requires { r < length graph.now.signals }
{
    match graph.signal(r) {
        Signal::Point { op, args } => args[..op.inputs() as usize].contains(&s),
        Signal::Delay { x, d, max: _ } => x == s || d == s,
        Signal::Read { table: _, r } => r == s,
        Signal::Write { table: _, w, x, r } => w == s || x == s || r == s,
        Signal::Input(_)
        | Signal::Const(_)
        | Signal::Control(_)
        | Signal::Back { .. }
        | Signal::Member { .. } => false,
    }
}

// Whether a signal defines a member.
fn is_definition(graph: &Graph, s: SignalId) -> bool {
    for group in 0..graph.groups() {
        if graph.group(group).contains(&s) {
            return true;
        }
    }
    false
}

// Whether each signal that reads this one is a delay of it by a number that fits into the limit together with c. This one is later
// than another by c.
fn can_take_over(graph: &Graph, y: SignalId, c: i32) -> bool {
    for place in 0..graph.len() {
        let r = SignalId::new(place);
        if reads(graph, r, y) {
            match later_than(graph, r, y) {
                Some(b) => {
                    if i64::from(c) + i64::from(b) > LIMIT {
                        return false;
                    }
                }
                None => return false,
            }
        }
    }
    true
}

// Whether a signal is a delay by a number that its readers can take over.
fn is_taken_over(graph: &Graph, y: SignalId) -> bool {
    if y.number() >= graph.len() {
        return false;
    }
    match graph.signal(y) {
        Signal::Delay { x: _, d, max: _ } => match number(graph, d) {
            Some(c) => !is_definition(graph, y) && can_take_over(graph, y, c),
            None => false,
        },
        _ => false,
    }
}

// What a number at a place of an operation does.
fn by_number(op: Op, place: usize, n: i32) -> Option<Rule> {
    match op {
        Op::Add | Op::Or | Op::Xor if n == 0 => Some(Rule::ByNeutral),
        Op::Sub if place == 1 && n == 0 => Some(Rule::ByNeutral),
        Op::Mul if n == 1 => Some(Rule::ByNeutral),
        Op::Div if place == 1 && n == 1 => Some(Rule::ByNeutral),
        Op::And if n == -1 => Some(Rule::ByNeutral),
        Op::Shl | Op::Shr if place == 1 && n & 31 == 0 => Some(Rule::ByNeutral),
        Op::Mul | Op::And if n == 0 => Some(Rule::ByAbsorbing),
        Op::Div | Op::Rem if place == 1 && n == 0 => Some(Rule::ByAbsorbing),
        Op::Select2 | Op::Select3 if place == 0 => Some(Rule::BySelector),
        _ => None,
    }
}

// Why an operation on these can be made simpler.
fn rule_of_operation(graph: &Graph, op: Op, operands: &[SignalId]) -> Option<Rule> {
    let mut are_numbers = true;
    let mut rule = None;
    for place in 0..operands.len() {
        match number(graph, operands[place]) {
            Some(n) => {
                if rule.is_none() {
                    rule = by_number(op, place, n);
                }
            }
            None => are_numbers = false,
        }
    }
    if are_numbers {
        Some(Rule::OnNumbers)
    } else {
        rule
    }
}

// Why a delay of x by d, of at most `max` samples, can be made simpler.
fn rule_of_delay(graph: &Graph, x: SignalId, d: SignalId, max: u32) -> Option<Rule> {
    if number(graph, x) == Some(0) {
        return Some(Rule::OfNothing);
    }
    match number(graph, d) {
        None => None,
        Some(0) => Some(Rule::ByNothing),
        Some(c) => {
            if i64::from(c) != i64::from(max) {
                Some(Rule::Loose)
            } else if is_taken_over(graph, x) {
                Some(Rule::OfDelay)
            } else {
                None
            }
        }
    }
}

/// Why a signal can be made simpler.
pub(crate) fn rule_of(graph: &Graph, s: SignalId) -> Option<Rule>
    requires { s < length graph.now.signals }
{
    match graph.signal(s) {
        Signal::Point { op, args } => rule_of_operation(graph, op, &args[..op.inputs() as usize]),
        Signal::Delay { x, d, max } => rule_of_delay(graph, x, d, max),
        Signal::Input(_)
        | Signal::Const(_)
        | Signal::Control(_)
        | Signal::Back { .. }
        | Signal::Member { .. }
        | Signal::Read { .. }
        | Signal::Write { .. } => None,
    }
}

/// The rules by which signals can be made simpler, each as often as it is met.
pub(crate) fn rules_met(alloc: Global, graph: &Graph) -> Result<Vec<Rule>, AllocError> {
    let mut rules = Vec::new(alloc);
    for place in 0..graph.len() {
        if let Some(rule) = rule_of(graph, SignalId::new(place)) {
            rules.push(rule)?;
        }
    }
    Ok(rules)
}

// How far back a signal is read at most.
fn farthest(graph: &Graph, s: SignalId) -> u32 {
    let mut far = 0;
    for place in 0..graph.len() {
        if let Signal::Delay { x, d: _, max } = graph.signal(SignalId::new(place)) {
            if x == s {
                far = far.max(max);
            }
        }
    }
    far
}

/// How far back all signals are read at most, in one sum.
pub(crate) fn reach(graph: &Graph) -> u128 {
    let mut sum = 0u128;
    for place in 0..graph.len() {
        sum = sum.wrapping_add(u128::from(farthest(graph, SignalId::new(place))));
    }
    sum
}
