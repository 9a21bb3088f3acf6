// The code of held values.

ghost use Rattle.std.specs.Prelude.{◌≡◌, ◌≢◌, ℕ, ◌<◌, length, map, All, IfOk, OnOk};
ghost use Rattle.fv_split_plan.specs.Reach.{at};
ghost use Rattle.fv_signal.specs.headline.Value.{IsGraph};
ghost use Rattle.fv_signal.specs.headline.Rates.{rates as rates_of};
ghost use Rattle.fv_loopcode.specs.Code.{IsWhole};
ghost use Rattle.fv_split_plan.specs.inner.Separated.{OperandsWithin};
ghost use Rattle.fv_split_code.specs.Held.{IsSteady, StepIs, HoldsNow, HoldsIf, HoldsUpTo};
ghost use Rattle.fv_signal.specs.declared.rate.Rate.TheVariants.{Sample};

use fv_analysis::Rates;
use fv_loopcode::Step;
use fv_signal::{Graph, Rate, Signal, SignalId};
use std::alloc::{AllocError, Global};

/// The code of held values, and the number of each signal that is one.
#[derive(Drop)]
pub struct HeldValues {
    pub steps: Vec<Step>,
    pub numbers: Vec<u64>,
}

// The numbers of four held values.
fn numbered(numbers: &[u64], args: [SignalId; 4]) -> [u64; 4]
    requires { All (λ a. a < length numbers.now) args }
    ensures { result ≡ map (at numbers.now) args }
{
    [
        numbers[args[0].number() as usize],
        numbers[args[1].number() as usize],
        numbers[args[2].number() as usize],
        numbers[args[3].number() as usize],
    ]
}

// The step of a held value.
fn held_step(node: Signal, numbers: &[u64]) -> Step
    requires operands { OperandsWithin (length numbers.now) node }
    requires steady { IsSteady node }
    ensures is { StepIs numbers.now node result }
    ensures whole { IsWhole result }
{
    match node {
        Signal::Const(n) => Step::Number(n),
        Signal::Control(k) => Step::Held(k as u64),
        Signal::Point { op, args } => Step::Point {
            op,
            args: numbered(numbers, args),
        },
        Signal::Input(_) => unreachable!(),
        Signal::Delay { x: _, d: _, max: _ } => unreachable!(),
        Signal::Back { group: _, i: _ } => unreachable!(),
        Signal::Member { group: _, i: _ } => unreachable!(),
        Signal::Read { table, r } => Step::Read {
            table,
            arg: numbers[r.number() as usize],
        },
        Signal::Write {
            table: _,
            w: _,
            x: _,
            r: _,
        } => unreachable!(),
    }
}

// Adds one held value more.
fn hold(
    steps: &mut Vec<Step>,
    numbers: &mut Vec<u64>,
    s: u64,
    node: Signal,
) -> Result<(), AllocError>
    requires signal { s < length numbers.old.items }
    requires operands { OperandsWithin (length numbers.old.items) node }
    requires steady { IsSteady node }
    ensures { OnOk result (HoldsNow s node numbers.old.items steps.old.items numbers.new.items steps.new.items) }
{
    let step = held_step(node, numbers);
    numbers[s as usize] = steps.len() as u64;
    steps.push(step)?;
    Ok(())
}

// Adds one signal more, where it is a held value.
fn hold_if(
    steps: &mut Vec<Step>,
    numbers: &mut Vec<u64>,
    s: u64,
    node: Signal,
    rate: Rate,
) -> Result<(), AllocError>
    requires signal { s < length numbers.old.items }
    requires operands { OperandsWithin (length numbers.old.items) node }
    requires steady { rate ≢ Sample → IsSteady node }
    ensures { OnOk result (HoldsIf s node rate numbers.old.items steps.old.items numbers.new.items steps.new.items) }
{
    match rate {
        Rate::Sample => Ok(()),
        Rate::Constant => hold(steps, numbers, s, node),
        Rate::Control => hold(steps, numbers, s, node),
    }
}

/// The code of the held values, and the number of each.
pub fn held_code(alloc: Global, graph: &Graph, rates: &Rates) -> Result<HeldValues, AllocError>
    requires graph { IsGraph graph.now }
    requires rates { rates.now ≡ rates_of graph.now.signals }
    ensures { IfOk result (λ held. (length held.numbers.items ≡ length graph.now.signals)
        × HoldsUpTo graph.now (length graph.now.signals) held.numbers.items held.steps.items) }
{
    let mut steps = Vec::new(alloc);
    let mut numbers = vec![in alloc; 0_u64; graph.len() as usize]?;
    for s in 0..graph.len() {
        let node = graph.signal(SignalId::new(s));
        let rate = rates.get(SignalId::new(s));
        hold_if(&mut steps, &mut numbers, s, node, rate)?;
    }
    Ok(HeldValues { steps, numbers })
}
