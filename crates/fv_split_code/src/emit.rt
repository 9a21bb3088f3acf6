// The code of the loops, signal by signal.

ghost use Rattle.std.specs.Prelude.{◌≡◌, [], ◌++◌, ◌∷◌, ℕ, suc, ◌<◌, ◌≤◌, length, take, map, All, IfOk, OnOk};
ghost use Rattle.fv_split_plan.specs.Reach.{at};
ghost use Rattle.fv_signal.specs.declared.signal.Signal.{Signal};
ghost use Rattle.fv_signal.specs.declared.signal.Signal.TheVariants as signal;
ghost use Rattle.fv_split_plan.specs.inner.Separated.{OperandsWithin};
ghost use Rattle.fv_split_code.specs.Emitted.{IsSurvey, StoodNow, ComputesNow, ComputesAt, OwnNow, AddsNow, AreCodes, write_of, with_append, code_in};

use crate::kind::Kind;
use crate::operand::{operand, operands, push};
use crate::survey::Survey;
use fv_loopcode::Step;
use fv_num::Op;
use fv_signal::{Graph, Signal, SignalId};
use std::alloc::{AllocError, Global};

// What four signals stand for.
fn stood(stands: &[SignalId], args: [SignalId; 4]) -> [u64; 4]
    requires { All (λ a. a < length stands.now) args }
    ensures value { result ≡ map (at stands.now) args }
    ensures four { length args ≡ 4 }
{
    [
        stands[args[0].number() as usize].number(),
        stands[args[1].number() as usize].number(),
        stands[args[2].number() as usize].number(),
        stands[args[3].number() as usize].number(),
    ]
}

// What three signals stand for.
fn stood_three(stands: &[SignalId], args: [SignalId; 3]) -> [u64; 3]
    requires { All (λ a. a < length stands.now) args }
    ensures value { result ≡ map (at stands.now) args }
    ensures three { length args ≡ 3 }
{
    [
        stands[args[0].number() as usize].number(),
        stands[args[1].number() as usize].number(),
        stands[args[2].number() as usize].number(),
    ]
}

// What a signal stands for.
fn stand(stands: &[SignalId], x: SignalId) -> u64
    requires { x < length stands.now }
    ensures { result ≡ at stands.now x }
{
    stands[x.number() as usize].number()
}

/// What the code of one loop is made from.
#[derive(Clone, Copy)]
struct Emitter<'a> {
    /// What is known of the signals of the graph, and of its lanes and cells.
    survey: &'a Survey,
    /// The register of each signal that has a step in its loop's code so far, by the signal's number.
    registers: &'a [u64],
    /// The number of the loop.
    own: u64,
}

impl Emitter<'_> {
    // The register of what a signal stands for.
    fn operand_of(&self, code: &mut Vec<Step>, x: SignalId) -> Result<u64, AllocError>
        requires survey { IsSurvey (length self.now.registers.now) self.now.survey.now }
        requires x { x < length self.now.registers.now }
        ensures { IfOk result (λ w. StoodNow self.now.survey.now self.now.registers.now self.now.own code.old.items code.new.items x w) }
    {
        let s = stand(&self.survey.stands, x);
        operand(
            code,
            self.survey.kinds[s as usize],
            self.registers,
            &self.survey.owners,
            self.own,
            s,
        )
    }

    // Adds the step of an operation.
    fn point(&self, code: &mut Vec<Step>, op: Op, args: [SignalId; 4]) -> Result<u64, AllocError>
        requires survey { IsSurvey (length self.now.registers.now) self.now.survey.now }
        requires args { All (λ a. a < length self.now.registers.now) args }
        ensures { IfOk result (λ w.
            ComputesNow self.now.survey.now self.now.registers.now self.now.own code.old.items code.new.items (signal.Point op args) w) }
    {
        let signals = stood(&self.survey.stands, args);
        let n = op.inputs() as usize;
        let found = operands(
            code,
            &self.survey.kinds,
            self.registers,
            &self.survey.owners,
            self.own,
            &signals[..n],
        )?;
        push(code, Step::Point { op, args: found })
    }

    // Adds the steps of a delay that never goes back.
    fn still(&self, code: &mut Vec<Step>, x: SignalId, d: SignalId) -> Result<u64, AllocError>
        requires survey { IsSurvey (length self.now.registers.now) self.now.survey.now }
        requires x { x < length self.now.registers.now }
        ensures { IfOk result (λ w. ComputesNow self.now.survey.now self.now.registers.now self.now.own code.old.items code.new.items (signal.Delay x d 0) w) }
    {
        let w = self.operand_of(code, x)?;
        push(
            code,
            Step::Point {
                op: Op::Max,
                args: [w, w, w, w],
            },
        )
    }

    // Adds the steps of a delay that may go back.
    fn delayed(
        &self,
        code: &mut Vec<Step>,
        x: SignalId,
        d: SignalId,
        max: u32,
    ) -> Result<u64, AllocError>
        requires survey { IsSurvey (length self.now.registers.now) self.now.survey.now }
        requires x { x < length self.now.registers.now }
        requires d { d < length self.now.registers.now }
        requires max { 1 ≤ max }
        ensures { IfOk result (λ w.
            ComputesNow self.now.survey.now self.now.registers.now self.now.own code.old.items code.new.items (signal.Delay x d max) w) }
    {
        let back = self.operand_of(code, d)?;
        let source = stand(&self.survey.stands, x);
        let lane = self.survey.lanes[source as usize].unwrap_or(0);
        push(
            code,
            Step::Load {
                lane,
                back,
                max: max as u64,
            },
        )
    }

    // Adds the step of an item of a table.
    fn read(&self, code: &mut Vec<Step>, table: u64, r: SignalId) -> Result<u64, AllocError>
        requires survey { IsSurvey (length self.now.registers.now) self.now.survey.now }
        requires r { r < length self.now.registers.now }
        ensures { IfOk result (λ w. ComputesNow self.now.survey.now self.now.registers.now self.now.own code.old.items code.new.items (signal.Read table r) w) }
    {
        let arg = self.operand_of(code, r)?;
        push(code, Step::Read { table, arg })
    }

    // Adds the step of a table that is written and then read, which is signal s. Its operands are where and what is written, and
    // where it is read.
    fn written(
        &self,
        code: &mut Vec<Step>,
        s: u64,
        table: u64,
        args: [SignalId; 3],
    ) -> Result<u64, AllocError>
        requires survey { IsSurvey (length self.now.registers.now) self.now.survey.now }
        requires signal { s < length self.now.registers.now }
        requires args { All (λ a. a < length self.now.registers.now) args }
        ensures { IfOk result (λ w.
            ComputesAt self.now.survey.now self.now.registers.now self.now.own s code.old.items code.new.items (write_of table args) w) }
    {
        let signals = stood_three(&self.survey.stands, args);
        let found = operands(
            code,
            &self.survey.kinds,
            self.registers,
            &self.survey.owners,
            self.own,
            &signals,
        )?;
        let cells = self.survey.cells[s as usize].unwrap_or(0);
        push(
            code,
            Step::Write {
                cells,
                args: [found[0], found[1], found[2]],
            },
        )
    }

    // Adds the steps of an operation, a delay or a table.
    fn computed(&self, code: &mut Vec<Step>, s: u64, node: Signal) -> Result<u64, AllocError>
        requires survey { IsSurvey (length self.now.registers.now) self.now.survey.now }
        requires operands { OperandsWithin (length self.now.registers.now) node }
        requires signal { s < length self.now.registers.now }
        ensures { IfOk result (λ w. ComputesAt self.now.survey.now self.now.registers.now self.now.own s code.old.items code.new.items node w) }
    {
        match node {
            Signal::Point { op, args } => self.point(code, op, args),
            Signal::Delay { x, d, max } => {
                if max == 0 {
                    self.still(code, x, d)
                } else {
                    self.delayed(code, x, d, max)
                }
            }
            Signal::Input(_) => Ok(0),
            Signal::Const(_) => Ok(0),
            Signal::Control(_) => Ok(0),
            Signal::Back { group: _, i: _ } => Ok(0),
            Signal::Member { group: _, i: _ } => Ok(0),
            Signal::Read { table, r } => self.read(code, table, r),
            Signal::Write { table, w, x, r } => { self.written(code, s, table, [w, x, r]) }
        }
    }

    // Adds a signal's own step.
    fn own_step(&self, code: &mut Vec<Step>, s: u64, node: Signal) -> Result<u64, AllocError>
        requires survey { IsSurvey (length self.now.registers.now) self.now.survey.now }
        requires operands { OperandsWithin (length self.now.registers.now) node }
        requires signal { s < length self.now.registers.now }
        ensures { IfOk result (λ w. OwnNow self.now.survey.now self.now.registers.now self.now.own s code.old.items code.new.items node w) }
    {
        let base = self.survey.bases[s as usize];
        match base {
            Kind::Inner => self.computed(code, s, node),
            _ => operand(code, base, self.registers, &self.survey.owners, self.own, s),
        }
    }
}

// Appends to a signal's lane, where it has one.
fn append(code: &mut Vec<Step>, lane: Option<u64>, register: u64) -> Result<(), AllocError>
    ensures { OnOk result (code.new.items ≡ with_append code.old.items lane register) }
{
    match lane {
        Some(lane) => {
            push(
                code,
                Step::Append {
                    lane,
                    value: register,
                },
            )?;
            Ok(())
        }
        None => Ok(()),
    }
}

// Adds the steps of one signal more.
fn add(
    code: &mut Vec<Step>,
    registers: &mut Vec<u64>,
    survey: &Survey,
    own: u64,
    s: u64,
    node: Signal,
) -> Result<(), AllocError>
    requires survey { IsSurvey (length registers.old.items) survey.now }
    requires operands { OperandsWithin (length registers.old.items) node }
    requires signal { s < length registers.old.items }
    ensures { OnOk result (AddsNow survey.now own s node registers.old.items code.old.items registers.new.items code.new.items) }
{
    let emitter = Emitter {
        survey,
        registers,
        own,
    };
    let register = emitter.own_step(code, s, node)?;
    registers[s as usize] = register;
    append(code, survey.lanes[s as usize], register)
}

// How many steps the code of a loop has room for before it grows. Few loops have more.
const STEPS_AT_FIRST: usize = 16;

// No code for each loop.
fn no_codes(alloc: Global, loops: u64) -> Result<Vec<Vec<Step>>, AllocError>
    ensures { IfOk result (λ codes. (length codes.items ≡ loops) × ((j : ℕ) → code_in codes.items j ≡ [])) }
{
    let mut codes = Vec::with_capacity(alloc, loops as usize)?;
    for _ in 0..loops {
        codes.push(Vec::with_capacity(alloc, STEPS_AT_FIRST)?)?;
    }
    Ok(codes)
}

/// The code of each loop, whose signals are computed in their order.
pub fn codes(
    alloc: Global,
    graph: &Graph,
    survey: &Survey,
    loops: u64,
) -> Result<Vec<Vec<Step>>, AllocError>
    requires { IsSurvey (length graph.now.signals) survey.now }
    ensures { IfOk result (λ codes. AreCodes graph.now survey.now loops codes.items) }
{
    let mut codes = no_codes(alloc, loops)?;
    let mut registers = vec![in alloc; 0_u64; graph.len() as usize]?;
    for s in 0..graph.len() {
        let own = survey.homes[s as usize];
        if own < loops {
            let node = graph.signal(SignalId::new(s));
            add(
                &mut codes[own as usize],
                &mut registers,
                survey,
                own,
                s,
                node,
            )?;
        }
    }
    Ok(codes)
}
