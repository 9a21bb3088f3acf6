// The steps for the operands of a signal.

ghost use Rattle.std.specs.Prelude.{◌≡◌, ◌<◌, ◌≤◌, ◌++◌, [], ◌∷◌, ◌+◌, length, IfOk, All, pos};
ghost use Rattle.fv_loopcode.specs.declared.step.Step.TheVariants as step;
ghost use Rattle.fv_split_code.specs.Emits.{MeansNow, MeanNow, AreFound, IsKindWithin, owned_by};

use crate::kind::Kind;
use fv_loopcode::Step;
use std::alloc::AllocError;

// Adds a step and returns its register.
pub(crate) fn push(code: &mut Vec<Step>, step: Step) -> Result<u64, AllocError>
    ensures { IfOk result (λ w. (w ≡ length code.old.items) × (code.new.items ≡ code.old.items ++ step ∷ [])) }
{
    let register = code.len() as u64;
    code.push(step)?;
    Ok(register)
}

// Adds the load of a lane of another loop, as it is now.
fn lane_now(code: &mut Vec<Step>, lane: u64) -> Result<u64, AllocError>
    ensures { IfOk result (λ w. (w ≡ length code.old.items + 1)
        × (code.new.items ≡ (code.old.items ++ step.Number (pos 0) ∷ []) ++ step.Load lane (length code.old.items) 0 ∷ [])) }
{
    let back = push(code, Step::Number(0))?;
    push(code, Step::Load { lane, back, max: 0 })
}

// Adds the load of a lane, one sample ago.
fn lane_ago(code: &mut Vec<Step>, lane: u64) -> Result<u64, AllocError>
    ensures { IfOk result (λ w. (w ≡ length code.old.items + 1)
        × (code.new.items ≡ (code.old.items ++ step.Number (pos 1) ∷ []) ++ step.Load lane (length code.old.items) 1 ∷ [])) }
{
    let back = push(code, Step::Number(1))?;
    push(code, Step::Load { lane, back, max: 1 })
}

// Returns the register of an operand; adds its steps where it has none.
pub(crate) fn operand(
    code: &mut Vec<Step>,
    kind: Kind,
    registers: &[u64],
    owners: &[u64],
    own: u64,
    signal: u64,
) -> Result<u64, AllocError>
    requires signal { signal < length registers.now }
    requires lanes { IsKindWithin (length owners.now) kind }
    ensures { IfOk result (λ w. MeansNow registers.now code.old.items code.new.items signal w kind (owned_by owners.now own)) }
{
    match kind {
        Kind::Number(n) => push(code, Step::Number(n)),
        Kind::Held(k) => push(code, Step::Held(k)),
        Kind::Lane(lane) => {
            if owners[lane as usize] == own {
                Ok(registers[signal as usize])
            } else {
                lane_now(code, lane)
            }
        }
        Kind::Input(i) => push(code, Step::Input(i)),
        Kind::Back(lane) => lane_ago(code, lane),
        Kind::Inner => Ok(registers[signal as usize]),
    }
}

// Returns the registers of up to four operands; adds their steps where they have none.
pub(crate) fn operands(
    code: &mut Vec<Step>,
    kinds: &[Kind],
    registers: &[u64],
    owners: &[u64],
    own: u64,
    signals: &[u64],
) -> Result<[u64; 4], AllocError>
    requires few { length signals.now ≤ 4 }
    requires kinds { length kinds.now ≡ length registers.now }
    requires signals { All (λ s. s < length registers.now) signals.now }
    requires lanes { All (λ k. IsKindWithin (length owners.now) k) kinds.now }
    ensures { IfOk result (λ found. AreFound found (length signals.now)
        × MeanNow kinds.now registers.now code.old.items code.new.items signals.now found (length signals.now) (owned_by owners.now own)) }
{
    let mut found = [0_u64; 4];
    for k in 0..signals.len() {
        let signal = signals[k];
        let register = operand(code, kinds[signal as usize], registers, owners, own, signal)?;
        found[k] = register;
    }
    Ok(found)
}
