// The delays of a diagram, in the order of the walk.

ghost use Rattle.std.specs.Prelude.{◌≡◌, ◌<◌, ◌≤◌, ℕ, length, IfOk, IfErr, OnOk, sum, slice_index, ◌==◌};
ghost use Rattle.fv_num.specs.headline.Interval.{Interval};
ghost use Rattle.fv_diagram.specs.headline.Diagram.{inputs};
ghost use Rattle.fv_diagram.specs.Diagram.{control_bound, IsWellFormed, HasNoFreeSlot};
ghost use Rattle.fv_diagram.specs.Arena.{count_of, tree_of};
ghost use Rattle.fv_interval.specs.headline.Delays.{delays_of, amounts, amount};
ghost use Rattle.fv_interval.specs.Delays.{IsDelay, AreDelays, AreAccepted, IsSpanRefused, IsDelayRefusal};
ghost use Rattle.fv_interval.specs.inner.Delays.{IsRefused};
ghost use Rattle.fv_interval.specs.inner.Delays.{most_delays};
ghost use Rattle.fv_interval.specs.Laws.{AnswersHold, AllDelaysHold};
ghost use Rattle.fv_base.specs.declared.limits.TheConstants.{DELAY_LIMIT};

use crate::refusal::DelayRefusal;
use crate::walked::{Walked, full_spans};
use fv_base::limits::{DELAY_BUDGET, DELAY_LIMIT};
use fv_diagram::{DiagramId, Diagrams, walk};
use fv_num::Span;
use std::alloc::Global;
use std::marker::Model;

/// The delays of a diagram, each the greatest number of frames that it may go back.
#[derive(Debug, Drop)]
pub struct Delays {
    delays: Vec<u32>,
    total: u64,
}

impl Model for Delays {
    ghost use Rattle.std.specs.Prelude.{◌≡◌, List, ℕ, sum};

    ghost Value = { List ℕ };

    ghost view = { λ d. d.delays.items };

    ghost invariant = { λ d. d.total ≡ sum d.delays.items };
}

impl Delays {
    /// Delay number i.
    pub fn get(&self, i: u64) -> u32
        requires { i < length self.now }
        ensures { result ≡ slice_index self.now i }
    {
        self.delays[i as usize]
    }

    /// How many there are.
    pub fn len(&self) -> u64
        ensures { result ≡ length self.now }
    {
        self.delays.len() as u64
    }

    /// Whether there are none.
    pub fn is_empty(&self) -> bool
        ensures { result ≡ (length self.now == 0) }
    {
        self.delays.is_empty()
    }

    /// Their sum.
    pub fn sum(&self) -> u64
        ensures { result ≡ sum self.now }
    {
        self.total
    }
}

/// The delays of a diagram, in the order of the walk, where its inputs may have all numbers and its controls those of
/// their spans.
pub fn spans(
    alloc: Global,
    diagrams: &Diagrams,
    root: DiagramId,
    controls: &[Span],
) -> Result<Delays, DelayRefusal>
    requires root { root < count_of diagrams.now }
    requires well { IsWellFormed (tree_of diagrams.now root) }
    requires closed { HasNoFreeSlot (tree_of diagrams.now root) }
    requires controls { control_bound (tree_of diagrams.now root) ≤ length controls.now }
    // The delays are those of the diagram, none is refused, and their sum is within the limit.
    ensures ok { IfOk result (AreAccepted (delays_of (tree_of diagrams.now root) controls.now)) }
    // The first delay of the walk that is refused is answered, or else the sum.
    ensures refused { IfErr result (IsDelayRefusal (delays_of (tree_of diagrams.now root) controls.now)) }
    // Where inputs, controls and slots lie in their spans, so do the outputs, and the second input of every `@`.
    ensures answers { OnOk result (AnswersHold (tree_of diagrams.now root)) }
    ensures delays { OnOk result (AllDelaysHold (tree_of diagrams.now root)) }
{
    // For the prover: the diagram's size bounds the number of its delays, so their sum is no number too great.
    let _ = diagrams.size(root);
    let ins = full_spans(alloc, u64::from(diagrams.arity(root).inputs))?;
    let mut walked = Walked::new(alloc, controls)?;
    let _ = walk(&mut walked, alloc, diagrams, root, ins, Span::full())?;
    accepted(alloc, walked.delays())
}

// The greatest numbers of the spans, where none is refused and their sum is within the limit.
fn accepted(alloc: Global, spans: &[Span]) -> Result<Delays, DelayRefusal>
    requires { length spans.now ≤ most_delays }
    ensures ok { IfOk result (AreAccepted spans.now) }
    ensures refused { IfErr result (IsDelayRefusal spans.now) }
{
    let delays = listed(alloc, spans)?;
    if delays.sum() > DELAY_BUDGET {
        return Err(DelayRefusal::DelayBudget { sum: delays.sum() });
    }
    Ok(delays)
}

// The greatest numbers of the spans, where none is refused.
fn listed(alloc: Global, spans: &[Span]) -> Result<Delays, DelayRefusal>
    requires { length spans.now ≤ most_delays }
    ensures ok { IfOk result (λ d. AreDelays spans.now × (d ≡ amounts spans.now)) }
    ensures refused { IfErr result (IsRefused spans.now) }
{
    let mut delays = Vec::new(alloc);
    let mut total = 0;
    for i in 0..spans.len() {
        let delay = delay_of(spans[i])?;
        delays.push(delay)?;
        total += u64::from(delay);
    }
    Ok(Delays { delays, total })
}

// The greatest number of a span, where it is no refused delay.
fn delay_of(span: Span) -> Result<u32, DelayRefusal>
    ensures ok { IfOk result (λ n. IsDelay span × (n ≡ amount span) × (n ≤ DELAY_LIMIT)) }
    ensures refused { IfErr result (IsSpanRefused span) }
{
    if span.lo < 0 {
        return Err(DelayRefusal::DelayNegative { least: span.lo });
    }
    if span.hi > DELAY_LIMIT as i32 {
        return Err(DelayRefusal::DelayTooLong { greatest: span.hi });
    }
    Ok(span.hi as u32)
}
