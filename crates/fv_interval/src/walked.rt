// What a walk over a diagram makes of spans.

ghost use Rattle.std.specs.Prelude.{◌≡◌, ◌≤◌, ℕ, [], ◌∷◌, ◌++◌, length, IfOk, OnOk};
ghost use Rattle.fv_diagram.specs.headline.Diagram.{table_inputs};
ghost use Rattle.fv_num.specs.headline.Frames.{table};
ghost use Rattle.fv_num.specs.headline.Interval.{full};
ghost use Rattle.fv_interval.specs.headline.WireSpans.{hull_of, table_span};
ghost use Rattle.fv_interval.specs.headline.SpanHooks.{control_span};
ghost use Rattle.fv_interval.specs.inner.SpanHooks.{span_hooks, IsSpanned, fed_of, note, noted_ones};

use fv_diagram::{Leaf, Signals};
use fv_num::{Span, span_of};
use std::alloc::{AllocError, Global};
use std::collections::VecDeque;
use std::marker::Model;

/// What a walk found so far: the spans of the controls, and those of the delays in the order of the walk. It also has how many
/// wires each open feedback feeds back, the innermost one first.
#[derive(Drop)]
pub struct Walked {
    controls: Vec<Span>,
    delays: Vec<Span>,
    fed: VecDeque<u64>,
}

impl Model for Walked {
    ghost use Rattle.fv_interval.specs.inner.SpanHooks.{Noted};
    ghost use Rattle.fv_interval.specs.inner.Inside.{noted_of};

    ghost Value = { Noted };

    ghost view = { noted_of };
}

impl Walked {
    /// No delays so far.
    pub fn new(alloc: Global, controls: &[Span]) -> Result<Walked, AllocError>
        ensures { IfOk result (λ w. w ≡ record { controls = controls.now; delays = []; fed = [] }) }
    {
        let controls = controls.iter().copied().collect(alloc)?;
        Ok(Walked {
            controls,
            delays: Vec::new(alloc),
            fed: VecDeque::new(alloc),
        })
    }

    /// The spans of the delays.
    pub fn delays(&self) -> &[Span]
        ensures { result.now ≡ self.now.delays }
    {
        &self.delays
    }

    // Notes a delay.
    fn note(&mut self, delay: Span) -> Result<(), AllocError>
        ensures { OnOk result (self.new ≡ note self.old delay) }
    {
        self.delays.push(delay)?;
        Ok(())
    }

    // The span of a control.
    fn control(&self, k: u32) -> Span
        ensures { result ≡ control_span self.now.controls k }
    {
        if (k as usize) < self.controls.len() {
            self.controls[k as usize]
        } else {
            Span::full()
        }
    }

    // Notes `count` delays by one frame.
    fn note_ones(&mut self, count: u64) -> Result<(), AllocError>
        ensures { OnOk result (self.new ≡ noted_ones self.old count) }
    {
        for _ in 0..count {
            self.note(Span::point(1))?;
        }
        Ok(())
    }
}

/// `count` full spans.
pub fn full_spans(alloc: Global, count: u64) -> Result<Vec<Span>, AllocError>
    ensures { IfOk result (λ v. v.items ≡ table count (λ i. full)) }
{
    let mut all = Vec::new(alloc);
    for _ in 0..count {
        all.push(Span::full())?;
    }
    Ok(all)
}

// The least span that holds all numbers of a list.
fn hull(values: &[i32]) -> Span
    requires { 1 ≤ length values.now }
    ensures { result ≡ hull_of values.now }
{
    let mut hull = Span::point(values[0]);
    for i in 1..values.len() {
        hull = hull.hull(Span::point(values[i]));
    }
    hull
}

impl Signals for Walked {
    type Wire = Span;

    ghost hooks = { span_hooks };

    ghost is_wire = { IsSpanned };

    ghost fed = { fed_of };

    fn leaf(&mut self, leaf: Leaf, ins: &[Span]) -> Result<Span, AllocError> {
        match leaf {
            Leaf::Number(n) => Ok(Span::point(n)),
            Leaf::Control(k) => Ok(self.control(k)),
            Leaf::Mem => {
                self.note(Span::point(1))?;
                Ok(ins[0].hull(Span::point(0)))
            }
            Leaf::Prefix => {
                self.note(Span::point(1))?;
                Ok(ins[0].hull(ins[1]))
            }
            Leaf::Delay => {
                self.note(ins[1])?;
                Ok(ins[0].hull(Span::point(0)))
            }
            Leaf::Point(op) => Ok(span_of(op, ins)),
        }
    }

    fn count(&mut self, _alloc: Global, _count: u64) -> Result<Span, AllocError> {
        Ok(Span::full())
    }

    fn table(
        &mut self,
        _alloc: Global,
        writes: bool,
        values: &[i32],
        ins: &[Span],
    ) -> Result<Span, AllocError> {
        let own = hull(values);
        if writes {
            Ok(own.hull(ins[1]))
        } else {
            Ok(own)
        }
    }

    fn open(&mut self, alloc: Global, count: u64) -> Result<Vec<Span>, AllocError> {
        self.note_ones(count)?;
        self.fed.push_front(count)?;
        full_spans(alloc, count)
    }

    fn close(&mut self, alloc: Global, outs: &[Span]) -> Result<Vec<Span>, AllocError> {
        let _ = self.fed.pop_front();
        outs.iter().copied().collect(alloc)
    }
}
