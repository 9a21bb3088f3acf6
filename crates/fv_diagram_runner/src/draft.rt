// The code of a runner as it grows.

ghost use Rattle.std.specs.Prelude.{◌≡◌, ℕ, ◌+◌, ◌-◌, vec_capacity, vec_len, ◌<◌, ◌≤◌, [], ◌∷◌, ◌++◌, length, replicate, get_or, pos, All, IfOk, OnOk};
ghost use Rattle.fv_num.specs.headline.Frames.{table};
ghost use Rattle.fv_diagram_runner.specs.Steps.{OperandsBelow, ReadsWithin, IsKept, IsBegun, ChangesBelow, AreOrdered};
ghost use Rattle.fv_diagram_runner.specs.inner.Code.{input_code, put, put_control, put_cell, put_back, put_prefix, with_cells, written};
ghost use Rattle.fv_diagram.specs.Hooks.{padded as padded_of};
ghost use Rattle.fv_diagram_runner.specs.inner.Code.{with_list, put_read, put_write, runner_hooks, IsRegister, fed_of};

use crate::history::History;
use crate::step::{Change, Step};
use crate::stepper::Stepper;
use fv_diagram::{Leaf, Signals};
use fv_num::Op;
use std::alloc::{AllocError, Global};
use std::collections::VecDeque;
use std::marker::Model;

/// The cells of a feedback that is open.
#[derive(Clone, Copy)]
pub struct Loop {
    pub first: u64,
    pub count: u64,
}

/// The code of a runner while a walk over the diagram adds to it. Step i gives the number of register i.
#[derive(Drop)]
pub struct Draft {
    // What each register is computed from; a step reads registers of earlier ones alone.
    steps: Vec<Step>,
    // By cell: the register whose number it takes at the end of a frame.
    sources: Vec<u64>,
    // By list: what is done to it at the end of a frame.
    changes: Vec<Change>,
    // By list: its numbers before the first frame.
    lists: Vec<History>,
    // The feedbacks that are open, the innermost one first.
    loops: VecDeque<Loop>,
    // How many controls the steps may read: the first ones.
    controls: u64,
    // How many inputs the diagram has.
    ins: u64,
    // Where the lists take their memory.
    alloc: Global,
}

impl Model for Draft {
    ghost use Rattle.fv_diagram_runner.specs.inner.Code.{Code};

    ghost Value = { Code };

    ghost use Rattle.fv_diagram_runner.specs.inner.Code.{code_of, IsInside};

    ghost view = { code_of };

    ghost invariant = { IsInside };
}

impl Draft {
    /// A step of number 0, and one for each input.
    pub fn new(alloc: Global, ins: u64) -> Result<Draft, AllocError>
        ensures { IfOk result (λ p. p ≡ input_code ins) }
    {
        let mut steps = Vec::new(alloc);
        steps.push(Step::Number(0))?;
        for i in 0..ins {
            steps.push(Step::Input(i))?;
        }
        Ok(Draft {
            steps,
            sources: Vec::new(alloc),
            changes: Vec::new(alloc),
            lists: Vec::new(alloc),
            loops: VecDeque::new(alloc),
            controls: 0,
            ins,
            alloc,
        })
    }

    /// The runner of the steps, whose cells hold 0, and which gives these registers.
    pub fn finish(self, alloc: Global, outs: Vec<u64>) -> Result<Stepper, AllocError>
        requires outs { All (IsRegister self) outs.items }
        ensures runner_state { IfOk result (λ s. s ≡ record {
          steps = self.steps;
          sources = self.sources;
          changes = self.changes;
          outs = outs.items;
          cells = replicate (length self.sources) (pos 0);
          lists = self.lists;
          controls = self.controls;
          ins = self.ins;
        }) }
        ensures ordered { AreOrdered self.steps }
        ensures begun { All (IsBegun self.lists) self.steps }
        ensures listed { length self.lists ≡ length self.changes }
    {
        let Draft {
            steps,
            sources,
            changes,
            lists,
            loops: _,
            controls,
            ins,
            alloc: _,
        } = self;
        let cells = zeros(alloc, sources.len())?;
        let registers = zeros(alloc, steps.len())?;
        Ok(Stepper {
            steps,
            sources,
            changes,
            outs,
            controls,
            ins,
            cells,
            lists,
            registers,
        })
    }

    // Adds a step and returns its register.
    fn put_step(&mut self, step: Step) -> Result<u64, AllocError>
        requires operands { OperandsBelow (length self.old.steps) step }
        requires within { ReadsWithin self.old.controls self.old.ins (length self.old.sources) (length self.old.changes) step }
        requires kept { IsKept self.old.changes step }
        requires begun { IsBegun self.old.lists step }
        ensures { IfOk result (λ r. (r, self.new) ≡ put self.old step) }
    {
        let r = self.steps.len() as u64;
        self.steps.push(step)?;
        Ok(r)
    }

    // Adds a step that reads a control.
    fn put_control(&mut self, k: u32) -> Result<u64, AllocError>
        ensures { IfOk result (λ r. (r, self.new) ≡ put_control self.old k) }
    {
        self.controls = self.controls.max(u64::from(k) + 1);
        self.put_step(Step::Control(k))
    }

    // Adds a cell that takes the register `source`, and a step that reads it.
    fn put_cell(&mut self, source: u64) -> Result<u64, AllocError>
        requires { IsRegister self.old source }
        ensures { IfOk result (λ r. (r, self.new) ≡ put_cell self.old source) }
    {
        let cell = self.sources.len() as u64;
        self.sources.push(source)?;
        self.put_step(Step::Cell(cell))
    }

    // Adds a list of the numbers of register `x`, and a step that looks back in it by register `d`.
    fn put_back(&mut self, x: u64, d: u64) -> Result<u64, AllocError>
        requires x { IsRegister self.old x }
        requires d { IsRegister self.old d }
        ensures { IfOk result (λ r. (r, self.new) ≡ put_back self.old x d) }
    {
        let list = self.lists.len() as u64;
        self.put_list(Change::Append { register: x }, History::new(self.alloc))?;
        self.put_step(Step::Back { x, d, list })
    }

    // Adds a list.
    fn put_list(&mut self, change: Change, list: History) -> Result<(), AllocError>
        requires { ChangesBelow (length self.old.steps) change }
        ensures { OnOk result (self.new ≡ with_list self.old change list.numbers) }
    {
        self.changes.reserve(1)?;
        self.lists.push(list)?;
        put_change(&mut self.changes, change);
        Ok(())
    }

    // Adds a list of these numbers, and a step that reads it at register `r`.
    fn put_read(&mut self, values: &[i32], r: u64) -> Result<u64, AllocError>
        requires r { IsRegister self.old r }
        ensures { IfOk result (λ i. (i, self.new) ≡ put_read self.old values.now r) }
    {
        let list = self.lists.len() as u64;
        let values = History::of(self.alloc, values)?;
        self.put_list(Change::Keep, values)?;
        self.put_step(Step::Read { r, list })
    }

    // Adds a list of these numbers, where register `x` is written at the index of register `w`, and a step that then reads it at
    // the index of register `r`.
    fn put_write(&mut self, values: &[i32], w: u64, x: u64, r: u64) -> Result<u64, AllocError>
        requires some { 1 ≤ length values.now }
        requires w { IsRegister self.old w }
        requires x { IsRegister self.old x }
        requires r { IsRegister self.old r }
        ensures { IfOk result (λ i. (i, self.new) ≡ put_write self.old values.now w x r) }
    {
        let list = self.lists.len() as u64;
        let values = History::of(self.alloc, values)?;
        self.put_list(Change::Put { w, x }, values)?;
        self.put_step(Step::Write { w, x, r, list })
    }

    // Adds the steps for the first sample of register `x`, and then register `y` one sample later.
    fn put_prefix(&mut self, x: u64, y: u64) -> Result<u64, AllocError>
        requires x { IsRegister self.old x }
        requires y { IsRegister self.old y }
        ensures { IfOk result (λ r. (r, self.new) ≡ put_prefix self.old x y) }
    {
        let one = self.put_step(Step::Number(1))?;
        let begun = self.put_cell(one)?;
        let late = self.put_cell(y)?;
        self.put_step(Step::Point {
            op: Op::Select2,
            args: [begun, x, late, late],
        })
    }

    // Adds cells that take register 0 for now, and steps that read them.
    fn put_cells(&mut self, alloc: Global, count: u64) -> Result<Vec<u64>, AllocError>
        ensures { IfOk result (λ v. (v.items ≡ table count (λ i. length self.old.steps + i)) × (self.new ≡ with_cells count self.old)) }
    {
        let _ = &self.steps;
        let mut all = Vec::new(alloc);
        for _ in 0..count {
            let r = self.put_cell(0)?;
            all.push(r)?;
        }
        Ok(all)
    }
}

// Adds a change, for which there is room.
fn put_change(changes: &mut Vec<Change>, change: Change)
    requires { 1 ≤ vec_capacity changes.old - vec_len changes.old }
    ensures { changes.new.items ≡ changes.old.items ++ change ∷ [] }
{
    let _ = changes.push(change);
}

/// The registers of `count` inputs: from 1 on, since register 0 has the number 0.
pub fn input_registers(alloc: Global, count: u64) -> Result<Vec<u64>, AllocError>
    ensures { IfOk result (λ v. v.items ≡ table count (λ i. 1 + i)) }
{
    let mut all = Vec::new(alloc);
    for i in 0..count {
        all.push(1 + i)?;
    }
    Ok(all)
}

// `count` zeros.
fn zeros(alloc: Global, count: usize) -> Result<Vec<i32>, AllocError>
    ensures { IfOk result (λ v. v.items ≡ replicate count (pos 0)) }
{
    let mut v = Vec::new(alloc);
    for _ in 0..count {
        v.push(0)?;
    }
    Ok(v)
}

// Four registers, of which the first stands for those that are missing.
fn padded(ins: &[u64]) -> [u64; 4]
    requires { 1 ≤ length ins.now }
    ensures { result ≡ padded_of ins.now }
{
    let first = ins[0];
    [
        first,
        item_or(ins, 1, first),
        item_or(ins, 2, first),
        item_or(ins, 3, first),
    ]
}

// An item, or the other where there is none.
fn item_or(items: &[u64], i: usize, other: u64) -> u64
    ensures { result ≡ get_or items.now i other }
{
    if i < items.len() { items[i] } else { other }
}

// Writes registers over others, from index `first` on.
fn overlay(to: &mut [u64], first: u64, from: &[u64])
    requires { first + length from.now ≤ length to.old }
    ensures { to.new ≡ written first from.now to.old }
{
    for i in 0..from.len() {
        to[first as usize + i] = from[i];
    }
}

impl Signals for Draft {
    type Wire = u64;

    ghost hooks = { runner_hooks };

    ghost is_wire = { IsRegister };

    ghost fed = { fed_of };

    fn leaf(&mut self, leaf: Leaf, ins: &[u64]) -> Result<u64, AllocError> {
        match leaf {
            Leaf::Number(n) => self.put_step(Step::Number(n)),
            Leaf::Control(k) => self.put_control(k),
            Leaf::Mem => self.put_cell(ins[0]),
            Leaf::Prefix => self.put_prefix(ins[0], ins[1]),
            Leaf::Delay => self.put_back(ins[0], ins[1]),
            Leaf::Point(op) => self.put_step(Step::Point {
                op,
                args: padded(ins),
            }),
        }
    }

    fn count(&mut self, alloc: Global, count: u64) -> Result<u64, AllocError> {
        let many = self.leaf(Leaf::Number(count as i32), &[])?;
        let late = self.open(alloc, 1)?;
        let index = late[0];
        let one = self.leaf(Leaf::Number(1), &[])?;
        let more = self.leaf(Leaf::Point(Op::Add), &[index, one])?;
        let next = self.leaf(Leaf::Point(Op::Rem), &[more, many])?;
        let _ = self.close(alloc, &[next])?;
        Ok(index)
    }

    fn table(
        &mut self,
        _alloc: Global,
        writes: bool,
        values: &[i32],
        ins: &[u64],
    ) -> Result<u64, AllocError> {
        if writes {
            self.put_write(values, ins[0], ins[1], ins[2])
        } else {
            self.put_read(values, ins[0])
        }
    }

    fn open(&mut self, alloc: Global, count: u64) -> Result<Vec<u64>, AllocError> {
        let first = self.sources.len() as u64;
        let late = self.put_cells(alloc, count)?;
        self.loops.push_front(Loop { first, count })?;
        Ok(late)
    }

    fn close(&mut self, alloc: Global, outs: &[u64]) -> Result<Vec<u64>, AllocError> {
        if let Some(l) = self.loops.pop_front() {
            overlay(&mut self.sources, l.first, &outs[..l.count as usize]);
        }
        outs.iter().copied().collect(alloc)
    }
}
