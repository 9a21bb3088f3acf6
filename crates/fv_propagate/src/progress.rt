// A graph that grows along a walk.

ghost use Rattle.std.specs.Prelude.{◌≡◌, ℕ, ◌<◌, ◌≤◌, List, [], ◌∷◌, length, get_or, drop, All, IfOk, OnOk, FitsSigned, pos};
ghost use Rattle.std.specs.Int.{w32};
ghost use Rattle.fv_signal.specs.declared.signal.Signal.TheVariants.{Input, Back, Member, Point};
ghost use Rattle.fv_signal.specs.headline.Value.{IsGraph};
ghost use Rattle.fv_diagram.specs.headline.Diagram.{table_inputs};
ghost use Rattle.fv_diagram.specs.Diagram.{AreNumbers};
ghost use Rattle.fv_share.specs.Drafts.{CanPut, IsPending, IsShut, BacksWithin, AreClosed, AreDistinct, width_of, graph_of, table_in};
ghost use Rattle.fv_diagram.specs.Hooks.{padded as padded_of};
ghost use Rattle.fv_propagate.specs.inner.Progress.{started, put, puts, put_mem, put_prefix, signal_hooks, IsThere, IsAdmitted};
ghost use Rattle.fv_propagate.specs.inner.Progress.{AreNested, fed_of, put_delay, leaf_of, passed, grouped, opened_of, closed_of};
ghost use Rattle.fv_propagate.specs.inner.Progress.{put_next, given, counted_of, listed, table_node, tabled_of};
ghost use Rattle.fv_diagram.specs.Hooks.{takes};

use fv_diagram::{Leaf, Signals};
use fv_interval::Delays;
use fv_num::Op;
use fv_share::Builder;
use fv_signal::{Graph, Signal, SignalId};
use std::alloc::{AllocError, Global};
use std::collections::VecDeque;
use std::marker::Model;

/// A feedback that is open: its group, and how many wires it feeds back.
#[derive(Clone, Copy)]
pub struct Feedback {
    pub group: u64,
    pub count: u64,
}

/// What a walk made so far: a graph, and the feedbacks that are open, the innermost one first. It also has the greatest number of
/// samples of each delay that is still to come, in the order of the walk.
#[derive(Drop)]
pub struct Progress {
    builder: Builder,
    delays: VecDeque<u32>,
    feedbacks: VecDeque<Feedback>,
}

impl Model for Progress {
    ghost use Rattle.fv_propagate.specs.inner.Progress.{Progress as Growing, IsProgress};
    ghost use Rattle.fv_propagate.specs.inner.Inside.{progress_of};

    ghost Value = { Growing };

    ghost view = { progress_of };

    ghost invariant = { λ a. IsProgress (progress_of a) };
}

impl Progress {
    /// The number 0 alone, with all delays to come.
    pub fn new(alloc: Global, delays: &Delays) -> Result<Progress, AllocError>
        ensures { IfOk result (λ p. p ≡ started delays.now) }
    {
        let mut builder = Builder::new(alloc);
        let _ = builder.node(Signal::Const(0))?;
        let mut all = VecDeque::new(alloc);
        for i in 0..delays.len() {
            all.push_back(delays.get(i))?;
        }
        Ok(Progress {
            builder,
            delays: all,
            feedbacks: VecDeque::new(alloc),
        })
    }

    /// Puts `count` inputs and returns their signals.
    pub fn inputs(&mut self, alloc: Global, count: u64) -> Result<Vec<SignalId>, AllocError>
        ensures { IfOk result (λ v. (v.items, self.new) ≡ puts Input count self.old) }
    {
        let mut all = Vec::new(alloc);
        for i in 0..count {
            let id = self.put(Signal::Input(i))?;
            all.push(id)?;
        }
        Ok(all)
    }

    /// The graph, with these outputs.
    pub fn finish(self, outs: &[SignalId]) -> Result<Graph, AllocError>
        requires closed { AreClosed self.draft }
        requires outs { All (IsThere self) outs.now }
        ensures graph { IfOk result (λ g. g ≡ graph_of self.draft outs.now) }
        ensures whole { OnOk result (IsGraph (graph_of self.draft outs.now)) }
        ensures shared { OnOk result (AreDistinct self.draft.signals) }
    {
        self.builder.finish(outs)
    }

    // Puts a signal.
    fn put(&mut self, signal: Signal) -> Result<SignalId, AllocError>
        requires can { CanPut self.old.draft signal }
        requires admitted { IsAdmitted self.old.feedbacks signal }
        ensures { IfOk result (λ id. (id, self.new) ≡ put self.old signal) }
    {
        let id = self.builder.node(signal)?;
        Ok(id)
    }

    // Takes the greatest number of samples of the next delay. There is one for each call, in the order of the calls, where the walk
    // over the spans noted them; else it is 0.
    fn next_delay(&mut self) -> u32
        ensures delay { result ≡ get_or self.old.delays 0 0 }
        ensures rest { self.new ≡ record self.old { delays = drop 1 self.old.delays } }
    {
        self.delays.pop_front().unwrap_or(0)
    }

    // Puts x one sample later.
    fn put_mem(&mut self, x: SignalId) -> Result<SignalId, AllocError>
        requires { IsThere self.old x }
        ensures { IfOk result (λ id. (id, self.new) ≡ put_mem self.old x) }
    {
        let d = self.put(Signal::Const(1))?;
        let id = self.put(Signal::Delay { x, d, max: 1 })?;
        Ok(id)
    }

    // Puts the first sample of x, and then y one sample later.
    fn put_prefix(&mut self, x: SignalId, y: SignalId) -> Result<SignalId, AllocError>
        requires x { IsThere self.old x }
        requires y { IsThere self.old y }
        ensures { IfOk result (λ id. (id, self.new) ≡ put_prefix self.old x y) }
    {
        let one = self.put(Signal::Const(1))?;
        let begun = self.put_mem(one)?;
        let late = self.put_mem(y)?;
        let id = self.put(Signal::Point {
            op: Op::Select2,
            args: [begun, x, late, begun],
        })?;
        Ok(id)
    }

    // Puts as many Backs of an open group.
    fn put_backs(
        &mut self,
        alloc: Global,
        group: u64,
        count: u64,
    ) -> Result<Vec<SignalId>, AllocError>
        requires pending { IsPending self.old.draft group }
        requires inner { AreNested group self.old.feedbacks }
        requires backs { BacksWithin self.old.draft group count }
        ensures done { IfOk result (λ v. (v.items, self.new) ≡ puts (Back group) count self.old) }
        ensures pending { OnOk result (IsPending self.new.draft group) }
        ensures backs { OnOk result (BacksWithin self.new.draft group count) }
    {
        let mut all = Vec::new(alloc);
        for i in 0..count {
            let id = self.put(Signal::Back { group, i })?;
            all.push(id)?;
        }
        Ok(all)
    }

    // Puts all Members of a group.
    fn put_members(
        &mut self,
        alloc: Global,
        group: u64,
        count: u64,
    ) -> Result<Vec<SignalId>, AllocError>
        requires shut { IsShut self.old.draft group }
        requires width { width_of self.old.draft group ≡ count }
        ensures { IfOk result (λ v. (v.items, self.new) ≡ puts (Member group) count self.old) }
    {
        let mut all = Vec::new(alloc);
        for i in 0..count {
            let id = self.put(Signal::Member { group, i })?;
            all.push(id)?;
        }
        Ok(all)
    }

    // Puts x as many samples earlier as d says.
    fn put_delay(&mut self, x: SignalId, d: SignalId) -> Result<SignalId, AllocError>
        requires x { IsThere self.old x }
        requires d { IsThere self.old d }
        ensures { IfOk result (λ id. (id, self.new) ≡ put_delay self.old x d) }
    {
        let max = self.next_delay();
        let id = self.put(Signal::Delay { x, d, max })?;
        Ok(id)
    }

    // Puts what a leaf adds.
    fn put_leaf(&mut self, leaf: Leaf, ins: &[SignalId]) -> Result<SignalId, AllocError>
        requires width { length ins.now ≡ takes leaf }
        requires wires { All (IsThere self.old) ins.now }
        ensures { IfOk result (λ id. (id, self.new) ≡ leaf_of leaf ins.now self.old) }
    {
        match leaf {
            Leaf::Number(n) => self.put(Signal::Const(n)),
            Leaf::Control(k) => self.put(Signal::Control(k)),
            Leaf::Mem => {
                let _ = self.next_delay();
                self.put_mem(ins[0])
            }
            Leaf::Prefix => {
                let _ = self.next_delay();
                self.put_prefix(ins[0], ins[1])
            }
            Leaf::Delay => self.put_delay(ins[0], ins[1]),
            Leaf::Point(op) => self.put(Signal::Point {
                op,
                args: padded(ins),
            }),
        }
    }

    // Takes the next `count` delays, and forgets them.
    fn pass(&mut self, count: u64)
        ensures { self.new ≡ passed count self.old }
    {
        for _ in 0..count {
            let _ = self.next_delay();
        }
    }

    // Makes a group, of which there is no Back yet.
    fn group(&mut self) -> Result<u64, AllocError>
        ensures number { IfOk result (λ g. g ≡ length self.old.draft.groups) }
        ensures grouped { OnOk result (self.new ≡ grouped self.old) }
        ensures pending { IfOk result (λ g. IsPending self.new.draft g) }
        ensures fresh { IfOk result (λ g. BacksWithin self.new.draft g 0) }
        ensures nested { IfOk result (λ g. AreNested g self.new.feedbacks) }
    {
        let group = self.builder.group()?;
        Ok(group)
    }

    // Puts an operation on two signals.
    fn put_pair(&mut self, op: Op, a: SignalId, b: SignalId) -> Result<SignalId, AllocError>
        requires a { IsThere self.old a }
        requires b { IsThere self.old b }
        ensures { IfOk result (λ id. (id, self.new) ≡ put self.old (Point op (padded_of (a ∷ b ∷ [])))) }
    {
        let id = self.put(Signal::Point {
            op,
            args: [a, b, a, a],
        })?;
        Ok(id)
    }

    // Puts x and one more, modulo a number.
    fn put_next(&mut self, x: SignalId, count: u64) -> Result<SignalId, AllocError>
        requires x { IsThere self.old x }
        requires counted { FitsSigned w32 (pos count) }
        ensures { IfOk result (λ id. (id, self.new) ≡ put_next self.old x count) }
    {
        let one = self.put(Signal::Const(1))?;
        let sum = self.put_pair(Op::Add, x, one)?;
        let many = self.put(Signal::Const(count as i32))?;
        let id = self.put_pair(Op::Rem, sum, many)?;
        Ok(id)
    }

    // Gives a group its one member.
    fn give(&mut self, group: u64, member: SignalId) -> Result<(), AllocError>
        requires pending { IsPending self.old.draft group }
        requires inner { AreNested group self.old.feedbacks }
        requires backs { BacksWithin self.old.draft group 1 }
        requires member { IsThere self.old member }
        ensures { OnOk result (self.new ≡ given self.old group (member ∷ [])) }
    {
        self.builder.close_group(group, &[member])?;
        Ok(())
    }

    // Puts a wire that counts from 0 on, modulo a number.
    fn put_count(&mut self, count: u64) -> Result<SignalId, AllocError>
        requires counted { FitsSigned w32 (pos count) }
        ensures { IfOk result (λ id. (id, self.new) ≡ counted_of count self.old) }
    {
        let group = self.group()?;
        let late = self.put(Signal::Back { group, i: 0 })?;
        let next = self.put_next(late, count)?;
        self.give(group, next)?;
        Ok(late)
    }

    // The number of a table with these numbers.
    fn list(&mut self, values: &[i32]) -> Result<u64, AllocError>
        ensures list { IfOk result (λ t. (t, self.new) ≡ listed self.old values.now) }
        ensures there { IfOk result (λ t. table_in self.new.draft t ≡ values.now) }
    {
        let table = self.builder.table(values)?;
        Ok(table)
    }

    // Puts a table that is read, or written and read.
    fn put_table(
        &mut self,
        writes: bool,
        values: &[i32],
        ins: &[SignalId],
    ) -> Result<SignalId, AllocError>
        requires numbers { AreNumbers values.now }
        requires width { length ins.now ≡ table_inputs writes }
        requires wires { All (IsThere self.old) ins.now }
        ensures { IfOk result (λ id. (id, self.new) ≡ tabled_of writes values.now ins.now self.old) }
    {
        let table = self.list(values)?;
        let node = table_signal(writes, table, ins);
        let id = self.put(node)?;
        Ok(id)
    }

    // Opens a feedback.
    fn push(&mut self, feedback: Feedback) -> Result<(), AllocError>
        requires pending { IsPending self.old.draft feedback.group }
        requires backs { BacksWithin self.old.draft feedback.group feedback.count }
        requires nested { AreNested feedback.group self.old.feedbacks }
        ensures { OnOk result (self.new ≡ record self.old { feedbacks = feedback ∷ self.old.feedbacks }) }
    {
        self.feedbacks.push_front(feedback)?;
        Ok(())
    }

    // Begins a feedback of `count` wires, and returns the Backs that carry what is fed back.
    fn begin(&mut self, alloc: Global, count: u64) -> Result<Vec<SignalId>, AllocError>
        ensures { IfOk result (λ v. (v.items, self.new) ≡ opened_of count self.old) }
    {
        self.pass(count);
        let group = self.group()?;
        let late = self.put_backs(alloc, group, count)?;
        self.push(Feedback { group, count })?;
        Ok(late)
    }

    // Ends the innermost feedback.
    fn end(&mut self, alloc: Global, outs: &[SignalId]) -> Result<Vec<SignalId>, AllocError>
        requires fed { (n : ℕ) × (rest : List ℕ) × (fed_of self.old ≡ n ∷ rest) × (n ≤ length outs.now) }
        requires wires { All (IsThere self.old) outs.now }
        ensures { IfOk result (λ v. (v.items, self.new) ≡ closed_of outs.now self.old) }
    {
        let Some(feedback) = self.feedbacks.pop_front() else {
            return outs.iter().copied().collect(alloc);
        };
        self.builder.close_group(feedback.group, outs)?;
        let count = outs.len() as u64;
        let members = self.put_members(alloc, feedback.group, count)?;
        Ok(members)
    }
}

// Four operands, of which the first stands for those that are missing.
fn padded(ins: &[SignalId]) -> [SignalId; 4]
    requires { 1 ≤ length ins.now }
    ensures { result ≡ padded_of ins.now }
{
    let first = ins[0];
    [
        first,
        item_or(ins, 1, first),
        item_or(ins, 2, first),
        item_or(ins, 3, first),
    ]
}

// The node of a table.
fn table_signal(writes: bool, table: u64, ins: &[SignalId]) -> Signal
    requires { length ins.now ≡ table_inputs writes }
    ensures { result ≡ table_node writes table ins.now }
{
    if writes {
        Signal::Write {
            table,
            w: ins[0],
            x: ins[1],
            r: ins[2],
        }
    } else {
        Signal::Read { table, r: ins[0] }
    }
}

// An item, or the other where there is none.
fn item_or(items: &[SignalId], i: usize, other: SignalId) -> SignalId
    ensures { result ≡ get_or items.now i other }
{
    if i < items.len() { items[i] } else { other }
}

impl Signals for Progress {
    type Wire = SignalId;

    ghost hooks = { signal_hooks };

    ghost is_wire = { IsThere };

    ghost fed = { fed_of };

    fn leaf(&mut self, leaf: Leaf, ins: &[SignalId]) -> Result<SignalId, AllocError> {
        let id = self.put_leaf(leaf, ins)?;
        Ok(id)
    }

    fn count(&mut self, _alloc: Global, count: u64) -> Result<SignalId, AllocError> {
        let id = self.put_count(count)?;
        Ok(id)
    }

    fn table(
        &mut self,
        _alloc: Global,
        writes: bool,
        values: &[i32],
        ins: &[SignalId],
    ) -> Result<SignalId, AllocError> {
        let id = self.put_table(writes, values, ins)?;
        Ok(id)
    }

    fn open(&mut self, alloc: Global, count: u64) -> Result<Vec<SignalId>, AllocError> {
        let late = self.begin(alloc, count)?;
        Ok(late)
    }

    fn close(&mut self, alloc: Global, outs: &[SignalId]) -> Result<Vec<SignalId>, AllocError> {
        let members = self.end(alloc, outs)?;
        Ok(members)
    }
}
