// The walk over a diagram, whose pending work is a list.

ghost use Rattle.std.specs.Prelude.{◌≡◌, ℕ, ◌+◌, ◌<◌, ◌≤◌, false, [], ◌∷◌, ◌++◌, length, drop, take, All, IfOk, OnOk};
ghost use Rattle.fv_diagram.specs.headline.Diagram.{inputs, primitive_inputs, primitive_outputs, table_inputs, is_table_primitive};
ghost use Rattle.fv_diagram.specs.Diagram.{IsWellFormed, AreNumbers};
ghost use Rattle.fv_diagram.specs.headline.Streams.{dealt};
ghost use Rattle.fv_diagram.specs.Arena.{count_of, tree_of};
ghost use Rattle.fv_diagram.specs.declared.pending.Task.TheVariants.{Visit};
ghost use Rattle.fv_diagram.specs.Hooks.{takes};
ghost use Rattle.fv_diagram.specs.Walked.{walked, one, primitive as walked_primitive, waved, summed};
ghost use Rattle.fv_diagram.specs.inner.Pending.{slots_of, rules, stage, Gives, IsReady, Advances};

use crate::arena::Diagrams;
use crate::node::{DiagramId, Node, Prim};
use crate::signals::{Leaf, Signals};
use fv_num::Op;
use std::alloc::{AllocError, Global};
use std::collections::VecDeque;

/// A piece of pending work, which goes on with the wires that the work before it gave.
#[derive(Drop)]
pub enum Task<W: Copy + Drop> {
    /// Does a diagram on them.
    Visit(DiagramId),
    /// Keeps them, and does a diagram on others.
    Right { id: DiagramId, rest: VecDeque<W> },
    /// Puts others before them.
    Join { left: VecDeque<W> },
    /// Deals them.
    Deal { to: u64 },
    /// Adds them up.
    Sum { to: u64 },
    /// Puts others after them.
    Before { ins: VecDeque<W> },
    /// Ends the innermost feedback.
    Close,
    /// Ends the innermost bind.
    Unplug,
}

/// A slot, and the wire that it stands for.
#[derive(Clone, Copy, Drop)]
pub struct Plug<W: Copy + Drop> {
    pub slot: u64,
    pub wire: W,
}

/// The work that is pending, and the slots that are bound, the innermost one first.
#[derive(Drop)]
pub struct Pending<W: Copy + Drop> {
    pub tasks: VecDeque<Task<W>>,
    pub plugs: VecDeque<Plug<W>>,
}

/// The wires that a diagram gives from the wires `ins`.
pub fn walk<S: Signals>(
    signals: &mut S,
    alloc: Global,
    diagrams: &Diagrams,
    root: DiagramId,
    ins: Vec<S::Wire>,
    free: S::Wire,
) -> Result<Vec<S::Wire>, AllocError>
    requires root { root < count_of diagrams.now }
    requires well { IsWellFormed (tree_of diagrams.now root) }
    requires width { length ins.items ≡ inputs (tree_of diagrams.now root) }
    requires wires { All (S.is_wire signals.old) ins.items }
    requires free { S.is_wire signals.old free }
    ensures walked { IfOk result (λ v. (v.items, signals.new) ≡ walked S.hooks free (tree_of diagrams.now root) (λ _. free) ins.items signals.old) }
    ensures wires { IfOk result (λ v. All (S.is_wire signals.new) v.items) }
{
    let mut pending = Pending {
        tasks: VecDeque::new(alloc),
        plugs: VecDeque::new(alloc),
    };
    pending.tasks.push_front(Task::Visit(root))?;
    let mut now = VecDeque::from_vec(ins);
    while let Some(task) = pending.tasks.pop_front() {
        now = turn(&mut pending, signals, alloc, diagrams, task, now, free)?;
    }
    Ok(now.into_vec())
}

// Does one task, or puts tasks in its place.
fn turn<S: Signals>(
    pending: &mut Pending<S::Wire>,
    signals: &mut S,
    alloc: Global,
    diagrams: &Diagrams,
    task: Task<S::Wire>,
    now: VecDeque<S::Wire>,
    free: S::Wire,
) -> Result<VecDeque<S::Wire>, AllocError>
    requires { IsReady (rules S.hooks S.is_wire S.fed free diagrams.now)
        (stage (task ∷ pending.old.tasks.items) pending.old.plugs.items now.items signals.old) }
    ensures { IfOk result (λ v. Advances (rules S.hooks S.is_wire S.fed free diagrams.now)
        (stage (task ∷ pending.old.tasks.items) pending.old.plugs.items now.items signals.old)
        (stage pending.new.tasks.items pending.new.plugs.items v.items signals.new)) }
{
    match task {
        Task::Visit(id) => visit(pending, signals, alloc, diagrams, id, now, free),
        Task::Right { id, rest } => {
            pending.tasks.push_front(Task::Join { left: now })?;
            pending.tasks.push_front(Task::Visit(id))?;
            Ok(rest)
        }
        Task::Join { left } => joined(left, now),
        Task::Deal { to } => deal(alloc, &now, to, free),
        Task::Sum { to } => sums(signals, alloc, now, to),
        Task::Before { ins } => joined(now, ins),
        Task::Close => {
            let outs = now.into_vec();
            let outs = signals.close(alloc, &outs)?;
            Ok(VecDeque::from_vec(outs))
        }
        Task::Unplug => {
            let _ = pending.plugs.pop_front();
            Ok(now)
        }
    }
}

// Does a diagram, or puts the tasks of its parts in its place.
fn visit<S: Signals>(
    pending: &mut Pending<S::Wire>,
    signals: &mut S,
    alloc: Global,
    diagrams: &Diagrams,
    id: DiagramId,
    now: VecDeque<S::Wire>,
    free: S::Wire,
) -> Result<VecDeque<S::Wire>, AllocError>
    requires { IsReady (rules S.hooks S.is_wire S.fed free diagrams.now)
        (stage (Visit id ∷ pending.old.tasks.items) pending.old.plugs.items now.items signals.old) }
    ensures { IfOk result (λ v. Advances (rules S.hooks S.is_wire S.fed free diagrams.now)
        (stage (Visit id ∷ pending.old.tasks.items) pending.old.plugs.items now.items signals.old)
        (stage pending.new.tasks.items pending.new.plugs.items v.items signals.new)) }
{
    match diagrams.node(id) {
        Node::Prim(prim) => primitive(signals, alloc, prim, now),
        Node::Number(n) => single(signals, alloc, Leaf::Number(n), &[]),
        Node::Control(k) => single(signals, alloc, Leaf::Control(k), &[]),
        Node::Slot(slot) => listed(alloc, plugged(&pending.plugs, slot, free)),
        Node::Wave(table) => waveform(signals, alloc, diagrams.values(table)),
        Node::Table { table, writes } => {
            tabled(signals, alloc, writes, diagrams.values(table), now)
        }
        Node::Bind { slot, body } => {
            let mut now = now;
            let wire = now[0];
            let _ = now.pop_front();
            pending.plugs.push_front(Plug { slot, wire })?;
            pending.tasks.push_front(Task::Unplug)?;
            pending.tasks.push_front(Task::Visit(body))?;
            Ok(now)
        }
        Node::Par { left, right } => {
            let (first, rest) = split(alloc, now, u64::from(diagrams.arity(left).inputs))?;
            pending.tasks.push_front(Task::Right { id: right, rest })?;
            pending.tasks.push_front(Task::Visit(left))?;
            Ok(first)
        }
        Node::Seq { left, right } => {
            pending.tasks.push_front(Task::Visit(right))?;
            pending.tasks.push_front(Task::Visit(left))?;
            Ok(now)
        }
        Node::Split { left, right } => {
            let to = u64::from(diagrams.arity(right).inputs);
            put_between(&mut pending.tasks, left, Task::Deal { to }, right)?;
            Ok(now)
        }
        Node::Merge { left, right } => {
            let to = u64::from(diagrams.arity(right).inputs);
            put_between(&mut pending.tasks, left, Task::Sum { to }, right)?;
            Ok(now)
        }
        Node::Rec { left, right } => {
            let late = signals.open(alloc, u64::from(diagrams.arity(right).inputs))?;
            let late = VecDeque::from_vec(late);
            pending.tasks.push_front(Task::Close)?;
            put_between(&mut pending.tasks, right, Task::Before { ins: now }, left)?;
            Ok(late)
        }
    }
}

// Puts two diagrams first, with a task between them.
fn put_between<W: Copy + Drop>(
    tasks: &mut VecDeque<Task<W>>,
    first: DiagramId,
    between: Task<W>,
    then: DiagramId,
) -> Result<(), AllocError>
    ensures { OnOk result (tasks.new.items ≡ Visit first ∷ between ∷ Visit then ∷ tasks.old.items) }
{
    tasks.push_front(Task::Visit(then))?;
    tasks.push_front(between)?;
    tasks.push_front(Task::Visit(first))?;
    Ok(())
}

// Both lists, one after the other, where the wires of the shorter one are moved.
fn joined<W: Copy + Drop>(front: VecDeque<W>, back: VecDeque<W>) -> Result<VecDeque<W>, AllocError>
    ensures { IfOk result (λ v. v.items ≡ front.items ++ back.items) }
{
    let mut front = front;
    let mut back = back;
    if front.len() <= back.len() {
        while let Some(wire) = front.pop_back() {
            back.push_front(wire)?;
        }
        return Ok(back);
    }
    while let Some(wire) = back.pop_front() {
        front.push_back(wire)?;
    }
    Ok(front)
}

// The first `count` wires, and the others. The wires of the shorter list are moved.
fn split<W: Copy + Drop>(
    alloc: Global,
    wires: VecDeque<W>,
    count: u64,
) -> Result<(VecDeque<W>, VecDeque<W>), AllocError>
    requires { count ≤ length wires.items }
    ensures { IfOk result (λ p. (p.0.items ≡ take count wires.items) × (p.1.items ≡ drop count wires.items)) }
{
    let mut wires = wires;
    let count = count as usize;
    if count > wires.len() / 2 {
        let rest = wires.split_off(count)?;
        return Ok((wires, rest));
    }
    let mut first = VecDeque::new(alloc);
    for i in 0..count {
        first.push_back(wires[i])?;
    }
    for _ in 0..count {
        let _ = wires.pop_front();
    }
    Ok((first, wires))
}

// `count` wires, of which number i is number i of `from` modulo its length.
fn deal<W: Copy + Drop>(
    alloc: Global,
    from: &VecDeque<W>,
    count: u64,
    free: W,
) -> Result<VecDeque<W>, AllocError>
    requires { 0 < count → 0 < length from.now.items }
    ensures { IfOk result (λ v. v.items ≡ dealt free count from.now.items) }
{
    let mut all = VecDeque::new(alloc);
    for i in 0..count {
        all.push_back(from[i as usize % from.len()])?;
    }
    Ok(all)
}

// One wire.
fn listed<W: Copy + Drop>(alloc: Global, wire: W) -> Result<VecDeque<W>, AllocError>
    ensures { IfOk result (λ v. v.items ≡ wire ∷ []) }
{
    let mut all = VecDeque::new(alloc);
    all.push_back(wire)?;
    Ok(all)
}

// The wire of a slot.
fn plugged<W: Copy + Drop>(plugs: &VecDeque<Plug<W>>, slot: u64, free: W) -> W
    ensures { result ≡ slots_of free plugs.now.items slot }
{
    for i in 0..plugs.len() {
        let plug = plugs[i];
        if plug.slot == slot {
            return plug.wire;
        }
    }
    free
}

// A leaf.
fn single<S: Signals>(
    signals: &mut S,
    alloc: Global,
    leaf: Leaf,
    ins: &[S::Wire],
) -> Result<VecDeque<S::Wire>, AllocError>
    requires width { length ins.now ≡ takes leaf }
    requires wires { All (S.is_wire signals.old) ins.now }
    ensures { IfOk result (λ v. Gives S.is_wire S.fed signals.old signals.new (one (S.hooks.leaf leaf ins.now signals.old)) v.items 1) }
{
    let wire = signals.leaf(leaf, ins)?;
    listed(alloc, wire)
}

// A primitive.
fn primitive<S: Signals>(
    signals: &mut S,
    alloc: Global,
    prim: Prim,
    now: VecDeque<S::Wire>,
) -> Result<VecDeque<S::Wire>, AllocError>
    requires runs { is_table_primitive prim ≡ false }
    requires width { length now.items ≡ primitive_inputs prim }
    requires wires { All (S.is_wire signals.old) now.items }
    ensures { IfOk result (λ v. Gives S.is_wire S.fed signals.old signals.new
        (walked_primitive S.hooks prim now.items signals.old) v.items (primitive_outputs prim)) }
{
    match prim {
        Prim::Wire => listed(alloc, now[0]),
        Prim::Int => listed(alloc, now[0]),
        Prim::Attach => listed(alloc, now[0]),
        Prim::Cut => Ok(VecDeque::new(alloc)),
        Prim::Mem => single(signals, alloc, Leaf::Mem, &now.into_vec()),
        Prim::Prefix => single(signals, alloc, Leaf::Prefix, &now.into_vec()),
        Prim::Delay => single(signals, alloc, Leaf::Delay, &now.into_vec()),
        Prim::Point(op) => single(signals, alloc, Leaf::Point(op), &now.into_vec()),
        Prim::ReadTable => unreachable!(),
        Prim::WriteTable => unreachable!(),
    }
}

// A table.
fn tabled<S: Signals>(
    signals: &mut S,
    alloc: Global,
    writes: bool,
    values: &[i32],
    now: VecDeque<S::Wire>,
) -> Result<VecDeque<S::Wire>, AllocError>
    requires numbers { AreNumbers values.now }
    requires width { length now.items ≡ table_inputs writes }
    requires wires { All (S.is_wire signals.old) now.items }
    ensures { IfOk result (λ v. Gives S.is_wire S.fed signals.old signals.new (one (S.hooks.tabled writes values.now now.items signals.old)) v.items 1) }
{
    let wire = signals.table(alloc, writes, values, &now.into_vec())?;
    listed(alloc, wire)
}

// A waveform: how many numbers it has, and a table of them that is read at a wire that counts.
fn waveform<S: Signals>(
    signals: &mut S,
    alloc: Global,
    values: &[i32],
) -> Result<VecDeque<S::Wire>, AllocError>
    requires numbers { AreNumbers values.now }
    ensures { IfOk result (λ v. Gives S.is_wire S.fed signals.old signals.new (waved S.hooks values.now signals.old) v.items 2) }
{
    let many = signals.leaf(Leaf::Number(values.len() as i32), &[])?;
    let index = signals.count(alloc, values.len() as u64)?;
    let mut ins = Vec::new(alloc);
    ins.push(index)?;
    let read = signals.table(alloc, false, values, &ins)?;
    let mut all = VecDeque::new(alloc);
    all.push_back(many)?;
    all.push_back(read)?;
    Ok(all)
}

// The wires of `count` sums, of which number j is that of the terms i with i modulo `count` equal to j.
fn sums<S: Signals>(
    signals: &mut S,
    alloc: Global,
    terms: VecDeque<S::Wire>,
    count: u64,
) -> Result<VecDeque<S::Wire>, AllocError>
    requires some { 0 < count }
    requires enough { count ≤ length terms.items }
    requires wires { All (S.is_wire signals.old) terms.items }
    ensures { IfOk result (λ v. (d : S.Wire) → Gives S.is_wire S.fed signals.old signals.new (summed S.hooks d count terms.items signals.old) v.items count) }
{
    let terms = terms.into_vec();
    let all = add_up(signals, alloc, &terms, count)?;
    Ok(VecDeque::from_vec(all))
}

// Adds each term i to the sum i modulo `count`.
fn add_up<S: Signals>(
    signals: &mut S,
    alloc: Global,
    terms: &[S::Wire],
    count: u64,
) -> Result<Vec<S::Wire>, AllocError>
    requires some { 0 < count }
    requires enough { count ≤ length terms.now }
    requires wires { All (S.is_wire signals.old) terms.now }
    ensures { IfOk result (λ v. (d : S.Wire) → Gives S.is_wire S.fed signals.old signals.new (summed S.hooks d count terms.now signals.old) v.items count) }
{
    let mut sums: Vec<S::Wire> = terms[..count as usize].iter().copied().collect(alloc)?;
    for i in count as usize..terms.len() {
        let j = i % count as usize;
        let args = [sums[j], terms[i]];
        sums[j] = signals.leaf(Leaf::Point(Op::Add), &args)?;
    }
    Ok(sums)
}
