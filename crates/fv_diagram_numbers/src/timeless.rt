// The value of a timeless diagram without inputs, found node by node. Numbers stand side by side; each diagram takes some of them
// and writes others.

ghost use Rattle.std.specs.Prelude.{◌≡◌, ◌+◌, ◌<◌, ◌≤◌, ◌∷◌, ℕ, length, reverse, true, slice_set, IfOk, OnOk};
ghost use Rattle.fv_num.specs.headline.Words.{argument, apply_of, inputs_of};
ghost use Rattle.fv_num.specs.headline.Frames.{table};
ghost use Rattle.fv_diagram.specs.headline.Diagram.{Primitive, inputs, outputs, primitive_inputs, primitive_outputs};
ghost use Rattle.fv_diagram.specs.Composed.{IsComposed};
ghost use Rattle.fv_diagram.specs.Arena.{count_of, tree_of};
ghost use Rattle.fv_diagram_numbers.specs.headline.Numbers.{is_pointwise, number_of};
ghost use Rattle.fv_diagram_numbers.specs.declared.timeless.Task.TheVariants.{Visit};
ghost use Rattle.fv_diagram_numbers.specs.inner.Timeless.{whole, dealing, summing, Does, IsReady, Turns};

use fv_diagram::{DiagramId, Diagrams, Node, Prim};
use fv_num::{Op, apply};
use std::alloc::{AllocError, Global};

/// A piece of work on numbers that stand side by side.
#[derive(Clone, Copy)]
pub enum Task {
    /// Writes what a diagram gives from index `to` on, where what it takes stands from index `from` on.
    Visit {
        id: DiagramId,
        from: usize,
        to: usize,
    },
    /// Repeats the first `count` numbers from index `at` on, until they are `many`.
    Deal {
        at: usize,
        count: usize,
        many: usize,
    },
    /// Adds the `count` numbers from index `at` on to the first `many` of them.
    Sum {
        at: usize,
        count: usize,
        many: usize,
    },
}

/// The work that is pending, the next piece last, and the numbers.
#[derive(Drop)]
pub struct Work {
    pub tasks: Vec<Task>,
    pub numbers: Vec<i32>,
}

/// The number of a diagram without inputs and with one output; `None` where it is not timeless.
pub fn value_of(
    alloc: Global,
    diagrams: &Diagrams,
    root: DiagramId,
) -> Result<Option<i32>, AllocError>
    requires inside { root < count_of diagrams.now }
    requires composed { IsComposed (tree_of diagrams.now root) }
    requires closed { inputs (tree_of diagrams.now root) ≡ 0 }
    requires one { outputs (tree_of diagrams.now root) ≡ 1 }
    ensures { IfOk result (λ o. o ≡ number_of (tree_of diagrams.now root)) }
{
    let mut work = Work {
        tasks: Vec::new(alloc),
        numbers: Vec::new(alloc),
    };
    work.numbers.push(0)?;
    work.tasks.push(Task::Visit {
        id: root,
        from: 1,
        to: 0,
    })?;
    while let Some(task) = work.tasks.pop() {
        if !turn(&mut work, diagrams, task)? {
            return Ok(None);
        }
    }
    Ok(Some(work.numbers[0]))
}

// Does one task, or puts tasks in its place. Says whether it met nothing that is not timeless.
fn turn(work: &mut Work, diagrams: &Diagrams, task: Task) -> Result<bool, AllocError>
    requires { IsReady diagrams.now (task ∷ reverse work.old.tasks.items) work.old.numbers.items }
    ensures { IfOk result (λ b. Turns b diagrams.now (task ∷ reverse work.old.tasks.items) work.old.numbers.items
        (reverse work.new.tasks.items) work.new.numbers.items) }
{
    match task {
        Task::Visit { id, from, to } => visit(work, diagrams, id, from, to),
        Task::Deal { at, count, many } => {
            deal(&mut work.numbers, at, count, many);
            Ok(true)
        }
        Task::Sum { at, count, many } => {
            add_up(&mut work.numbers, at, count, many);
            Ok(true)
        }
    }
}

// Does a diagram, or puts the tasks of its parts in its place.
fn visit(
    work: &mut Work,
    diagrams: &Diagrams,
    id: DiagramId,
    from: usize,
    to: usize,
) -> Result<bool, AllocError>
    requires { IsReady diagrams.now (Visit id from to ∷ reverse work.old.tasks.items) work.old.numbers.items }
    ensures { IfOk result (λ b. Turns b diagrams.now (Visit id from to ∷ reverse work.old.tasks.items) work.old.numbers.items
        (reverse work.new.tasks.items) work.new.numbers.items) }
{
    match diagrams.node(id) {
        Node::Prim(prim) => Ok(primitive(&mut work.numbers, prim, from, to)),
        Node::Number(n) => {
            write(&mut work.numbers, to, n);
            Ok(true)
        }
        Node::Control(_) => Ok(false),
        Node::Slot(_) => Ok(false),
        Node::Wave(_) => Ok(false),
        Node::Table { .. } => Ok(false),
        Node::Bind { .. } => Ok(false),
        Node::Par { left, right } => {
            let first = diagrams.arity(left);
            let next = from + first.inputs as usize;
            let behind = to + first.outputs as usize;
            put(work, right, next, behind)?;
            put(work, left, from, to)?;
            Ok(true)
        }
        Node::Seq { left, right } => {
            let count = diagrams.arity(left).outputs as usize;
            let at = extend(&mut work.numbers, count)?;
            put(work, right, at, to)?;
            put(work, left, from, at)?;
            Ok(true)
        }
        Node::Split { left, right } => {
            let count = diagrams.arity(left).outputs as usize;
            let many = diagrams.arity(right).inputs as usize;
            let at = extend(&mut work.numbers, many)?;
            put(work, right, at, to)?;
            work.tasks.push(Task::Deal { at, count, many })?;
            put(work, left, from, at)?;
            Ok(true)
        }
        Node::Merge { left, right } => {
            let count = diagrams.arity(left).outputs as usize;
            let many = diagrams.arity(right).inputs as usize;
            let at = extend(&mut work.numbers, count)?;
            put(work, right, at, to)?;
            work.tasks.push(Task::Sum { at, count, many })?;
            put(work, left, from, at)?;
            Ok(true)
        }
        Node::Rec { .. } => Ok(false),
    }
}

// Puts a diagram as the next piece of work.
fn put(work: &mut Work, id: DiagramId, from: usize, to: usize) -> Result<(), AllocError>
    ensures tasks { OnOk result (reverse work.new.tasks.items ≡ Visit id from to ∷ reverse work.old.tasks.items) }
    ensures numbers { work.new.numbers.items ≡ work.old.numbers.items }
{
    work.tasks.push(Task::Visit { id, from, to })?;
    Ok(())
}

// A primitive. Says whether it is pointwise.
fn primitive(numbers: &mut [i32], prim: Prim, from: usize, to: usize) -> bool
    requires takes { from + primitive_inputs prim ≤ length numbers.old }
    requires gives { to + primitive_outputs prim ≤ length numbers.old }
    ensures result { result ≡ is_pointwise prim }
    ensures length { length numbers.new ≡ length numbers.old }
    ensures does { is_pointwise prim ≡ true
        → Does (length numbers.old) (whole (Primitive prim) from to) (argument numbers.old) (argument numbers.new) }
{
    match prim {
        Prim::Wire => copy(numbers, from, to),
        Prim::Int => copy(numbers, from, to),
        Prim::Attach => copy(numbers, from, to),
        Prim::Cut => {}
        Prim::Mem => return false,
        Prim::Prefix => return false,
        Prim::Delay => return false,
        Prim::ReadTable => return false,
        Prim::WriteTable => return false,
        Prim::Point(op) => {
            let n = applied(op, numbers, from);
            write(numbers, to, n);
        }
    }
    true
}

// Copies the number at one index to another.
fn copy(numbers: &mut [i32], from: usize, to: usize)
    requires from { from < length numbers.old }
    requires to { to < length numbers.old }
    ensures { numbers.new ≡ slice_set numbers.old to (argument numbers.old from) }
{
    numbers[to] = numbers[from];
}

// The value of an operation on the numbers from an index on.
fn applied(op: Op, numbers: &[i32], from: usize) -> i32
    requires { from + inputs_of op ≤ length numbers.now }
    ensures { result ≡ apply_of op (table (inputs_of op) (λ i. argument numbers.now (from + i))) }
{
    let count = op.inputs() as usize;
    apply(op, &numbers[from..from + count])
}

// Writes a number.
fn write(numbers: &mut [i32], to: usize, n: i32)
    requires { to < length numbers.old }
    ensures { numbers.new ≡ slice_set numbers.old to n }
{
    numbers[to] = n;
}

// Appends zeros and returns the index where they begin.
fn extend(numbers: &mut Vec<i32>, count: usize) -> Result<usize, AllocError>
    ensures place { IfOk result (λ at. at ≡ length numbers.old.items) }
    ensures length { OnOk result (length numbers.new.items ≡ length numbers.old.items + count) }
    ensures same { (i : ℕ) → argument numbers.new.items i ≡ argument numbers.old.items i }
{
    let at = numbers.len();
    for _ in 0..count {
        numbers.push(0)?;
    }
    Ok(at)
}

// Repeats the first `count` numbers from index `at` on, until they are `many`.
fn deal(numbers: &mut [i32], at: usize, count: usize, many: usize)
    requires some { 0 < count }
    requires more { count ≤ many }
    requires inside { at + many ≤ length numbers.old }
    ensures length { length numbers.new ≡ length numbers.old }
    ensures does { Does (length numbers.old) (dealing at count many) (argument numbers.old) (argument numbers.new) }
{
    for i in count..many {
        numbers[at + i] = numbers[at + i % count];
    }
}

// Adds the `count` numbers from index `at` on to the first `many` of them.
fn add_up(numbers: &mut [i32], at: usize, count: usize, many: usize)
    requires some { 0 < many }
    requires fewer { many ≤ count }
    requires inside { at + count ≤ length numbers.old }
    ensures length { length numbers.new ≡ length numbers.old }
    ensures does { Does (length numbers.old) (summing at count many) (argument numbers.old) (argument numbers.new) }
{
    for i in many..count {
        let j = i % many;
        numbers[at + j] = apply(Op::Add, &[numbers[at + j], numbers[at + i]]);
    }
}
