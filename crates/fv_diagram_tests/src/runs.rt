// Worked examples of runs.

ghost use Rattle.std.specs.Prelude.{◌≡◌, ◌<◌, ◌≤◌, length, IfOk};
ghost use Rattle.fv_diagram.specs.Arena.{count_of, tree_of};
ghost use Rattle.fv_diagram.specs.Diagram.{control_bound, HasNoFreeSlot, IsWellFormed};

use fv_diagram::{Arity, DiagramId, Diagrams, Node, Prim, PutRefusal};
use fv_diagram_runner::Stepper;
use std::alloc::{AllocError, Global};
use std::process::Abort;
use std::test::Fail;
use test_diagrams::{Build, Item, Unput, WIRE, program_with_controls};

// An expression, frames that stand one after another, and what it answers on them.
struct Row {
    expression: &'static str,
    frames: &'static [i32],
    want: &'static [i32],
}

static ROWS: [Row; 21] = [
    Row {
        expression: "+ ~ _",
        frames: &[1, 2, 3, 4],
        want: &[1, 3, 6, 10],
    },
    Row {
        expression: "_ <: _, mem : -",
        frames: &[5, 7, 4],
        want: &[5, 2, -3],
    },
    Row {
        expression: "_,1 : -",
        frames: &[0],
        want: &[-1],
    },
    Row {
        expression: "_ / 0",
        frames: &[9],
        want: &[0],
    },
    Row {
        expression: "_,_ <: _,_,_,_ :> _,_",
        frames: &[1, 2],
        want: &[2, 4],
    },
    Row {
        expression: "_,_ <: _,_,_,_",
        frames: &[1, 2],
        want: &[1, 2, 1, 2],
    },
    Row {
        expression: "_,_,_,_,_,_ :> _,_",
        frames: &[1, 2, 10, 20, 100, 200],
        want: &[111, 222],
    },
    Row {
        expression: "(+,+) ~ (_,_)",
        frames: &[1, 1, 1, 1, 1, 1],
        want: &[0, 2, 2, 2, 4, 2],
    },
    Row {
        expression: "(+ ~ _) ~ (_,1 : +)",
        frames: &[],
        want: &[1, 3, 7, 15],
    },
    Row {
        expression: "7,_ : prefix",
        frames: &[4, 5, 6],
        want: &[7, 4, 5],
    },
    Row {
        expression: "_,10,20,30 : select3",
        frames: &[0, 1, 2, -5],
        want: &[10, 20, 30, 30],
    },
    Row {
        expression: "-2147483647 - 1 : _ <: /(-1), %(-1), abs",
        frames: &[],
        want: &[-2147483648, 0, -2147483648],
    },
    Row {
        expression: "-8 >> 33",
        frames: &[],
        want: &[-4],
    },
    Row {
        expression: "(attach : int), !",
        frames: &[3, 8, 9, 4, 6, 7],
        want: &[3, 4],
    },
    Row {
        expression: "(_, a : *), b",
        frames: &[5, 6],
        want: &[15, -2, 18, -2],
    },
    Row {
        expression: "\\(x).(_)",
        frames: &[3, 8],
        want: &[8],
    },
    Row {
        expression: "@",
        frames: &[5, 0, 7, 1, 4, 1, 9, 2, 1, -1, 3, 9],
        want: &[5, 5, 7, 7, 0, 0],
    },
    Row {
        expression: "+ ~ (_,2 : @ : _,128 : * : _,256 : /)",
        frames: &[1000, 0, 0, 0, 0, 0, 0, 0],
        want: &[1000, 0, 0, 500, 0, 0, 250, 0],
    },
    Row {
        expression: "_,3 : @",
        frames: &[1, 2, 3, 4, 5],
        want: &[0, 0, 0, 1, 2],
    },
    Row {
        expression: "_, (_,7 : &) : @",
        frames: &[1, 0, 2, 1, 3, 9, 4, 1],
        want: &[1, 1, 2, 3],
    },
    Row {
        expression: "_ : mem : mem",
        frames: &[5, 7, 4, 9],
        want: &[0, 0, 5, 7],
    },
];

// The numbers of the controls.
const CONTROLS: [i32; 2] = [3, -2];

// Takes a frame more, and compares what it answers.
fn step(
    rt: &impl Abort,
    alloc: Global,
    name: &str,
    stepper: &mut Stepper,
    frame: &[i32],
    want: &[i32],
) -> Result<(), AllocError>
    requires frame { length frame.now ≡ stepper.old.ins }
    requires want { length want.now ≡ length stepper.old.outs }
    requires controls { stepper.old.controls ≤ 2 }
    ensures widths { (stepper.new.ins ≡ stepper.old.ins) × (length stepper.new.outs ≡ length stepper.old.outs)
        × (stepper.new.controls ≡ stepper.old.controls) }
{
    let mut out = vec![in alloc; 0; want.len()]?;
    stepper.step(&CONTROLS, frame, &mut out)?;
    assert!(rt; out.as_slice() == want, "{name}");
    Ok(())
}

// Takes frames, and compares what it answers.
fn step_all(
    rt: &impl Abort,
    alloc: Global,
    name: &str,
    stepper: &mut Stepper,
    arity: Arity,
    frames: &[i32],
    want: &[i32],
) -> Result<(), AllocError>
    requires ins { stepper.old.ins ≡ arity.inputs }
    requires outs { length stepper.old.outs ≡ arity.outputs }
    requires controls { stepper.old.controls ≤ 2 }
{
    let ins = arity.inputs as usize;
    let outs = arity.outputs as usize;
    let mut frames = frames;
    let mut want = want;
    'frames: while !want.is_empty() {
        assert!(rt; frames.len() >= ins && want.len() >= outs && outs > 0);
        let (frame, frames_left) = frames.split_at(ins);
        let (expected, want_left) = want.split_at(outs);
        step(rt, alloc, name, stepper, frame, expected)?;
        frames = frames_left;
        want = want_left;
    }
    Ok(())
}

/// Runs a diagram on frames, and compares what it answers.
pub fn play(
    rt: &impl Abort,
    alloc: Global,
    name: &str,
    diagrams: &Diagrams,
    root: DiagramId,
    frames: &[i32],
    want: &[i32],
) -> Result<(), Fail>
    requires root { root < count_of diagrams.now }
    requires well { IsWellFormed (tree_of diagrams.now root) }
    requires closed { HasNoFreeSlot (tree_of diagrams.now root) }
    requires controls { control_bound (tree_of diagrams.now root) ≤ 2 }
{
    let arity = diagrams.arity(root);
    let mut stepper = Stepper::new(alloc, diagrams, root)?;
    step_all(rt, alloc, name, &mut stepper, arity, frames, want)?;
    Ok(())
}

// Runs an expression on frames, and compares what it answers.
fn play_expression(
    rt: &impl Abort,
    alloc: Global,
    expression: &str,
    frames: &[i32],
    want: &[i32],
) -> Result<(), Fail> {
    let program = program_with_controls(alloc, expression)?;
    assert!(rt; program.controls.as_slice().len() <= CONTROLS.len());
    play(
        rt,
        alloc,
        expression,
        &program.diagrams,
        program.root,
        frames,
        want,
    )
}

#[test]
fn rows_run(rt: HostRuntime) -> Result<(), Fail> {
    for row in &ROWS {
        play_expression(&rt, rt.alloc(), row.expression, row.frames, row.want)?;
    }
    Ok(())
}

// Puts a chain. The last item has as many nodes as there may be.
fn put_chain(build: &mut Build, leftwards: bool) -> Result<(), Unput> {
    for item in [Item::Number(0), WIRE, Item::Prim(Prim::Mem)] {
        build.put(item)?;
    }
    for last in 2..8192 {
        let item = if leftwards {
            Item::Seq(last, 1)
        } else {
            Item::Seq(1, last)
        };
        build.put(item)?;
    }
    // these are 16,381 nodes; a number beside them, and a bind of a slot that does not occur
    let item = if leftwards {
        Item::Par(8192, 0)
    } else {
        Item::Par(0, 8192)
    };
    build.put(item)?;
    build.put(Item::Bind(8193))?;
    Ok(())
}

// Compares what comes out of a chain.
fn play_chain(rt: &impl Abort, alloc: Global, build: &Build, want: &[i32]) -> Result<(), Fail> {
    assert!(rt; build.count() == 8195);
    let root = DiagramId::new(8194);
    let frames = [1, 5, 1, 7, 1, 4];
    play(rt, alloc, "chain", build.diagrams(), root, &frames, want)
}

// Items over a chain, and why they are refused.
static OVER: [(Item, Option<PutRefusal>); 3] = [
    (
        Item::Par(8193, 0),
        Some(PutRefusal::SizeBudget { size: 16385 }),
    ),
    (
        Item::Par(8194, 8194),
        Some(PutRefusal::SizeBudget { size: 32769 }),
    ),
    (Item::Number(0), None),
];

// Tries these: what is refused puts nothing.
fn put_over(rt: &impl Abort, build: &mut Build) {
    for (item, refusal) in &OVER {
        assert_eq!(rt; build.put(*item), Ok(*refusal));
    }
    assert_eq!(rt; build.count(), 8196);
}

// A chain of as many nodes as there may be, and what comes out of it. One node more is refused.
fn chain(rt: &impl Abort, alloc: Global, leftwards: bool, want: &[i32]) -> Result<(), Fail> {
    let mut build = Build::new(alloc);
    put_chain(&mut build, leftwards)?;
    play_chain(rt, alloc, &build, want)?;
    put_over(rt, &mut build);
    Ok(())
}

#[test]
fn long_chains_run(rt: HostRuntime) -> Result<(), Fail> {
    chain(&rt, rt.alloc(), true, &[0, 0, 5, 0, 7, 0])?;
    chain(&rt, rt.alloc(), false, &[0, 0, 0, 5, 0, 7])
}

// `count` frames of two zeros, but for these values at these frames.
fn sparse(alloc: Global, count: u32, values: &[(u32, i32)]) -> Result<Vec<i32>, AllocError> {
    let mut all = Vec::new(alloc);
    for i in 0..count {
        let mut value = 0;
        for (frame, here) in values {
            if *frame == i {
                value = *here;
            }
        }
        all.push(value)?;
        all.push(value)?;
    }
    Ok(all)
}

// Two echoes of a quarter of a second, side by side.
#[test]
fn echoes_run(rt: HostRuntime) -> Result<(), Fail> {
    let frames = sparse(rt.alloc(), 22051, &[(0, 1000)])?;
    let want = sparse(rt.alloc(), 22051, &[(0, 1000), (11025, 500), (22050, 250)])?;
    let echoes = "par(i, 2, + ~ (@(11024) : *(128) : /(256)))";
    play_expression(&rt, rt.alloc(), echoes, &frames, &want)
}

// A bind of slot 0 over a bind of slot 1, whose body is slot 1 beside slot 0.
fn swapped(alloc: Global) -> Result<Stepper, Fail>
    ensures { IfOk result (λ s. (s.ins ≡ 2) × (length s.outs ≡ 2) × (s.controls ≡ 0)) }
{
    let mut d = Diagrams::new(alloc);
    let one = Arity {
        inputs: 0,
        outputs: 1,
    };
    let left = d.put(Node::Slot(1), one)?;
    let right = d.put(Node::Slot(0), one)?;
    let body = d.put(
        Node::Par { left, right },
        Arity {
            inputs: 0,
            outputs: 2,
        },
    )?;
    let body = d.put(
        Node::Bind { slot: 1, body },
        Arity {
            inputs: 1,
            outputs: 2,
        },
    )?;
    let root = d.put(
        Node::Bind { slot: 0, body },
        Arity {
            inputs: 2,
            outputs: 2,
        },
    )?;
    Ok(Stepper::new(alloc, &d, root)?)
}

#[test]
fn binds_run(rt: HostRuntime) -> Result<(), Fail> {
    let mut stepper = swapped(rt.alloc())?;
    let mut out = [0, 0];
    stepper.step(&[], &[3, 8], &mut out)?;
    assert_eq!(rt; out, [8, 3]);
    stepper.step(&[], &[4, 9], &mut out)?;
    assert_eq!(rt; out, [9, 4]);
    Ok(())
}
