// A runner of one frame at a time.

ghost use Rattle.std.specs.Prelude.{◌≡◌, ◌≤◌, ℕ, List, [], ◌∷◌, ◌++◌, ◌<◌, length, IfOk, OnOk, OnErr};
ghost use Rattle.fv_num.specs.headline.Frames.{Frame, Stream, column};
ghost use Rattle.fv_diagram.specs.headline.Diagram.{Diagram};
ghost use Rattle.fv_diagram.specs.Diagram.{IsWellFormed, HasNoFreeSlot};
ghost use Rattle.fv_diagram.specs.Arena.{count_of, tree_of};
ghost use Rattle.fv_diagram.specs.headline.Streams.{run, last};
ghost use Rattle.fv_diagram_runner.specs.Steps.{StandsFor};

use crate::draft::{Draft, input_registers};
use crate::history::{History, reserve};
use crate::step::{Change, FrameCode, Step};
use fv_diagram::{DiagramId, Diagrams, walk};
use std::alloc::{AllocError, Global};
use std::marker::Model;

/// A runner of a diagram. It keeps a cell for each wire that is delayed by one frame, and a list of numbers for each other delay.
#[derive(Drop)]
pub struct Stepper {
    // What each register is computed from, in order.
    pub(crate) steps: Vec<Step>,
    // By cell: the register whose number it takes at the end of a frame.
    pub(crate) sources: Vec<u64>,
    // By list: what is done to it at the end of a frame.
    pub(crate) changes: Vec<Change>,
    // The registers of the outputs, in order.
    pub(crate) outs: Vec<u64>,
    // How many controls the steps may read: the first ones.
    pub(crate) controls: u64,
    // How many inputs the diagram has.
    pub(crate) ins: u64,
    // By cell: the number that the steps read, which its source had a frame before; 0 at first.
    pub(crate) cells: Vec<i32>,
    // The numbers of each list so far.
    pub(crate) lists: Vec<History>,
    // By step: its number in the last frame that ran, 0 before any.
    pub(crate) registers: Vec<i32>,
}

impl Model for Stepper {
    ghost use Rattle.fv_diagram_runner.specs.Steps.{RunnerState};

    ghost Value = { RunnerState };

    ghost use Rattle.fv_diagram_runner.specs.Runner.{runner_state_of, IsInside};

    ghost view = { runner_state_of };

    ghost invariant = { IsInside };
}

impl Stepper {
    /// A runner that stands for the diagram after no frames.
    pub fn new(alloc: Global, diagrams: &Diagrams, root: DiagramId) -> Result<Stepper, AllocError>
        requires root { root < count_of diagrams.now }
        requires well { IsWellFormed (tree_of diagrams.now root) }
        requires closed { HasNoFreeSlot (tree_of diagrams.now root) }
        ensures { IfOk result (λ s. StandsFor s (tree_of diagrams.now root) [] []) }
    {
        let count = u64::from(diagrams.arity(root).inputs);
        let mut draft = Draft::new(alloc, count)?;
        let ins = input_registers(alloc, count)?;
        let outs = walk(&mut draft, alloc, diagrams, root, ins, 0)?;
        draft.finish(alloc, outs)
    }

    /// Takes one frame more. Where there is no memory for it, nothing has changed.
    pub fn step(
        &mut self,
        controls: &[i32],
        frame: &[i32],
        out: &mut [i32],
    ) -> Result<(), AllocError>
        requires controls { self.old.controls ≤ length controls.now }
        requires frame { length frame.now ≡ self.old.ins }
        requires out { length out.old ≡ length self.old.outs }
        // It asks for the same widths as before.
        ensures widths { (self.new.ins ≡ self.old.ins) × (length self.new.outs ≡ length self.old.outs) × (self.new.controls ≡ self.old.controls) }
        // It stands for one frame more.
        ensures stands { OnOk result ((d : Diagram) (C X : List Frame) → StandsFor self.old d C X →
            StandsFor self.new d (C ++ controls.now ∷ []) (X ++ frame.now ∷ [])) }
        // What it gives is the last frame of the answer on all frames so far and this one.
        ensures answer { OnOk result ((d : Diagram) (C X : List Frame) (e : ℕ → Stream) → StandsFor self.old d C X →
            out.new ≡ last (run d (column (C ++ controls.now ∷ [])) e (X ++ frame.now ∷ []))) }
        ensures err { OnErr result (self.new ≡ self.old) }
        ensures nothing_given { OnErr result (out.new ≡ out.old) }
    {
        reserve(&mut self.lists, &self.changes)?;
        let code = FrameCode {
            steps: &self.steps,
            sources: &self.sources,
            changes: &self.changes,
            outs: &self.outs,
        };
        code.advance(
            controls,
            frame,
            &mut self.cells,
            &mut self.lists,
            &mut self.registers,
            out,
        );
        Ok(())
    }
}
