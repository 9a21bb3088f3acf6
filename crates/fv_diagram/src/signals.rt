// What a walk over a diagram turns it into.

ghost use Rattle.std.specs.Prelude.{◌≡◌, ℕ, ◌≤◌, List, [], ◌∷◌, length, pos, FitsSigned, All, IfOk, OnOk};
ghost use Rattle.std.specs.Int.{w32};
ghost use Rattle.fv_diagram.specs.headline.Diagram.{table_inputs};
ghost use Rattle.fv_diagram.specs.Diagram.{AreNumbers};
ghost use Rattle.fv_diagram.specs.Hooks.{Hooks, takes, Keeps};

use fv_num::Op;
use std::alloc::{AllocError, Global};

/// A diagram that gives one stream of its own.
#[derive(Clone, Copy, PartialEq, Eq, Debug)]
pub enum Leaf {
    Number(i32),
    Control(u32),
    Mem,
    Prefix,
    Delay,
    Point(Op),
}

/// What a diagram is turned into, one leaf and one feedback at a time.
pub trait Signals {
    type Wire: Copy + Drop;

    /// What each call does.
    ghost hooks: { Hooks Self.Wire Self };

    /// What holds of the wires that it has made.
    ghost is_wire: { Self → Self.Wire → Type 0 };

    /// How many wires each feedback that is open feeds back, the innermost one first.
    ghost fed: { Self → List ℕ };

    /// The wire of a leaf on these wires.
    fn leaf(&mut self, leaf: Leaf, ins: &[Self::Wire]) -> Result<Self::Wire, AllocError>
        requires width { length ins.now ≡ takes leaf }
        requires wires { All (is_wire self.old) ins.now }
        ensures done { IfOk result (λ w. (w, self.new) ≡ hooks.leaf leaf ins.now self.old) }
        ensures wire { IfOk result (λ w. is_wire self.new w) }
        ensures keeps { OnOk result (Keeps (is_wire self.old) (is_wire self.new)) }
        ensures fed { OnOk result (fed self.new ≡ fed self.old) };

    /// The wire that counts from 0 on, modulo `count`.
    fn count(&mut self, alloc: Global, count: u64) -> Result<Self::Wire, AllocError>
        requires some { 1 ≤ count }
        requires counted { FitsSigned w32 (pos count) }
        ensures done { IfOk result (λ w. (w, self.new) ≡ hooks.counted count self.old) }
        ensures wire { IfOk result (λ w. is_wire self.new w) }
        ensures keeps { OnOk result (Keeps (is_wire self.old) (is_wire self.new)) }
        ensures fed { OnOk result (fed self.new ≡ fed self.old) };

    /// The wire of a table of these numbers, which is read at the index that its one wire carries. One that `writes` has three
    /// wires: where to write, what to write, and where to read after that.
    fn table(
        &mut self,
        alloc: Global,
        writes: bool,
        values: &[i32],
        ins: &[Self::Wire],
    ) -> Result<Self::Wire, AllocError>
        requires numbers { AreNumbers values.now }
        requires width { length ins.now ≡ table_inputs writes }
        requires wires { All (is_wire self.old) ins.now }
        ensures done { IfOk result (λ w. (w, self.new) ≡ hooks.tabled writes values.now ins.now self.old) }
        ensures wire { IfOk result (λ w. is_wire self.new w) }
        ensures keeps { OnOk result (Keeps (is_wire self.old) (is_wire self.new)) }
        ensures fed { OnOk result (fed self.new ≡ fed self.old) };

    /// Begins a feedback of `count` wires, and returns the wires that carry what is fed back.
    fn open(&mut self, alloc: Global, count: u64) -> Result<Vec<Self::Wire>, AllocError>
        ensures done { IfOk result (λ v. (v.items, self.new) ≡ hooks.opened count self.old) }
        ensures width { IfOk result (λ v. length v.items ≡ count) }
        ensures wires { IfOk result (λ v. All (is_wire self.new) v.items) }
        ensures keeps { OnOk result (Keeps (is_wire self.old) (is_wire self.new)) }
        ensures fed { OnOk result (fed self.new ≡ count ∷ fed self.old) };

    /// Ends the innermost feedback, where the first of these wires are fed back. Returns the wires for what stands outside.
    fn close(&mut self, alloc: Global, outs: &[Self::Wire]) -> Result<Vec<Self::Wire>, AllocError>
        requires fed { (n : ℕ) × (rest : List ℕ) × (fed self.old ≡ n ∷ rest) × (n ≤ length outs.now) }
        requires wires { All (is_wire self.old) outs.now }
        ensures done { IfOk result (λ v. (v.items, self.new) ≡ hooks.closed outs.now self.old) }
        ensures width { IfOk result (λ v. length v.items ≡ length outs.now) }
        ensures wires { IfOk result (λ v. All (is_wire self.new) v.items) }
        ensures keeps { OnOk result (Keeps (is_wire self.old) (is_wire self.new)) }
        ensures fed { OnOk result ((n : ℕ) × (fed self.old ≡ n ∷ fed self.new)) };
}
