// Wires side by side, which fill up an application: one diagram for each count, put once.

ghost use Rattle.std.specs.Prelude.{◌≡◌, ◌⊎◌, ◌+◌, ◌<◌, ◌≤◌, ◌^◌, [], IfOk, IfErr, IfSome};
ghost use Rattle.fv_diagram.specs.Primitive.TheVariants as prim;
ghost use Rattle.fv_diagram.specs.headline.Diagram.{Primitive as Leaf};
ghost use Rattle.fv_diagram.specs.Arena.{Arena, count_of};
ghost use Rattle.fv_rules.specs.declared.refusal.EvalRefusal.TheVariants.{NoMemory};
ghost use Rattle.fv_rules.specs.headline.Steps.{State};
ghost use Rattle.fv_eval_drawing.specs.Makes.{AddsDiagrams, Draws};
ghost use Rattle.fv_eval_drawing.specs.Wires.{AreWires, IsWired, side_by_side};

use crate::diagrams::Drawing;
use fv_diagram::{DiagramId, Node, Prim};
use fv_rules::EvalRefusal;
use std::alloc::Global;
use std::marker::Model;

/// The diagrams of two wires, of three, and so on.
#[derive(Drop)]
pub(crate) struct Wires {
    kept: Vec<DiagramId>,
}

impl Model for Wires {
    ghost use Rattle.std.specs.Prelude.{List, ℕ};

    ghost Value = { List ℕ };

    ghost view = { λ w. w.kept.items };
}

impl Wires {
    /// None.
    pub(crate) fn new(alloc: Global) -> Wires
        ensures { result ≡ [] }
    {
        Wires {
            kept: Vec::new(alloc),
        }
    }

    /// The diagram of `count` wires, where it is kept.
    pub(crate) fn get(&self, count: u64) -> Option<DiagramId>
        ensures { (a : Arena) → AreWires a self.now → IfSome result (IsWired a count) }
    {
        if count < 2 {
            return None;
        }
        self.kept.get((count - 2) as usize).copied()
    }

    /// Keeps the diagram of `count` wires, where that of one wire less is the last one that is kept. What there is no memory for is
    /// not kept.
    pub(crate) fn keep(&mut self, count: u64, id: DiagramId)
        ensures { (a : Arena) → AreWires a self.old → IsWired a count id → AreWires a self.new }
    {
        if self.kept.len() as u64 + 2 == count {
            let _refused = self.kept.push(id);
        }
    }
}

impl Drawing {
    /// Puts `count` wires side by side, from the right.
    pub(crate) fn wires(&mut self, count: u64) -> Result<DiagramId, EvalRefusal>
        requires { 1 ≤ count }
        ensures wired { IfOk result (IsWired self.new.diagrams count) }
        ensures refused { IfErr result (λ e. (e ≡ NoMemory) ⊎ ((s : State) → side_by_side count s ≡ Err e)) }
        ensures adds { AddsDiagrams self.old self.new }
    {
        if let Some(id) = self.kept_wires(count) {
            return Ok(id);
        }
        let wire = self.leaf(&Node::Prim(Prim::Wire))?;
        let mut whole = wire;
        let mut done = 1;
        'widening: while done < count {
            match self.wider(wire, whole, done) {
                Ok(id) => whole = id,
                Err(refusal) => return Err(refusal),
            }
            done += 1;
        }
        Ok(whole)
    }

    // Puts one wire more beside `count` wires, or finds the diagram that is kept.
    fn wider(
        &mut self,
        wire: DiagramId,
        whole: DiagramId,
        count: u64,
    ) -> Result<DiagramId, EvalRefusal>
        requires wire { Draws self.old.diagrams wire (Leaf prim.Wire) }
        requires whole { IsWired self.old.diagrams count whole }
        requires some { 1 ≤ count }
        requires more { count + 1 < 2 ^ 64 }
        ensures wired { IfOk result (IsWired self.new.diagrams (count + 1)) }
        ensures refused { IfErr result (λ e. (e ≡ NoMemory) ⊎ ((s : State) → side_by_side (count + 1) s ≡ Err e)) }
        ensures adds { AddsDiagrams self.old self.new }
    {
        if let Some(id) = self.kept_wires(count + 1) {
            return Ok(id);
        }
        match self.put_node(&Node::Par {
            left: wire,
            right: whole,
        }) {
            Ok(id) => {
                self.keep_wires(count + 1, id);
                Ok(id)
            }
            Err(refusal) => Err(refusal),
        }
    }

    // The diagram of `count` wires, where it is kept.
    fn kept_wires(&self, count: u64) -> Option<DiagramId>
        ensures { IfSome result (IsWired self.now.diagrams count) }
    {
        self.wires.get(count)
    }

    // Keeps the diagram of `count` wires.
    fn keep_wires(&mut self, count: u64, id: DiagramId)
        requires { IsWired self.old.diagrams count id }
        ensures { self.new ≡ self.old }
    {
        self.wires.keep(count, id);
    }
}
