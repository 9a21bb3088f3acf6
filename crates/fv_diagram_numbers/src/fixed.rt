// Diagrams that depend on nothing, found piece by piece.

ghost use Rattle.std.specs.Prelude.{◌≡◌, ◌<◌, ◌∷◌, true, reverse, IfOk, OnOk};
ghost use Rattle.fv_diagram.specs.Arena.{count_of, tree_of};
ghost use Rattle.fv_diagram_numbers.specs.declared.fixed.Look.TheVariants.{At};
ghost use Rattle.fv_diagram_numbers.specs.headline.Heads.{is_fixed};
ghost use Rattle.fv_diagram_numbers.specs.inner.Looks.{AreInside, Turns};

use fv_diagram::{DiagramId, Diagrams, Node};
use std::alloc::{AllocError, Global};

/// A piece of the walk.
#[derive(Clone, Copy)]
pub enum Look {
    /// Looks at a diagram.
    At(DiagramId),
    /// Leaves the innermost bind.
    Leave,
}

/// What is still to be looked at, the next piece last, and the slots that are bound then, the innermost last.
#[derive(Drop)]
pub struct Walk {
    pub looks: Vec<Look>,
    pub bound: Vec<u64>,
}

/// Whether a diagram takes nothing and depends on nothing.
pub fn is_fixed(alloc: Global, diagrams: &Diagrams, root: DiagramId) -> Result<bool, AllocError>
    requires { root < count_of diagrams.now }
    ensures { IfOk result (λ b. b ≡ is_fixed (tree_of diagrams.now root)) }
{
    if diagrams.arity(root).inputs != 0 {
        return Ok(false);
    }
    let mut walk = Walk {
        looks: Vec::new(alloc),
        bound: Vec::new(alloc),
    };
    walk.looks.push(Look::At(root))?;
    while let Some(look) = walk.looks.pop() {
        if !turn(&mut walk, diagrams, look)? {
            return Ok(false);
        }
    }
    Ok(true)
}

// Looks at one piece, or puts its parts in its place. Says whether it met nothing that a diagram depends on.
fn turn(walk: &mut Walk, diagrams: &Diagrams, look: Look) -> Result<bool, AllocError>
    requires { AreInside diagrams.now (look ∷ reverse walk.old.looks.items) }
    ensures { IfOk result (λ b. Turns b diagrams.now (look ∷ reverse walk.old.looks.items) (reverse walk.old.bound.items)
        (reverse walk.new.looks.items) (reverse walk.new.bound.items)) }
{
    match look {
        Look::At(id) => visit(walk, diagrams, id),
        Look::Leave => {
            let _ = walk.bound.pop();
            Ok(true)
        }
    }
}

// Looks at a diagram, or puts its parts in its place.
fn visit(walk: &mut Walk, diagrams: &Diagrams, id: DiagramId) -> Result<bool, AllocError>
    requires { AreInside diagrams.now (At id ∷ reverse walk.old.looks.items) }
    ensures { IfOk result (λ b. Turns b diagrams.now (At id ∷ reverse walk.old.looks.items) (reverse walk.old.bound.items)
        (reverse walk.new.looks.items) (reverse walk.new.bound.items)) }
{
    match diagrams.node(id) {
        Node::Prim(prim) => Ok(!prim.is_table()),
        Node::Number(_) => Ok(true),
        Node::Control(_) => Ok(false),
        Node::Slot(slot) => Ok(walk.bound.contains(&slot)),
        Node::Wave(_) => Ok(true),
        Node::Table { .. } => Ok(true),
        Node::Bind { slot, body } => {
            walk.bound.push(slot)?;
            walk.looks.push(Look::Leave)?;
            walk.looks.push(Look::At(body))?;
            Ok(true)
        }
        Node::Par { left, right } => look_at_both(walk, left, right),
        Node::Seq { left, right } => look_at_both(walk, left, right),
        Node::Split { left, right } => look_at_both(walk, left, right),
        Node::Merge { left, right } => look_at_both(walk, left, right),
        Node::Rec { left, right } => look_at_both(walk, left, right),
    }
}

// Puts two diagrams as the next pieces.
fn look_at_both(walk: &mut Walk, left: DiagramId, right: DiagramId) -> Result<bool, AllocError>
    ensures result { IfOk result (λ b. b ≡ true) }
    ensures looks { OnOk result (reverse walk.new.looks.items ≡ At left ∷ At right ∷ reverse walk.old.looks.items) }
    ensures bound { walk.new.bound.items ≡ walk.old.bound.items }
{
    walk.looks.push(Look::At(right))?;
    walk.looks.push(Look::At(left))?;
    Ok(true)
}
