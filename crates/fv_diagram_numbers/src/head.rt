// The parts of a diagram, and the head among them.

ghost use Rattle.std.specs.Prelude.{◌≡◌, ◌<◌, ◌≤◌, [], ◌∷◌, length, take, drop, nat_eq, IfOk, MatchOption};
ghost use Rattle.std.specs.List.{list_all};
ghost use Rattle.fv_diagram.specs.headline.Diagram.{Par};
ghost use Rattle.fv_diagram.specs.Arena.{count_of, tree_of};
ghost use Rattle.fv_diagram_numbers.specs.headline.Heads.{all_outputs, cut, is_fixed, is_head, parts};
ghost use Rattle.fv_diagram_numbers.specs.Lists.{AreThere, trees_of};

use crate::fixed::is_fixed;
use fv_diagram::{DiagramId, Diagrams, Node};
use std::alloc::{AllocError, Global};

/// A table's head, and what the table takes.
#[derive(Drop)]
pub struct Pieces {
    pub head: Vec<DiagramId>,
    pub rest: Vec<DiagramId>,
}

/// What stands before a table primitive, cut into the table's head and what the table takes.
pub fn head_and_rest(
    alloc: Global,
    diagrams: &Diagrams,
    before: DiagramId,
) -> Result<Pieces, AllocError>
    requires { before < count_of diagrams.now }
    ensures head { IfOk result (λ p. AreThere diagrams.now p.head.items) }
    ensures rest { IfOk result (λ p. AreThere diagrams.now p.rest.items) }
    ensures cut { IfOk result (λ p. cut 2 (parts (tree_of diagrams.now before))
        ≡ (trees_of diagrams.now p.head.items, trees_of diagrams.now p.rest.items)) }
{
    let parts = parts(alloc, diagrams, before)?;
    let count = head_of(diagrams, parts.as_slice());
    let head = Vec::from_slice(alloc, &parts[..count])?;
    let rest = Vec::from_slice(alloc, &parts[count..])?;
    Ok(Pieces { head, rest })
}

// The parts of a diagram, in order.
fn parts(alloc: Global, diagrams: &Diagrams, whole: DiagramId) -> Result<Vec<DiagramId>, AllocError>
    requires { whole < count_of diagrams.now }
    ensures there { IfOk result (λ v. AreThere diagrams.now v.items) }
    ensures parts { IfOk result (λ v. trees_of diagrams.now v.items ≡ parts (tree_of diagrams.now whole)) }
{
    let mut found = Vec::new(alloc);
    let mut waiting = Vec::new(alloc);
    waiting.push(whole)?;
    while let Some(id) = waiting.pop() {
        match sides(diagrams, id) {
            Some((left, right)) => {
                waiting.push(right)?;
                waiting.push(left)?;
            }
            None => found.push(id)?,
        }
    }
    Ok(found)
}

// The two sides of a parallel composition; `None` of every other diagram.
fn sides(diagrams: &Diagrams, id: DiagramId) -> Option<(DiagramId, DiagramId)>
    requires { id < count_of diagrams.now }
    ensures { MatchOption result (parts (tree_of diagrams.now id) ≡ tree_of diagrams.now id ∷ [])
        (λ p. (p.0 < id) × (p.1 < id) × (tree_of diagrams.now id ≡ Par (tree_of diagrams.now p.0) (tree_of diagrams.now p.1))) }
{
    match diagrams.node(id) {
        Node::Par { left, right } => Some((left, right)),
        _ => None,
    }
}

// How many of the first parts, as few as may be, have two outputs together.
fn head_of(diagrams: &Diagrams, parts: &[DiagramId]) -> usize
    requires { AreThere diagrams.now parts.now }
    ensures cut { cut 2 (trees_of diagrams.now parts.now)
        ≡ (trees_of diagrams.now (take result parts.now), trees_of diagrams.now (drop result parts.now)) }
    ensures within { result ≤ length parts.now }
{
    let mut wanted = 2u32;
    for i in 0..parts.len() {
        if wanted == 0 {
            return i;
        }
        wanted = wanted.saturating_sub(diagrams.arity(parts[i]).outputs);
    }
    parts.len()
}

/// Whether parts give a size and numbers, and depend on nothing else.
pub fn is_head(alloc: Global, diagrams: &Diagrams, parts: &[DiagramId]) -> Result<bool, AllocError>
    requires { AreThere diagrams.now parts.now }
    ensures { IfOk result (λ b. b ≡ is_head (trees_of diagrams.now parts.now)) }
{
    if !give_two(diagrams, parts) {
        return Ok(false);
    }
    are_fixed(alloc, diagrams, parts)
}

// Whether parts give two streams together.
fn give_two(diagrams: &Diagrams, parts: &[DiagramId]) -> bool
    requires { AreThere diagrams.now parts.now }
    ensures { result ≡ nat_eq (all_outputs (trees_of diagrams.now parts.now)) 2 }
{
    let mut left = 2;
    for part in parts {
        let outputs = diagrams.arity(*part).outputs;
        if outputs > left {
            return false;
        }
        left -= outputs;
    }
    left == 0
}

// Whether each of them depends on nothing.
fn are_fixed(alloc: Global, diagrams: &Diagrams, parts: &[DiagramId]) -> Result<bool, AllocError>
    requires { AreThere diagrams.now parts.now }
    ensures { IfOk result (λ b. b ≡ list_all is_fixed (trees_of diagrams.now parts.now)) }
{
    for part in parts {
        if !is_fixed(alloc, diagrams, *part)? {
            return Ok(false);
        }
    }
    Ok(true)
}
