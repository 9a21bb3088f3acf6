// The arity of a node over earlier diagrams.

ghost use Rattle.std.specs.Prelude.{◌≡◌, ◌≢◌, ◌-◌, ◌<◌, ◌≤◌, ◌↔◌, ◌⊎◌, IfOk, IfErr, OnOk, MatchResult, IsTrue};
ghost use Rattle.fv_diagram.specs.headline.Diagram.{primitive_inputs, primitive_outputs, table_inputs};
ghost use Rattle.fv_diagram.specs.Composed.{IsComposed};
ghost use Rattle.fv_diagram.specs.Arena.{count_of, tree_with, ChildrenBelow, IsArity};
ghost use Rattle.fv_arity.specs.Compositions.{IsMultiple, Composes, HasComposedParts, IsRefused};

use crate::refusal::{ArityKind, ArityRefusal};
use fv_diagram::{Arity, Diagrams, Node, Prim};

/// How many streams a node over earlier diagrams takes and gives, or the condition of its composition that fails.
/// It takes no memory.
pub fn arity_of(diagrams: &Diagrams, node: Node) -> Result<Arity, ArityRefusal>
    requires { ChildrenBelow (count_of diagrams.now) node }
    ensures arity { IfOk result (λ a. IsArity (tree_with diagrams.now node) a) }
    ensures composes { OnOk result (Composes (tree_with diagrams.now node)) }
    ensures composed { OnOk result (HasComposedParts (tree_with diagrams.now node) → IsComposed (tree_with diagrams.now node)) }
    ensures refused { IfErr result (λ e. IsRefused e (tree_with diagrams.now node)) }
{
    match node {
        Node::Prim(prim) => Ok(primitive(prim)),
        Node::Number(_) => Ok(arity(0, 1)),
        Node::Control(_) => Ok(arity(0, 1)),
        Node::Slot(_) => Ok(arity(0, 1)),
        Node::Wave(_) => Ok(arity(0, 2)),
        Node::Table { table: _, writes } => Ok(arity(table(writes), 1)),
        Node::Bind { slot: _, body } => {
            let a = diagrams.arity(body);
            Ok(arity(a.inputs + 1, a.outputs))
        }
        Node::Par { left, right } => {
            let a = diagrams.arity(left);
            let b = diagrams.arity(right);
            Ok(arity(a.inputs + b.inputs, a.outputs + b.outputs))
        }
        Node::Seq { left, right } => sequence(diagrams.arity(left), diagrams.arity(right)),
        Node::Split { left, right } => split(diagrams.arity(left), diagrams.arity(right)),
        Node::Merge { left, right } => merge(diagrams.arity(left), diagrams.arity(right)),
        Node::Rec { left, right } => feedback(diagrams.arity(left), diagrams.arity(right)),
    }
}

// An arity.
fn arity(inputs: u32, outputs: u32) -> Arity
    ensures { result ≡ record { inputs = inputs; outputs = outputs } }
{
    Arity { inputs, outputs }
}

// The arity of a primitive.
fn primitive(prim: Prim) -> Arity
    ensures { (result.inputs ≡ primitive_inputs prim) × (result.outputs ≡ primitive_outputs prim) }
{
    match prim {
        Prim::Wire => arity(1, 1),
        Prim::Cut => arity(1, 0),
        Prim::Mem => arity(1, 1),
        Prim::Prefix => arity(2, 1),
        Prim::Delay => arity(2, 1),
        Prim::Int => arity(1, 1),
        Prim::Attach => arity(2, 1),
        Prim::Point(op) => arity(op.inputs() as u32, 1),
        Prim::ReadTable => arity(3, 1),
        Prim::WriteTable => arity(5, 1),
    }
}

// How many streams a table takes.
fn table(writes: bool) -> u32
    ensures { result ≡ table_inputs writes }
{
    if writes { 3 } else { 1 }
}

// A refusal.
fn refused(kind: ArityKind, left: u32, right: u32) -> Result<Arity, ArityRefusal>
    ensures { result ≡ Err (ArityRefusal.Arity kind left right) }
{
    Err(ArityRefusal::Arity { kind, left, right })
}

// The arity of `A:B`.
fn sequence(a: Arity, b: Arity) -> Result<Arity, ArityRefusal>
    ensures { MatchResult result
        (λ r. (r ≡ record { inputs = a.inputs; outputs = b.outputs }) × (a.outputs ≡ b.inputs))
        (λ e. (e ≡ ArityRefusal.Arity ArityKind.Seq a.outputs b.inputs) × (a.outputs ≢ b.inputs)) }
{
    if a.outputs == b.inputs {
        Ok(arity(a.inputs, b.outputs))
    } else {
        refused(ArityKind::Seq, a.outputs, b.inputs)
    }
}

// Whether `n` is a multiple of `m`, and neither is 0.
fn is_multiple(n: u32, m: u32) -> bool
    ensures { IsTrue result ↔ IsMultiple n m }
{
    n >= 1 && m >= 1 && n % m == 0
}

// The arity of `A<:B`.
fn split(a: Arity, b: Arity) -> Result<Arity, ArityRefusal>
    ensures { MatchResult result
        (λ r. (r ≡ record { inputs = a.inputs; outputs = b.outputs }) × IsMultiple b.inputs a.outputs)
        (λ e. (e ≡ ArityRefusal.Arity ArityKind.Split a.outputs b.inputs) × (IsMultiple b.inputs a.outputs → ⊥)) }
{
    if is_multiple(b.inputs, a.outputs) {
        Ok(arity(a.inputs, b.outputs))
    } else {
        refused(ArityKind::Split, a.outputs, b.inputs)
    }
}

// The arity of `A:>B`.
fn merge(a: Arity, b: Arity) -> Result<Arity, ArityRefusal>
    ensures { MatchResult result
        (λ r. (r ≡ record { inputs = a.inputs; outputs = b.outputs }) × IsMultiple a.outputs b.inputs)
        (λ e. (e ≡ ArityRefusal.Arity ArityKind.Merge a.outputs b.inputs) × (IsMultiple a.outputs b.inputs → ⊥)) }
{
    if is_multiple(a.outputs, b.inputs) {
        Ok(arity(a.inputs, b.outputs))
    } else {
        refused(ArityKind::Merge, a.outputs, b.inputs)
    }
}

// The arity of `A~B`.
fn feedback(a: Arity, b: Arity) -> Result<Arity, ArityRefusal>
    ensures { MatchResult result
        (λ r. (r ≡ record { inputs = a.inputs - b.outputs; outputs = a.outputs }) × (b.inputs ≤ a.outputs) × (b.outputs ≤ a.inputs))
        (λ e. ((e ≡ ArityRefusal.Arity ArityKind.RecOut a.outputs b.inputs) × (a.outputs < b.inputs))
        ⊎ ((e ≡ ArityRefusal.Arity ArityKind.RecIn a.inputs b.outputs) × (b.inputs ≤ a.outputs) × (a.inputs < b.outputs))) }
{
    if a.outputs < b.inputs {
        refused(ArityKind::RecOut, a.outputs, b.inputs)
    } else if a.inputs < b.outputs {
        refused(ArityKind::RecIn, a.inputs, b.outputs)
    } else {
        Ok(arity(a.inputs - b.outputs, a.outputs))
    }
}
