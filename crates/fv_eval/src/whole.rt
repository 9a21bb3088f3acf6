// The evaluation of a whole program.

ghost use Rattle.std.specs.Prelude.{ℕ, ◌≡◌, ◌⊎◌, ◌<◌, [], true, false, codes, filter, IfErr, IfNone, IfOk, IfSome, Ok, Err};
ghost use Rattle.fv_parse_grammar.specs.headline.Tree.{items};
ghost use Rattle.fv_parse.specs.headline.Trees.{text_of};
ghost use Rattle.fv_parse.specs.Trees.{first_named, program_of, size_of, tree_in};
ghost use Rattle.fv_diagram.specs.headline.Diagram.{has_table_primitive};
ghost use Rattle.fv_diagram.specs.Diagram.{HasNumbers};
ghost use Rattle.fv_diagram.specs.Arena.{count_of, tree_of};
ghost use Rattle.fv_rules.specs.declared.refusal.EvalRefusal.TheVariants.{NoMemory, TableForm};
ghost use Rattle.fv_rules.specs.declared.refusal.TableCause.TheVariants.{Primitive};
ghost use Rattle.fv_eval_scopes.specs.declared.value.Value.TheVariants.{Diagram};
ghost use Rattle.fv_rules.specs.headline.Values.{is_of};
ghost use Rattle.fv_rules.specs.headline.Rules.{program_value, start};
ghost use Rattle.fv_rules.specs.Runnable.{IsRunnable};
ghost use Rattle.fv_rules.specs.Machine.{first, meaning};
ghost use Rattle.fv_eval.specs.inner.Continuations.{Continues, IsNew};
ghost use Rattle.fv_eval.specs.inner.Names.{defined_by};

use crate::continuation::{Continuation, Focus, ForDiagram};
use crate::machine::Machine;
use fv_base::Word;
use fv_base::limits::VISIT_LIMIT;
use fv_diagram::{DiagramId, Diagrams};
use fv_eval_drawing::Controls;
use fv_eval_lookup::Definitions;
use fv_eval_scopes::{EnvId, Value, canonical};
use fv_parse::{Tree, TreeId, TreeNode};
use fv_rules::{EvalRefusal, TableCause, evaluates_to_runnables, steps_mean};
use std::alloc::{AllocError, Global};
use std::marker::Model;

/// A program's diagram with its arena, and its controls. It can run: its compositions fit, each slot is bound, and it reads these controls alone.
#[derive(Drop)]
pub struct Program {
    pub diagrams: Diagrams,
    pub root: DiagramId,
    pub controls: Controls,
}

impl Model for Program {
    ghost use Rattle.std.specs.Prelude.{◌<◌};
    ghost use Rattle.fv_diagram.specs.Arena.{count_of, tree_of};
    ghost use Rattle.fv_rules.specs.Runnable.{IsRunnable};
    ghost use Rattle.fv_eval.specs.Evaluated.{Evaluated};

    ghost Value = { Evaluated };

    ghost view = { λ p. record { diagrams = p.diagrams; root = p.root; controls = p.controls } };

    ghost invariant = { λ p. (p.root < count_of p.diagrams) × IsRunnable (tree_of p.diagrams p.root) p.controls };
}

// The name that a node defines.
fn defined_by(tree: &Tree, id: TreeId) -> Option<u64>
    requires { id < size_of tree.now }
    ensures { result ≡ defined_by (tree_in tree.now id) }
{
    match tree.node(id) {
        TreeNode::Constant(name, _) => Some(*name),
        TreeNode::Function(name, _, _) => Some(*name),
        _ => None,
    }
}

// The canonical number of the name that a node defines, where that is `process`.
fn process_at(tree: &Tree, id: TreeId) -> Option<u64>
    requires { id < size_of tree.now }
    ensures some { IfSome result (λ n. (text_of tree.now.tokens n ≡ codes "process") × (first_named tree.now.tokens n ≡ n)) }
    ensures none { IfNone result (is_of tree.now.tokens (codes "process") (tree_in tree.now id) ≡ false) }
{
    let name = defined_by(tree, id)?;
    if tree.is_process(name) {
        Some(canonical(tree, name))
    } else {
        None
    }
}

// The canonical number of the name `process`; `None` where the outermost definitions do not define it.
fn process_name(tree: &Tree) -> Option<u64>
    ensures some { IfSome result (λ n. (text_of tree.now.tokens n ≡ codes "process") × (first_named tree.now.tokens n ≡ n)) }
    ensures none { IfNone result (filter (is_of tree.now.tokens (codes "process")) (items (program_of tree.now)) ≡ []) }
{
    'searching: for id in tree.items(tree.root()) {
        if let Some(name) = process_at(tree, *id) {
            return Some(name);
        }
    }
    None
}

// Opens the outermost definitions and calls `process` among them; the machine then wants its diagram.
fn call_process(machine: &mut Machine, tree: &Tree, name: u64) -> Result<Focus, AllocError>
    requires new { IsNew machine.old start }
    requires named { (text_of tree.now.tokens name ≡ codes "process") × (first_named tree.now.tokens name ≡ name) }
    ensures { IfOk result (λ f. Continues tree.now.tokens tree.now machine.new (Ok f) (meaning tree.now.tokens (first (program_of tree.now) start))) }
{
    let env = machine.scopes.open(tree.root(), EnvId::new(0))?;
    machine
        .continuations
        .push(Continuation::Drawn(ForDiagram::Finish))?;
    Ok(Focus::Call { name, env })
}

// A machine that calls `process` among the outermost definitions, and then wants its diagram.
fn started(alloc: Global, tree: &Tree, name: u64) -> Result<(Machine, Focus), AllocError>
    requires { (text_of tree.now.tokens name ≡ codes "process") × (first_named tree.now.tokens name ≡ name) }
    ensures { IfOk result (λ x. Continues tree.now.tokens tree.now x.0 (Ok x.1) (meaning tree.now.tokens (first (program_of tree.now) start))) }
{
    let mut machine = Machine::new(alloc, VISIT_LIMIT);
    let first = call_process(&mut machine, tree, name)?;
    Ok((machine, first))
}

// What a machine has drawn, and the controls that it met.
fn drawn(machine: Machine) -> (Diagrams, Controls)
    ensures { (result.0 ≡ machine.drawing.diagrams) × (result.1 ≡ machine.controls) }
{
    (machine.drawing.finish(), machine.controls)
}

// The program of a machine that is done, in which no table primitive is left.
fn finished(machine: Machine, value: Value) -> Result<Program, EvalRefusal>
    requires flat { (i : ℕ) × (value ≡ Diagram i) }
    requires inside { (i : ℕ) → value ≡ Diagram i → i < count_of machine.drawing.diagrams }
    requires runs { (i : ℕ) → value ≡ Diagram i → has_table_primitive (tree_of machine.drawing.diagrams i) ≡ false
        → IsRunnable (tree_of machine.drawing.diagrams i) machine.controls }
    ensures program { IfOk result
        (λ p. (value ≡ Diagram p.root) × (p.diagrams ≡ machine.drawing.diagrams) × (p.controls ≡ machine.controls)
        × (has_table_primitive (tree_of machine.drawing.diagrams p.root) ≡ false)) }
    ensures refusal { IfErr result (λ e. (e ≡ TableForm Primitive)
        × ((i : ℕ) → value ≡ Diagram i → has_table_primitive (tree_of machine.drawing.diagrams i) ≡ true)) }
    ensures numbers { IfOk result (λ p. HasNumbers (tree_of p.diagrams p.root)) }
{
    let Value::Diagram(root) = value else {
        unreachable!();
    };
    if machine.drawing.has_table_primitive(root) {
        return Err(EvalRefusal::TableForm {
            cause: TableCause::Primitive,
        });
    }
    let (diagrams, controls) = drawn(machine);
    // The arena says here that every number in the diagram has 32 bits.
    let _arity = diagrams.arity(root);
    Ok(Program {
        diagrams,
        root,
        controls,
    })
}

// The program of the `process` that has this name.
fn evaluated(
    alloc: Global,
    tree: &Tree,
    text: &Definitions,
    name: u64,
) -> Result<Program, EvalRefusal>
    requires text { text.now ≡ tree.now }
    requires named { (text_of tree.now.tokens name ≡ codes "process") × (first_named tree.now.tokens name ≡ name) }
    ensures program { IfOk result (λ p. program_value tree.now.tokens (program_of tree.now) ≡ Ok (tree_of p.diagrams p.root, p.controls)) }
    ensures refusal { IfErr result (λ e. (e ≡ NoMemory) ⊎ (program_value tree.now.tokens (program_of tree.now) ≡ Err e)) }
    ensures numbers { IfOk result (λ p. HasNumbers (tree_of p.diagrams p.root)) }
{
    steps_mean();
    evaluates_to_runnables(); // For the prover: the machine ends with what the rules give for the program, and what they give can run.
    let (mut machine, first) = started(alloc, tree, name)?;
    match machine.run(text, first) {
        Ok(value) => finished(machine, value),
        Err(refusal) => Err(refusal),
    }
}

/// The diagram and the controls that a tree's `process` stands for, or the first refusal that the rules meet.
pub fn evaluate(alloc: Global, tree: &Tree) -> Result<Program, EvalRefusal>
    ensures program { IfOk result (λ p. program_value tree.now.tokens (program_of tree.now) ≡ Ok (tree_of p.diagrams p.root, p.controls)) }
    ensures refusal { IfErr result (λ e. (e ≡ NoMemory) ⊎ (program_value tree.now.tokens (program_of tree.now) ≡ Err e)) }
    // What can run: from the type's invariant, said again for readers.
    ensures runs { IfOk result (λ p. (p.root < count_of p.diagrams) × IsRunnable (tree_of p.diagrams p.root) p.controls) }
    ensures numbers { IfOk result (λ p. HasNumbers (tree_of p.diagrams p.root)) }
{
    let Some(name) = process_name(tree) else {
        let name = Word::new(alloc, b"process")?;
        return Err(EvalRefusal::UnknownName { name });
    };
    let text = Definitions::new(alloc, tree)?;
    evaluated(alloc, tree, &text, name)
}
