// The answer to a text, as one line.

ghost use Rattle.std.specs.Prelude.{◌<◌};
ghost use Rattle.fv_diagram.specs.Arena.{count_of};

use fv_diagram::{ControlInfo, DiagramId, Diagrams, Node};
use fv_eval::{EvalRefusal, Program, evaluate};
use fv_lex::tokens;
use fv_parse::parse;
use std::alloc::{AllocError, Global};

fn add_bytes(line: &mut String, bytes: &[u8]) -> Result<(), AllocError> {
    for b in bytes {
        line.push(*b as char)?;
    }
    Ok(())
}

// A diagram, each composition in parentheses; a bind has its slot and its body in brackets.
fn add_diagram(line: &mut String, diagrams: &Diagrams, id: DiagramId) -> Result<(), AllocError>
    requires { id < count_of diagrams.now }
{
    let (sign, left, right) = match diagrams.node(id) {
        Node::Prim(primitive) => return write!(line, "{primitive:?}"),
        Node::Number(n) => return write!(line, "{n}"),
        Node::Control(k) => return write!(line, "control {k}"),
        Node::Slot(s) => return write!(line, "slot {s}"),
        Node::Wave(table) => return write!(line, "waveform {:?}", diagrams.values(table)),
        Node::Table { table, writes } => {
            return write!(line, "table {:?} {writes}", diagrams.values(table));
        }
        Node::Bind { slot, body } => {
            write!(line, "[{slot} ")?;
            add_diagram(line, diagrams, body)?;
            return line.push_str("]");
        }
        Node::Par { left, right } => (",", left, right),
        Node::Seq { left, right } => (":", left, right),
        Node::Split { left, right } => ("<:", left, right),
        Node::Merge { left, right } => (":>", left, right),
        Node::Rec { left, right } => ("~", left, right),
    };
    line.push_str("(")?;
    add_diagram(line, diagrams, left)?;
    line.push_str(sign)?;
    add_diagram(line, diagrams, right)?;
    line.push_str(")")
}

// A word, and a name or a label after it.
fn named(alloc: Global, word: &str, name: &[u8]) -> Result<String, AllocError> {
    let mut line = format!(in alloc; "{word} ")?;
    add_bytes(&mut line, name)?;
    Ok(line)
}

// The line of a refusal.
fn refused(alloc: Global, refusal: EvalRefusal) -> Result<String, AllocError> {
    match refusal {
        EvalRefusal::UnknownName { name } => named(alloc, "UnknownName", name.bytes()),
        EvalRefusal::ControlClash { label } => named(alloc, "ControlClash", label.bytes()),
        EvalRefusal::ControlBounds { label } => named(alloc, "ControlBounds", label.bytes()),
        other => format!(in alloc; "{other:?}"),
    }
}

fn add_control(line: &mut String, control: &ControlInfo) -> Result<(), AllocError> {
    write!(
        line,
        "; {:?} {} {} {} ",
        control.kind, control.init, control.min, control.max
    )?;
    add_bytes(line, control.label.bytes())
}

// The arity, the diagram and the controls of a program.
fn described(alloc: Global, program: &Program) -> Result<String, AllocError> {
    let arity = program.diagrams.arity(program.root);
    let mut line = format!(in alloc; "{} to {}: ", arity.inputs, arity.outputs)?;
    add_diagram(&mut line, &program.diagrams, program.root)?;
    for control in program.controls.as_slice() {
        add_control(&mut line, control)?;
    }
    Ok(line)
}

/// The answer to a text: its arity, its diagram and its controls, or its refusal.
pub fn answer(alloc: Global, text: &[u8]) -> Result<String, AllocError> {
    let Ok(found) = tokens(alloc, text) else {
        return String::from_str(alloc, "no tokens");
    };
    let Ok(tree) = parse(alloc, &found) else {
        return String::from_str(alloc, "no tree");
    };
    match evaluate(alloc, &tree) {
        Ok(program) => described(alloc, &program),
        Err(refusal) => refused(alloc, refusal),
    }
}
