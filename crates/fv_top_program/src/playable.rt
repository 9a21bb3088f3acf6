// What is played of the program that a file is.

ghost use Rattle.std.specs.Prelude.{◌≡◌, ◌⊎◌, IfOk, IfErr, Ok, Err};
ghost use Rattle.fv_engine_render.specs.Controls.{spans_of};
ghost use Rattle.fv_diagram.specs.declared.control.ControlInfo.{ControlInfo as Control};
ghost use Rattle.fv_engine_render.specs.headline.Plans.{IsGraphOf};
ghost use Rattle.fv_top_report.specs.declared.refusal.Refusal.TheVariants.{NoMemory};
ghost use Rattle.fv_top_program.specs.headline.Compiled.{Compiled};
ghost use Rattle.fv_top_program.specs.Compiled.{compiled_of, CanPlay};
ghost use Rattle.fv_top_program.specs.headline.Kinds.{FileIs};
ghost use Rattle.fv_top_program.specs.Kinds.{IsOfKind};
ghost use Rattle.fv_top_program.specs.Reads.{AreRead, IsRead, compiled_in};
ghost use Rattle.fv_top_program.specs.Playables.{IsPlayable};

use crate::rack::rack;
use crate::{Programs, Read, read_programs};
use fv_diagram::{ControlInfo, Label};
use fv_engine_render::{Source, compile};
use fv_signal::Graph;
use fv_top_report::Refusal;
use fv_top_words::ProgramKind;
use std::alloc::{AllocError, Global};

/// What is played: a graph of signals, how many inputs and outputs it has, and its controls.
#[derive(Drop)]
pub struct Playable {
    pub graph: Graph,
    pub inputs: u32,
    pub outputs: u32,
    pub controls: Vec<ControlInfo>,
}

/// Reads the program that a file of this kind is, as what is played of it.
pub fn read_playable(alloc: Global, kind: ProgramKind, file: &[u8]) -> Result<Playable, Refusal>
    // What is answered is of the file's program.
    ensures found { IfOk result (λ p. (c : Compiled) × FileIs kind file.now (Ok c) × IsPlayable c p) }
    // Only a file that is no program is refused, and for its cause.
    ensures refused { IfErr result (λ e. (e ≡ NoMemory) ⊎ (IsOfKind kind e × FileIs kind file.now (Err e))) }
{
    let programs = read_programs(alloc, kind, file)?;
    let playable = playable_of(alloc, &programs)?;
    Ok(playable)
}

// What is played of programs that were read.
fn playable_of(alloc: Global, programs: &Programs) -> Result<Playable, AllocError>
    requires read { AreRead programs.now }
    requires plays { CanPlay (compiled_in programs.now) }
    ensures { IfOk result (IsPlayable (compiled_in programs.now)) }
{
    match programs {
        Programs::Alone(read) => alone(alloc, read),
        Programs::Rack(reads) => rack(alloc, reads),
    }
}

// Of one program.
fn alone(alloc: Global, read: &Read) -> Result<Playable, AllocError>
    requires { IsRead read.now }
    ensures { IfOk result (IsPlayable (compiled_of read.now.program)) }
{
    let graph = graph_of(alloc, read)?;
    let controls = copied(alloc, read.program.controls.as_slice())?;
    let arity = read.program.diagrams.arity(read.program.root);
    Ok(Playable {
        graph,
        inputs: arity.inputs,
        outputs: arity.outputs,
        controls,
    })
}

/// The graph of a program that was read.
pub(crate) fn graph_of(alloc: Global, read: &Read) -> Result<Graph, AllocError>
    requires { IsRead read.now }
    ensures { IfOk result (IsGraphOf (compiled_of read.now.program).diagram (spans_of (compiled_of read.now.program).controls)) }
{
    let source = Source {
        diagrams: &read.program.diagrams,
        root: read.program.root,
        delays: &read.delays,
        controls: read.program.controls.as_slice(),
    };
    compile(alloc, &source)
}

// A copy of the controls.
fn copied(alloc: Global, controls: &[ControlInfo]) -> Result<Vec<ControlInfo>, AllocError>
    ensures { IfOk result (λ v. v.items ≡ controls.now) }
{
    let mut all = Vec::with_capacity(alloc, controls.len())?;
    for control in controls {
        let copy = copy_of(alloc, control)?;
        all.push(copy)?;
    }
    Ok(all)
}

// A copy of a control.
fn copy_of(alloc: Global, control: &ControlInfo) -> Result<ControlInfo, AllocError>
    ensures { IfOk result (λ (c : Control). c ≡ control.now) }
{
    let label = Label::new(alloc, control.label.bytes())?;
    Ok(ControlInfo {
        kind: control.kind,
        label,
        init: control.init,
        min: control.min,
        max: control.max,
    })
}
