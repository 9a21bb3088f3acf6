// A program's text: its tokens, their tree, and the tree's program.

ghost use Rattle.std.specs.Prelude.{◌≡◌, ◌⊎◌, ◌≤◌, ◌<◌, length, IfOk, IfErr, OnOk, Ok, Err};
ghost use Rattle.fv_base.specs.declared.limits.TheConstants.{MOST_CHANNELS};
ghost use Rattle.fv_interval.specs.Arena.{count_of, tree_of};
ghost use Rattle.fv_interval.specs.Diagram.{inputs, outputs};
ghost use Rattle.fv_interval.specs.Delays.{AreAccepted};
ghost use Rattle.fv_top_report.specs.headline.Lines.{row_of};
ghost use Rattle.fv_top_report.specs.declared.refusal.Refusal.TheVariants.{NoMemory};
ghost use Rattle.fv_top_program.specs.headline.Compiled.{Compiled};
ghost use Rattle.fv_top_program.specs.Compiled.{compiled_of, CanPlay};
ghost use Rattle.fv_top_program.specs.headline.Program.{narrow, with_channels, delayed, first_bad, delays_in};
ghost use Rattle.fv_top_program.specs.Program.{IsProgram, IsRefusedText, IsOfText};
ghost use Rattle.fv_base.specs.declared.limits.TheConstants.{VISIT_LIMIT};

use fv_base::limits::MOST_CHANNELS;
use fv_eval::{Program, evaluate};
use fv_interval::{Delays, spans, spans_of};
use fv_lex::tokens;
use fv_parse::parse;
use fv_top_report::Refusal;
use std::alloc::Global;

/// The program that a text is. A text that is none is refused for the first that applies: its bytes, its tokens, its tree,
/// its value, its channels, its delays.
pub fn read_program(alloc: Global, text: &[u8]) -> Result<(Program, Delays), Refusal>
    // What is answered is the text's program, and its delays.
    ensures found { IfOk result (λ p. IsProgram text.now (compiled_of p.0)) }
    ensures root { IfOk result (λ p. p.0.root < count_of p.0.diagrams) }
    ensures plays { IfOk result (λ p. CanPlay (compiled_of p.0)) }
    ensures controls { IfOk result (λ p. length (compiled_of p.0).controls ≤ VISIT_LIMIT) }
    ensures delays { IfOk result (λ p. AreAccepted (delays_in (compiled_of p.0)) p.1) }
    // Only a text that is no program is refused, and for its cause.
    ensures refused { IfErr result (λ e. (e ≡ NoMemory) ⊎ (IsOfText e × IsRefusedText text.now e)) }
{
    let tokens = tokens(alloc, text)?;
    let tree = parse(alloc, &tokens)?;
    let program = evaluate(alloc, &tree)?;
    check_arity(&program)?;
    let delays = check_delays(alloc, &program)?;
    Ok((program, delays))
}

// Whether its channels can be those of files.
fn check_arity(program: &Program) -> Result<(), Refusal>
    ensures ok { OnOk result (narrow (compiled_of program.now) ≡ Ok (compiled_of program.now)) }
    ensures some { OnOk result (1 ≤ outputs (tree_of program.now.diagrams program.now.root)) }
    ensures few { OnOk result (outputs (tree_of program.now.diagrams program.now.root) ≤ MOST_CHANNELS) }
    ensures narrow { OnOk result (inputs (tree_of program.now.diagrams program.now.root) ≤ MOST_CHANNELS) }
    ensures err { IfErr result (λ e. IsOfText e × (narrow (compiled_of program.now) ≡ Err e)) }
{
    let arity = program.diagrams.arity(program.root);
    check_channels(arity.inputs, arity.outputs)
}

/// Whether `inputs` inputs and `outputs` outputs can be the channels of files.
pub fn check_channels(inputs: u32, outputs: u32) -> Result<(), Refusal>
    ensures ok { OnOk result ((p : Compiled) → with_channels inputs outputs p ≡ Ok p) }
    ensures some { OnOk result (1 ≤ outputs) }
    ensures few { OnOk result (outputs ≤ MOST_CHANNELS) }
    ensures narrow { OnOk result (inputs ≤ MOST_CHANNELS) }
    ensures err { IfErr result (λ e. ((row_of e).number ≡ 29) × ((p : Compiled) → with_channels inputs outputs p ≡ Err e)) }
{
    if outputs == 0 {
        return Err(Refusal::Channels { have: 0, want: 1 });
    }
    if MOST_CHANNELS < outputs {
        return Err(Refusal::Channels {
            have: outputs,
            want: MOST_CHANNELS,
        });
    }
    if MOST_CHANNELS < inputs {
        return Err(Refusal::Channels {
            have: inputs,
            want: MOST_CHANNELS,
        });
    }
    Ok(())
}

// Its delays, where they are short.
fn check_delays(alloc: Global, program: &Program) -> Result<Delays, Refusal>
    ensures ok { OnOk result (delayed (compiled_of program.now) (first_bad (delays_in (compiled_of program.now))) ≡ Ok (compiled_of program.now)) }
    ensures accepted { IfOk result (AreAccepted (delays_in (compiled_of program.now))) }
    ensures err { IfErr result (λ e. (e ≡ NoMemory)
        ⊎ (IsOfText e × (delayed (compiled_of program.now) (first_bad (delays_in (compiled_of program.now))) ≡ Err e))) }
{
    let controls = spans_of(alloc, program.controls.as_slice())?;
    let delays = spans(alloc, &program.diagrams, program.root, &controls)?;
    Ok(delays)
}
