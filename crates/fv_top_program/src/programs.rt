// The programs of a file.

ghost use Rattle.std.specs.Prelude.{◌≡◌, ◌⊎◌, IfOk, IfErr, Ok, Err};
ghost use Rattle.fv_top_report.specs.declared.refusal.Refusal.TheVariants.{NoMemory};
ghost use Rattle.fv_top_program.specs.Compiled.{CanPlay};
ghost use Rattle.fv_top_program.specs.headline.Kinds.{FileIs};
ghost use Rattle.fv_top_program.specs.Kinds.{IsOfKind};
ghost use Rattle.fv_top_program.specs.Reads.{AreRead, compiled_in};

use crate::jobs::read_rack;
use crate::read_program;
use fv_eval::Program;
use fv_interval::Delays;
use fv_top_report::Refusal;
use fv_top_words::ProgramKind;
use std::alloc::Global;

/// A program, and its delays.
#[derive(Drop)]
pub struct Read {
    pub program: Program,
    pub delays: Delays,
}

/// What is to be played: one program, or the programs of several jobs side by side.
#[derive(Drop)]
pub enum Programs {
    Alone(Read),
    Rack(Vec<Read>),
}

/// What a file of this kind is. One that is no program is refused for the first that applies: a text as `read_program` says; a
/// file of jobs for its length, the number of its jobs, the first text that is none, all delays, all channels.
pub fn read_programs(alloc: Global, kind: ProgramKind, file: &[u8]) -> Result<Programs, Refusal>
    // What is answered is what the file is.
    ensures found { IfOk result (λ p. FileIs kind file.now (Ok (compiled_in p))) }
    ensures plays { IfOk result (λ p. CanPlay (compiled_in p)) }
    ensures read { IfOk result AreRead }
    // Only a file that is no program is refused, and for its cause.
    ensures refused { IfErr result (λ e. (e ≡ NoMemory) ⊎ (IsOfKind kind e × FileIs kind file.now (Err e))) }
{
    match kind {
        ProgramKind::Alone => {
            let (program, delays) = read_program(alloc, file)?;
            Ok(Programs::Alone(Read { program, delays }))
        }
        ProgramKind::Rack => {
            let reads = read_rack(alloc, file)?;
            Ok(Programs::Rack(reads))
        }
    }
}
