// The program's file.

ghost use Rattle.std.specs.Prelude.{◌≡◌, ◌<◌, ℕ, List, [], IsTrue, IfOk, IfErr, IsErrOf, Some};
ghost use Rattle.fv_base.specs.declared.role.Role.TheVariants.{Program as program_role};
ghost use Rattle.fv_outside.specs.headline.Desk.{KeepsFaults};
ghost use Rattle.fv_top_report.specs.declared.refusal.Refusal.TheVariants.{ReadFault};
ghost use Rattle.fv_top_program.specs.headline.Program.{TextIs, delays_in};
ghost use Rattle.fv_top_program.specs.Program.{IsProgram, IsOfText};
ghost use Rattle.fv_interval.specs.Delays.{AreAccepted};
ghost use Rattle.fv_diagram.specs.Arena.{count_of};
ghost use Rattle.fv_top_program.specs.headline.Kinds.{FileIs};
ghost use Rattle.fv_top_program.specs.Kinds.{IsOfKind};
ghost use Rattle.fv_top.specs.headline.Promise.{HasNoProgram};
ghost use Rattle.fv_top_program.specs.Compiled.{compiled_of};
ghost use Rattle.fv_top_files.specs.Loading.{ReadsFile, StopsLoading, IsFile};
ghost use Rattle.fv_top.specs.inner.Loaded.{IsProgramOf};

use fv_base::limits::LONGEST_TEXT;
use fv_eval::Program;
use fv_interval::Delays;
use fv_outside::{Desk, Role};
use fv_top_files::{read_front, read_refusal};
use fv_top_program::{Playable, front_is_enough, read_playable, read_program};
use fv_top_report::Refusal;
use fv_top_words::ProgramKind;
use std::alloc::Global;

/// A program's file has at most 1,048,576 bytes, and one byte more shows that it is too long.
const PROGRAM_BYTES: usize = LONGEST_TEXT + 1;

/// Loads the program whose text the file of this name is, with its delays.
#[tactic(auto, using(fv_outside::proofs::lemmas::States::steps, fv_top_files::proofs::lemmas::Loads::reading))]
pub fn load_program<D: Desk>(
    alloc: Global,
    desk: &mut D,
    name: &str,
) -> Result<(Program, Delays), Refusal>
    ensures reads { ReadsFile program_role (Some name.now) (D.state desk.old) (D.state desk.new) }
    ensures spelled { IfOk result (λ p. (text : List ℕ) × IsFile name.now text (D.state desk.old) × IsProgram text (compiled_of p.0)) }
    ensures root { IfOk result (λ p. p.0.root < count_of p.0.diagrams) }
    ensures delays { IfOk result (λ p. AreAccepted (delays_in (compiled_of p.0)) p.1) }
    // Where it is one, the file was read to its end.
    ensures whole { IfOk result (λ p. IsTrue (D.state desk.old).tells → (D.state desk.new).left program_role ≡ []) }
    ensures err { IfErr result (StopsLoading program_role (Some name.now) IsOfText (HasNoProgram TextIs name.now (D.state desk.old).files)
        (D.state desk.old) (D.state desk.new)) }
    ensures steady { (IsErrOf result (ReadFault program_role) → ⊥) → KeepsFaults (D.state desk.old) (D.state desk.new) }
{
    // For the prover: what the bytes up to one past the limit are, the whole file is.
    front_is_enough();
    let text = match read_front(alloc, desk, Role::Program, name, PROGRAM_BYTES) {
        Ok(text) => text,
        Err(error) => return Err(read_refusal(Role::Program, error)),
    };
    let program = read_program(alloc, &text)?;
    Ok(program)
}

/// Loads what is played of the file of this name and kind.
#[tactic(auto, using(fv_outside::proofs::lemmas::States::steps, fv_top_files::proofs::lemmas::Loads::reading))]
pub fn load_playable<D: Desk>(
    alloc: Global,
    desk: &mut D,
    kind: ProgramKind,
    name: &str,
) -> Result<Playable, Refusal>
    ensures reads { ReadsFile program_role (Some name.now) (D.state desk.old) (D.state desk.new) }
    ensures found { IfOk result (IsProgramOf kind name.now (D.state desk.old)) }
    // Where it is one, the file was read to its end.
    ensures whole { IfOk result (λ p. IsTrue (D.state desk.old).tells → (D.state desk.new).left program_role ≡ []) }
    ensures err { IfErr result (StopsLoading program_role (Some name.now) (IsOfKind kind)
        (HasNoProgram (FileIs kind) name.now (D.state desk.old).files) (D.state desk.old) (D.state desk.new)) }
    ensures steady { (IsErrOf result (ReadFault program_role) → ⊥) → KeepsFaults (D.state desk.old) (D.state desk.new) }
{
    // For the prover: what the bytes up to one past the limit are, the whole file is.
    front_is_enough();
    let file = match read_front(alloc, desk, Role::Program, name, PROGRAM_BYTES) {
        Ok(file) => file,
        Err(error) => return Err(read_refusal(Role::Program, error)),
    };
    let playable = read_playable(alloc, kind, &file)?;
    Ok(playable)
}
