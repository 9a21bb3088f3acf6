// The control script.

ghost use Rattle.std.specs.Prelude.{◌≡◌, ◌^◌, ◌<◌, [], length, option_copied, IsTrue, IsSome, IfOk, IfErr, IsErrOf, Ok, Err};
ghost use Rattle.std.specs.List.{AllByRecursion};
ghost use Rattle.fv_base.specs.declared.role.Role.TheVariants.{Controls};
ghost use Rattle.fv_outside.specs.headline.Desk.{KeepsFaults};
ghost use Rattle.fv_control.specs.Laws.{NeverFall, IsOfControls};
ghost use Rattle.fv_top_report.specs.declared.refusal.Refusal.TheVariants.{ReadFault};
ghost use Rattle.fv_top.specs.inner.Promise.{IsScriptRefusal};
ghost use Rattle.fv_top_files.specs.headline.Loading.{HasScript};
ghost use Rattle.fv_top_files.specs.Loading.{ReadsFile, StopsLoading};

use fv_base::limits::LONGEST_TEXT;
use fv_control::{Script, scripts_are_lawful};
use fv_diagram::ControlInfo;
use fv_outside::{Desk, Role};
use fv_top_files::{read_front, read_refusal};
use fv_top_report::Refusal;
use std::alloc::Global;

/// A script has at most 1,048,576 bytes, and one byte more shows that it is too long.
const SCRIPT_BYTES: usize = LONGEST_TEXT + 1;

/// Loads the script of this name for these controls; without a name, one that changes nothing.
#[tactic(auto, using(fv_outside::proofs::lemmas::States::steps, fv_top_files::proofs::lemmas::Loads::reading))]
pub fn load_script<D: Desk>(
    alloc: Global,
    desk: &mut D,
    name: Option<&str>,
    controls: &[ControlInfo],
) -> Result<Script, Refusal>
    requires { length controls.now < 2 ^ 32 }
    ensures reads { ReadsFile Controls (option_copied name.entry) (D.state desk.old) (D.state desk.new) }
    ensures spelled { IfOk result (λ s. IsTrue (D.state desk.old).tells → HasScript (option_copied name.entry) (D.state desk.old).files controls.now (Ok s)) }
    // A script that is accepted was read to its end.
    ensures whole { IfOk result (λ s. IsTrue (D.state desk.old).tells → IsSome (option_copied name.entry) → (D.state desk.new).left Controls ≡ []) }
    // Its frames never fall, and it gives controls that are there values within their ranges.
    ensures order { IfOk result (NeverFall 0) }
    ensures lawful { IfOk result (AllByRecursion (IsOfControls controls.now)) }
    ensures err { IfErr result (StopsLoading Controls (option_copied name.entry) IsScriptRefusal
        (λ e. HasScript (option_copied name.entry) (D.state desk.old).files controls.now (Err e)) (D.state desk.old) (D.state desk.new)) }
    ensures steady { (IsErrOf result (ReadFault Controls) → ⊥) → KeepsFaults (D.state desk.old) (D.state desk.new) }
{
    // For the prover: what a script spells is in order, and of its controls.
    scripts_are_lawful();
    let name = match name {
        Some(name) => name,
        None => {
            let script = Script::read(alloc, &[], controls)?;
            return Ok(script);
        }
    };
    let bytes = match read_front(alloc, desk, Role::Controls, name, SCRIPT_BYTES) {
        Ok(bytes) => bytes,
        Err(error) => return Err(read_refusal(Role::Controls, error)),
    };
    let script = Script::read(alloc, &bytes, controls)?;
    Ok(script)
}
