// The first bytes of a file.

ghost use Rattle.std.specs.Prelude.{◌≡◌, List, ℕ, take, drop, IsTrue, IfOk, IsErrOf, Some};
ghost use Rattle.fv_outside.specs.declared.transfer.ReadError.TheVariants as errors;
ghost use Rattle.fv_outside.specs.headline.Desk.{KeepsFaults};
ghost use Rattle.fv_top_files.specs.Loading.{ReadsFile, CannotRead, IsFile, refusal_of_read};

use fv_outside::{Desk, ReadError, Role, read_up_to};
use fv_top_report::Refusal;
use std::alloc::Global;

/// Reads the first `count` bytes of the file of this name, or all of them where it has fewer.
#[tactic(auto, using(fv_outside::proofs::lemmas::States::steps, crate::proofs::lemmas::Loads::reading))]
pub fn read_front<D: Desk>(
    alloc: Global,
    desk: &mut D,
    role: Role,
    name: &str,
    count: usize,
) -> Result<Vec<u8>, ReadError>
    ensures reads { ReadsFile role (Some name.now) (D.state desk.old) (D.state desk.new) }
    ensures bytes { IfOk result (λ v. IsTrue (D.state desk.old).tells → (bytes : List ℕ) × IsFile name.now bytes (D.state desk.old)
        × (v.items ≡ take count bytes) × ((D.state desk.new).left role ≡ drop count bytes)) }
    ensures failed { IsErrOf result ReadError.Failed → CannotRead role (Some name.now) (D.state desk.old) (D.state desk.new) }
    ensures steady { (IsErrOf result ReadError.Failed → ⊥) → KeepsFaults (D.state desk.old) (D.state desk.new) }
{
    desk.begin_read(role, name)?;
    let bytes = read_up_to(alloc, desk, role, count)?;
    Ok(bytes)
}

/// The refusal of what could not be read.
pub fn read_refusal(role: Role, error: ReadError) -> Refusal
    ensures { result ≡ (refusal_of_read role error) }
{
    match error {
        ReadError::Failed => Refusal::ReadFault { role },
        ReadError::NoMemory => Refusal::NoMemory,
    }
}
