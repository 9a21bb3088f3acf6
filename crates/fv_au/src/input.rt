// The next bytes of the input. A place is how many bytes of the file are before them.

ghost use Rattle.std.specs.Prelude.{◌≡◌, ◌+◌, ◌-◌, ◌^◌, ◌<◌, ◌≤◌, ℕ, List, ◌++◌, length, IsTrue, Ok, Err, IfOk, IfErr, OnOk};
ghost use Rattle.fv_base.specs.declared.role.Role.TheVariants.{Input};
ghost use Rattle.fv_outside.specs.headline.Desk.{KeepsFaults};
ghost use Rattle.fv_outside.specs.Desk.{Takes};
ghost use Rattle.fv_wav.specs.Stopping.{Passes};
ghost use Rattle.fv_au.specs.declared.refusal.AuRefusal.TheVariants.{AuTruncated};
ghost use Rattle.fv_au.specs.headline.Reading.{head_of, au};
ghost use Rattle.fv_au.specs.Reading.{IsAu};
ghost use Rattle.fv_au.specs.Stopping.{IsAuHead, AuStops};

use crate::head::AuHead;
use crate::partial_head::judge;
use crate::refusal::AuRefusal;
use fv_outside::{Desk, Role, fill, skip};

// Passes over the next `count` bytes.
fn pass<D: Desk>(desk: &mut D, place: u64, count: u64) -> Result<(), AuRefusal>
    requires { place + count < 2 ^ 64 }
    ensures ok { IfOk result (λ _. Passes count (count ≤ length ((D.state desk.old).left Input)) (D.state desk.old) (D.state desk.new)) }
    ensures err { IfErr result (λ e. AuStops ((length ((D.state desk.old).left Input) < count)
        × (e ≡ AuTruncated (place + length ((D.state desk.old).left Input)))) (D.state desk.old) (D.state desk.new) e) }
{
    let n = skip(desk, Role::Input, count)?;
    if n < count {
        return Err(AuRefusal::AuTruncated { place: place + n });
    }
    Ok(())
}

// Reads the first 24 bytes, which begin with these, and returns what they say.
fn read_front<D: Desk>(desk: &mut D, begun: &[u8]) -> Result<AuHead, AuRefusal>
    requires { length begun.now ≤ 24 }
    ensures ok { IfOk result (λ head. Passes (24 - length begun.now) ((head_of (begun.now ++ (D.state desk.old).left Input) ≡ Ok head)
        × (length (begun.now ++ (D.state desk.old).left Input) ≡ 24 + length ((D.state desk.new).left Input))) (D.state desk.old) (D.state desk.new)) }
    ensures ranges { IfOk result IsAuHead }
    ensures err { IfErr result (λ e. AuStops (head_of (begun.now ++ (D.state desk.old).left Input) ≡ Err e) (D.state desk.old) (D.state desk.new) e) }
{
    let start = begun.len();
    let mut front = [0u8; 24];
    front[..start].copy_from_slice(begun);
    let n = fill(desk, Role::Input, &mut front[start..])?;
    judge(&front[..start + n])
}

/// Reads the head of the AU file whose bytes are left of the input. After the call its samples are left next.
pub fn read_au_head<D: Desk>(desk: &mut D) -> Result<AuHead, AuRefusal>
    requires begins { IsTrue (D.state desk.old).tells → IsAu ((D.state desk.old).left Input) }
    ensures head { IfOk result (λ head. IsTrue (D.state desk.old).tells → au ((D.state desk.old).left Input) ≡ Ok head) }
    ensures taken { IfOk result (λ head. (bytes : List ℕ) × (length bytes ≡ head.offset) × Takes Input bytes (D.state desk.old) (D.state desk.new)) }
    ensures ranges { IfOk result IsAuHead }
    ensures steady { OnOk result (KeepsFaults (D.state desk.old) (D.state desk.new)) }
    ensures err { IfErr result (λ e. AuStops (au ((D.state desk.old).left Input) ≡ Err e) (D.state desk.old) (D.state desk.new) e) }
{
    read_au_head_behind(desk, &[])
}

/// Reads the head of the AU file that begins with the bytes `begun`, which were taken already. It goes on with what is left of the
/// input; after the call its samples are left next.
pub fn read_au_head_behind<D: Desk>(desk: &mut D, begun: &[u8]) -> Result<AuHead, AuRefusal>
    requires few { length begun.now ≤ 24 }
    requires begins { IsTrue (D.state desk.old).tells → IsAu (begun.now ++ (D.state desk.old).left Input) }
    ensures head { IfOk result (λ head. IsTrue (D.state desk.old).tells → au (begun.now ++ (D.state desk.old).left Input) ≡ Ok head) }
    ensures taken { IfOk result (λ head. (bytes : List ℕ) × (length begun.now + length bytes ≡ head.offset)
        × Takes Input bytes (D.state desk.old) (D.state desk.new)) }
    ensures ranges { IfOk result IsAuHead }
    ensures steady { OnOk result (KeepsFaults (D.state desk.old) (D.state desk.new)) }
    ensures err { IfErr result (λ e. AuStops (au (begun.now ++ (D.state desk.old).left Input) ≡ Err e) (D.state desk.old) (D.state desk.new) e) }
{
    let head = read_front(desk, begun)?;
    pass(desk, 24, u64::from(head.offset) - 24)?;
    Ok(head)
}
