// Reading and writing many bytes by the calls of a desk, each of which may take a part of them. A call that fails ends
// the transfer.

ghost use Rattle.std.specs.Prelude.{◌≡◌, ℕ, ◌+◌, ◌<◌, ◌≤◌, List, [], ◌++◌, length, take, drop, false, IsTrue, IsOk, IfOk, OnOk, OnErr, IsErrOf};
ghost use Rattle.fv_base.specs.headline.Lists.{IsPrefixOf};
ghost use Rattle.fv_outside.specs.headline.Desk.{KeepsFaults, HasFault, IsUnfailing};
ghost use Rattle.fv_outside.specs.Desk.{KeepsQuiet, fails_next, Appends, Takes, TakesSome, joined};
ghost use Rattle.fv_outside.specs.declared.transfer.ReadError.TheVariants as errors;

use crate::desk::{Desk, Failed};
use fv_base::Role;
use std::alloc::{AllocError, AllocFailed, Global};

/// Why bytes could not be read.
#[derive(Clone, Copy, PartialEq, Eq, Debug)]
pub enum ReadError {
    Failed,
    NoMemory,
}

impl From<Failed> for ReadError {
    ghost from_gives = { λ _ e. e ≡ errors.Failed };

    fn from(_failed: Failed) -> ReadError {
        ReadError::Failed
    }
}

impl From<AllocError> for ReadError {
    ghost from_gives = { λ _ e. e ≡ errors.NoMemory };

    fn from(_error: AllocError) -> ReadError {
        ReadError::NoMemory
    }
}

/// Fills `to` with the next bytes of a role, or its front with as many as are left, and says how many.
#[tactic(auto, using(crate::proofs::lemmas::States::steps))]
pub fn fill<D: Desk>(desk: &mut D, role: Role, to: &mut [u8]) -> Result<usize, Failed>
    ensures count { IfOk result (λ n. n ≤ length to.new) }
    ensures taken { IfOk result (λ n. Takes role (take n to.new) (D.state desk.old) (D.state desk.new)) }
    ensures end { IfOk result (λ n. n < length to.new → IsTrue (D.state desk.old).tells → (D.state desk.new).left role ≡ []) }
    ensures err { OnErr result (TakesSome role (D.state desk.old) (D.state desk.new)) }
    ensures failed { OnErr result (HasFault role (D.state desk.old) (D.state desk.new)) }
    ensures steady { OnOk result (KeepsFaults (D.state desk.old) (D.state desk.new)) }
    ensures answers { IsTrue (D.state desk.old).tells → IsUnfailing role (D.state desk.old) → IsOk result }
{
    let mut at = 0;
    'pieces: while at < to.len() {
        let n = fill_part(desk, role, to, at)?;
        if n == 0 {
            return Ok(at);
        }
        at += n;
    }
    Ok(at)
}

// Takes some bytes into `to` from place `at` on, and says how many.
#[tactic(auto, using(crate::proofs::lemmas::States::steps))]
fn fill_part<D: Desk>(desk: &mut D, role: Role, to: &mut [u8], at: usize) -> Result<usize, Failed>
    requires { at < length to.old }
    ensures count { IfOk result (λ n. at + n ≤ length to.new) }
    ensures front { take at to.new ≡ take at to.old }
    ensures taken { IfOk result (λ n. (piece : List ℕ) × (length piece ≡ n) × (take (at + n) to.new ≡ take at to.old ++ piece)
        × Takes role piece (D.state desk.old) (D.state desk.new)) }
    ensures end { IfOk result (λ n. n ≡ 0 → IsTrue (D.state desk.old).tells → (D.state desk.new).left role ≡ []) }
    ensures err { OnErr result (Takes role [] (D.state desk.old) (D.state desk.new)) }
    ensures failed { OnErr result (HasFault role (D.state desk.old) (D.state desk.new)) }
    ensures steady { OnOk result (KeepsFaults (D.state desk.old) (D.state desk.new)) }
    ensures answers { IsTrue (D.state desk.old).tells → fails_next role (D.state desk.old) ≡ false → IsOk result }
{
    let n = desk.read(role, &mut to[at..])?;
    Ok(n)
}

/// How many bytes are passed over by one call.
const PIECE: usize = 4096;

/// Passes over the next `count` bytes of a role, or over as many as are left, and says how many.
#[tactic(auto, using(crate::proofs::lemmas::States::steps))]
pub fn skip<D: Desk>(desk: &mut D, role: Role, count: u64) -> Result<u64, Failed>
    ensures count { IfOk result (λ n. n ≤ count) }
    ensures taken { IfOk result (λ n. (bytes : List ℕ) × (length bytes ≡ n) × Takes role bytes (D.state desk.old) (D.state desk.new)) }
    ensures end { IfOk result (λ n. n < count → IsTrue (D.state desk.old).tells → (D.state desk.new).left role ≡ []) }
    ensures err { OnErr result (TakesSome role (D.state desk.old) (D.state desk.new)) }
    ensures failed { OnErr result (HasFault role (D.state desk.old) (D.state desk.new)) }
    ensures steady { OnOk result (KeepsFaults (D.state desk.old) (D.state desk.new)) }
    ensures answers { IsTrue (D.state desk.old).tells → IsUnfailing role (D.state desk.old) → IsOk result }
{
    let mut piece = [0u8; PIECE];
    let mut gone = 0;
    'pieces: while gone < count {
        let n = skip_part(desk, role, &mut piece, count - gone)?;
        if n == 0 {
            return Ok(gone);
        }
        gone += n;
    }
    Ok(gone)
}

// Passes over some of the next `most` bytes, and says how many.
#[tactic(auto, using(crate::proofs::lemmas::States::steps))]
fn skip_part<D: Desk>(desk: &mut D, role: Role, piece: &mut [u8], most: u64) -> Result<u64, Failed>
    requires some { 0 < most }
    requires room { 0 < length piece.old }
    ensures count { IfOk result (λ n. n ≤ most) }
    ensures taken { IfOk result (λ n. (bytes : List ℕ) × (length bytes ≡ n) × Takes role bytes (D.state desk.old) (D.state desk.new)) }
    ensures end { IfOk result (λ n. n ≡ 0 → IsTrue (D.state desk.old).tells → (D.state desk.new).left role ≡ []) }
    ensures err { OnErr result (Takes role [] (D.state desk.old) (D.state desk.new)) }
    ensures failed { OnErr result (HasFault role (D.state desk.old) (D.state desk.new)) }
    ensures steady { OnOk result (KeepsFaults (D.state desk.old) (D.state desk.new)) }
    ensures answers { IsTrue (D.state desk.old).tells → fails_next role (D.state desk.old) ≡ false → IsOk result }
{
    let mut want = piece.len();
    if most < want as u64 {
        want = most as usize;
    }
    let n = desk.read(role, &mut piece[..want])?;
    Ok(n as u64)
}

/// The most bytes that are read at once into memory.
const CHUNK: usize = 65536;

/// Reads the next `count` bytes of a role, or as many as are left.
#[tactic(auto, using(crate::proofs::lemmas::States::steps))]
pub fn read_up_to<D: Desk>(
    alloc: Global,
    desk: &mut D,
    role: Role,
    count: usize,
) -> Result<Vec<u8>, ReadError>
    ensures quiet { KeepsQuiet (D.state desk.old) (D.state desk.new) }
    ensures takes { IfOk result (λ v. Takes role v.items (D.state desk.old) (D.state desk.new)) }
    ensures taken { IfOk result (λ v. IsTrue (D.state desk.old).tells →
        (v.items ≡ take count ((D.state desk.old).left role)) × ((D.state desk.new).left role ≡ drop count ((D.state desk.old).left role))) }
    ensures count { IfOk result (λ v. length v.items ≤ count) }
    ensures err { OnErr result (TakesSome role (D.state desk.old) (D.state desk.new)) }
    ensures failed { IsErrOf result ReadError.Failed → HasFault role (D.state desk.old) (D.state desk.new) }
    ensures steady { (IsErrOf result ReadError.Failed → ⊥) → KeepsFaults (D.state desk.old) (D.state desk.new) }
    ensures answers { IsTrue (D.state desk.old).tells → IsUnfailing role (D.state desk.old) → IsErrOf result ReadError.Failed → ⊥ }
{
    let mut bytes = Vec::new(alloc);
    let mut chunk = vec![in alloc; 0u8; CHUNK]?;
    'chunks: while bytes.len() < count {
        let want = (count - bytes.len()).min(CHUNK);
        let n = append_next(desk, role, &mut chunk, want, &mut bytes)?;
        if n < want {
            return Ok(bytes);
        }
    }
    Ok(bytes)
}

// Appends the next `want` bytes to `bytes`, or as many as are left, through the chunk, and says how many.
#[tactic(auto, using(crate::proofs::lemmas::States::steps))]
fn append_next<D: Desk>(
    desk: &mut D,
    role: Role,
    chunk: &mut [u8],
    want: usize,
    bytes: &mut Vec<u8>,
) -> Result<usize, ReadError>
    requires room { want ≤ length chunk.old }
    ensures count { IfOk result (λ n. (n ≤ want) × (length bytes.new.items ≡ length bytes.old.items + n)) }
    ensures taken { IfOk result (λ n. (piece : List ℕ) × (bytes.new.items ≡ bytes.old.items ++ piece)
        × Takes role piece (D.state desk.old) (D.state desk.new)) }
    ensures end { IfOk result (λ n. n < want → IsTrue (D.state desk.old).tells → (D.state desk.new).left role ≡ []) }
    ensures err { OnErr result (TakesSome role (D.state desk.old) (D.state desk.new)) }
    ensures failed { IsErrOf result ReadError.Failed → HasFault role (D.state desk.old) (D.state desk.new) }
    ensures steady { (IsErrOf result ReadError.Failed → ⊥) → KeepsFaults (D.state desk.old) (D.state desk.new) }
    ensures answers { IsTrue (D.state desk.old).tells → IsUnfailing role (D.state desk.old) → IsErrOf result ReadError.Failed → ⊥ }
{
    let n = fill(desk, role, &mut chunk[..want])?;
    bytes.extend_from_slice(&chunk[..n])?;
    Ok(n)
}

/// Writes all the bytes, unless a call fails: then a part from their front is written.
#[tactic(auto, using(crate::proofs::lemmas::States::steps))]
pub fn write_all<D: Desk>(desk: &mut D, role: Role, bytes: &[u8]) -> Result<(), Failed>
    ensures ok { OnOk result (Appends role bytes.now (D.state desk.old) (D.state desk.new)) }
    ensures err { OnErr result ((part : List ℕ) × IsPrefixOf part bytes.now × Appends role part (D.state desk.old) (D.state desk.new)) }
    ensures failed { OnErr result (HasFault role (D.state desk.old) (D.state desk.new)) }
    ensures steady { OnOk result (KeepsFaults (D.state desk.old) (D.state desk.new)) }
    ensures answers { IsTrue (D.state desk.old).tells → IsUnfailing role (D.state desk.old) →
        length ((D.state desk.old).written role) + length bytes.now ≤ (D.state desk.old).room role → IsOk result }
{
    let mut at = 0;
    'pieces: while at < bytes.len() {
        at += write_part(desk, role, bytes, at)?;
    }
    Ok(())
}

// Writes a part of the bytes from place `at` on, and says how many.
fn write_part<D: Desk>(desk: &mut D, role: Role, bytes: &[u8], at: usize) -> Result<usize, Failed>
    requires { at < length bytes.now }
    ensures count { IfOk result (λ n. (1 ≤ n) × (at + n ≤ length bytes.now)) }
    ensures ok { IfOk result (λ n. Appends role (take n (drop at bytes.now)) (D.state desk.old) (D.state desk.new)) }
    ensures err { OnErr result (Appends role [] (D.state desk.old) (D.state desk.new)) }
    ensures failed { OnErr result (HasFault role (D.state desk.old) (D.state desk.new)) }
    ensures steady { OnOk result (KeepsFaults (D.state desk.old) (D.state desk.new)) }
    ensures answers { IsTrue (D.state desk.old).tells → fails_next role (D.state desk.old) ≡ false →
        length ((D.state desk.old).written role) < (D.state desk.old).room role → IsOk result }
{
    desk.write(role, &bytes[at..])
}

/// Writes the pieces one after another, unless a call fails: then a part from their front is written.
#[tactic(auto, using(crate::proofs::lemmas::States::steps))]
pub fn write_pieces<D: Desk>(desk: &mut D, role: Role, pieces: &[&[u8]]) -> Result<(), Failed>
    ensures ok { OnOk result (Appends role (joined pieces.now) (D.state desk.old) (D.state desk.new)) }
    ensures err { OnErr result ((part : List ℕ) × IsPrefixOf part (joined pieces.now) × Appends role part (D.state desk.old) (D.state desk.new)) }
    ensures failed { OnErr result (HasFault role (D.state desk.old) (D.state desk.new)) }
    ensures steady { OnOk result (KeepsFaults (D.state desk.old) (D.state desk.new)) }
    ensures answers { IsTrue (D.state desk.old).tells → IsUnfailing role (D.state desk.old) →
        length ((D.state desk.old).written role) + length (joined pieces.now) ≤ (D.state desk.old).room role → IsOk result }
{
    for piece in pieces {
        write_all(desk, role, piece)?;
    }
    Ok(())
}
