// The input's head.

ghost use Rattle.std.specs.Prelude.{◌≡◌, ◌≤◌, ◌++◌, length, option_copied, is_some, IsTrue, IfOk, IfErr, IfSome, OnErr, IsErrOf, IsSome, Err};
ghost use Rattle.std.specs.Option.{ForSome};
ghost use Rattle.fv_outside.specs.Role.TheVariants.{Input};
ghost use Rattle.fv_outside.specs.headline.Desk.{KeepsFaults};
ghost use Rattle.fv_outside.specs.Desk.{TakesSome};
ghost use Rattle.fv_wav.specs.headline.Reading.{wave};
ghost use Rattle.fv_au.specs.headline.Reading.{au};
ghost use Rattle.fv_au.specs.Reading.{IsAu};
ghost use Rattle.fv_top_report.specs.declared.refusal.Refusal.TheVariants.{ReadFault};
ghost use Rattle.fv_top_words.specs.declared.manner.InputKind.TheVariants as kinds;
ghost use Rattle.fv_top_files.specs.headline.Sources.{file_source, wave_source, au_source};
ghost use Rattle.fv_top_files.specs.Loading.{IsHeadRefusal};
ghost use Rattle.fv_top_files.specs.headline.Loading.{HasInput};
ghost use Rattle.fv_top_files.specs.Loading.{ReadsFile, StopsLoading, HasHead, IsPlaced};
ghost use Rattle.fv_top_files.specs.inner.Loading.{StopsHead, GivesHead};
ghost use Rattle.fv_top_files.specs.Loaded.{held_in, HoldsAll};

use crate::incoming::{au_incoming, wave_incoming};
use fv_au::{read_au_bytes, read_au_head_behind};
use fv_file_tape::Incoming;
use fv_outside::{Desk, Role, fill};
use fv_top_report::Refusal;
use fv_top_words::InputKind;
use fv_wav::read_head_behind;
use std::alloc::Global;

/// What was read of an input before its samples are decoded: its head, and the bytes of its samples where only the file's end says
/// how many they are.
#[derive(Drop)]
pub struct Loaded {
    pub head: Option<Incoming>,
    pub held: Option<Vec<u8>>,
}

/// Reads the head of the input of this name, a file of this kind; without a name there is none.
#[tactic(auto, using(fv_outside::proofs::lemmas::States::steps, crate::proofs::lemmas::Loads::reading))]
pub fn load_head<D: Desk>(
    alloc: Global,
    desk: &mut D,
    kind: InputKind,
    name: Option<&str>,
) -> Result<Loaded, Refusal>
    ensures reads { ReadsFile Input (option_copied name.entry) (D.state desk.old) (D.state desk.new) }
    ensures headed { IfOk result (λ l. IsTrue (D.state desk.old).tells →
        HasHead kind (option_copied name.entry) (D.state desk.old).files l.head (held_in l) ((D.state desk.new).left Input)) }
    ensures named { IfOk result (λ l. is_some l.head ≡ is_some (option_copied name.entry)) }
    ensures ranges { IfOk result (λ l. ForSome l.head IsPlaced) }
    ensures held { IfOk result HoldsAll }
    ensures err { IfErr result (StopsLoading Input (option_copied name.entry) IsHeadRefusal
        (λ e. HasInput kind (option_copied name.entry) (D.state desk.old).files (Err e)) (D.state desk.old) (D.state desk.new)) }
    ensures steady { (IsErrOf result (ReadFault Input) → ⊥) → KeepsFaults (D.state desk.old) (D.state desk.new) }
{
    let name = match name {
        Some(name) => name,
        None => {
            return Ok(Loaded {
                head: None,
                held: None,
            });
        }
    };
    match desk.begin_read(Role::Input, name) {
        Ok(()) => {}
        Err(_) => return Err(Refusal::ReadFault { role: Role::Input }),
    }
    let loaded = load_file(alloc, desk, kind)?;
    Ok(loaded)
}

// Reads the head of the file that was begun, of this kind.
#[tactic(auto, using(fv_outside::proofs::lemmas::States::steps))]
fn load_file<D: Desk>(alloc: Global, desk: &mut D, kind: InputKind) -> Result<Loaded, Refusal>
    ensures takes { TakesSome Input (D.state desk.old) (D.state desk.new) }
    ensures headed { IfOk result (λ l. IsTrue (D.state desk.old).tells →
        GivesHead (file_source kind ((D.state desk.old).left Input)) l.head (held_in l) ((D.state desk.new).left Input)) }
    ensures some { IfOk result (λ l. IsSome l.head) }
    ensures ranges { IfOk result (λ l. ForSome l.head IsPlaced) }
    ensures held { IfOk result HoldsAll }
    ensures err { IfErr result (StopsHead IsHeadRefusal (file_source kind ((D.state desk.old).left Input)) (D.state desk.old) (D.state desk.new)) }
    ensures steady { (IsErrOf result (ReadFault Input) → ⊥) → KeepsFaults (D.state desk.old) (D.state desk.new) }
{
    match kind {
        InputKind::Wave => load_wave(desk, &[]),
        InputKind::Either => load_either(alloc, desk),
    }
}

// Reads the head of a file that is AU where its first four bytes say so, else WAV.
#[tactic(auto, using(fv_outside::proofs::lemmas::States::steps))]
fn load_either<D: Desk>(alloc: Global, desk: &mut D) -> Result<Loaded, Refusal>
    ensures takes { TakesSome Input (D.state desk.old) (D.state desk.new) }
    ensures headed { IfOk result (λ l. IsTrue (D.state desk.old).tells →
        GivesHead (file_source kinds.Either ((D.state desk.old).left Input)) l.head (held_in l) ((D.state desk.new).left Input)) }
    ensures some { IfOk result (λ l. IsSome l.head) }
    ensures ranges { IfOk result (λ l. ForSome l.head IsPlaced) }
    ensures held { IfOk result HoldsAll }
    ensures err { IfErr result (StopsHead IsHeadRefusal (file_source kinds.Either ((D.state desk.old).left Input))
        (D.state desk.old) (D.state desk.new)) }
    ensures steady { (IsErrOf result (ReadFault Input) → ⊥) → KeepsFaults (D.state desk.old) (D.state desk.new) }
{
    let mut front = [0u8; 4];
    let n = match fill(desk, Role::Input, &mut front) {
        Ok(n) => n,
        Err(_) => return Err(Refusal::ReadFault { role: Role::Input }),
    };
    let begun = &front[..n];
    if begun == b".snd".as_slice() {
        load_au(alloc, desk, begun)
    } else {
        load_wave(desk, begun)
    }
}

// Reads the head of a WAV file that begins with these bytes, which were taken.
#[tactic(auto, using(fv_outside::proofs::lemmas::States::steps))]
fn load_wave<D: Desk>(desk: &mut D, begun: &[u8]) -> Result<Loaded, Refusal>
    requires { length begun.now ≤ 4 }
    ensures takes { TakesSome Input (D.state desk.old) (D.state desk.new) }
    ensures headed { IfOk result (λ l. IsTrue (D.state desk.old).tells →
        (let bytes = begun.now ++ (D.state desk.old).left Input in
        GivesHead (wave_source bytes (wave bytes)) l.head (held_in l) ((D.state desk.new).left Input))) }
    ensures some { IfOk result (λ l. IsSome l.head) }
    ensures ranges { IfOk result (λ l. ForSome l.head IsPlaced) }
    ensures held { IfOk result HoldsAll }
    ensures err { IfErr result (let bytes = begun.now ++ (D.state desk.old).left Input in
        StopsHead IsHeadRefusal (wave_source bytes (wave bytes)) (D.state desk.old) (D.state desk.new)) }
    ensures steady { (IsErrOf result (ReadFault Input) → ⊥) → KeepsFaults (D.state desk.old) (D.state desk.new) }
{
    let head = read_head_behind(desk, begun)?;
    Ok(Loaded {
        head: Some(wave_incoming(head)),
        held: None,
    })
}

// Reads the head of an AU file that begins with these bytes, which were taken.
#[tactic(auto, using(fv_outside::proofs::lemmas::States::steps))]
fn load_au<D: Desk>(alloc: Global, desk: &mut D, begun: &[u8]) -> Result<Loaded, Refusal>
    requires few { length begun.now ≤ 4 }
    requires begins { IsTrue (D.state desk.old).tells → IsAu (begun.now ++ (D.state desk.old).left Input) }
    ensures takes { TakesSome Input (D.state desk.old) (D.state desk.new) }
    ensures headed { IfOk result (λ l. IsTrue (D.state desk.old).tells →
        (let bytes = begun.now ++ (D.state desk.old).left Input in
        GivesHead (au_source bytes (au bytes)) l.head (held_in l) ((D.state desk.new).left Input))) }
    ensures some { IfOk result (λ l. IsSome l.head) }
    ensures ranges { IfOk result (λ l. ForSome l.head IsPlaced) }
    ensures held { IfOk result HoldsAll }
    ensures err { IfErr result (let bytes = begun.now ++ (D.state desk.old).left Input in
        StopsHead IsHeadRefusal (au_source bytes (au bytes)) (D.state desk.old) (D.state desk.new)) }
    ensures steady { (IsErrOf result (ReadFault Input) → ⊥) → KeepsFaults (D.state desk.old) (D.state desk.new) }
{
    let head = read_au_head_behind(desk, begun)?;
    match head.data_bytes {
        Some(size) => Ok(Loaded {
            head: Some(au_incoming(head, size)),
            held: None,
        }),
        None => {
            let bytes = read_au_bytes(alloc, desk)?;
            Ok(Loaded {
                head: Some(au_incoming(head, bytes.len() as u32)),
                held: Some(bytes),
            })
        }
    }
}
