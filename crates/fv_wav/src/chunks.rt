// The chunks of a WAV file.

ghost use Rattle.std.specs.Prelude.{◌≡◌, ℕ, ◌+◌, ◌-◌, ◌^◌, ◌<◌, ◌≤◌, List, ◌++◌, length, IsTrue, Ok, Err, Some, IfOk, IfErr, IfSome, OnOk};
ghost use Rattle.fv_base.specs.declared.limits.TheConstants.{MOST_CHUNKS};
ghost use Rattle.fv_base.specs.declared.role.Role.TheVariants.{Input};
ghost use Rattle.fv_outside.specs.headline.Desk.{KeepsFaults};
ghost use Rattle.fv_outside.specs.Desk.{Takes};
ghost use Rattle.fv_wav.specs.declared.head.Kind.TheVariants as kind;
ghost use Rattle.fv_wav.specs.headline.Reading.{rest_of, wave, kind_of, is_form};
ghost use Rattle.fv_wav.specs.Stopping.{Passes, Stops, IsFormat, IsHead, Continues, Follows, walk_from, chunk_from};

use crate::format::read_format;
use crate::head::{Format, Head, Kind};
use crate::input::{pass, read_u32, take_all};
use crate::refusal::WaveRefusal;
use fv_base::limits::MOST_CHUNKS;
use fv_outside::Desk;

/// Where the walk over the chunks stands: how many may still stand before `data`, the format if it was seen, and the place
/// of the next one.
#[derive(Clone, Copy)]
pub struct Walk {
    pub room: u32,
    pub seen: Option<Format>,
    pub place: u64,
}

/// What the next chunk leads to.
#[derive(Clone, Copy)]
pub enum NextChunk {
    Data(Head),
    Chunk(Walk),
}

/// The size of `data` that says that its length was not known.
const UNKNOWN: u32 = 4294967295;

// What a chunk of this name is.
fn kind_of(name: &[u8]) -> Kind
    ensures { result ≡ kind_of name.now }
{
    if name == b"data".as_slice() {
        Kind::Data
    } else if name == b"fmt ".as_slice() {
        Kind::Format
    } else {
        Kind::Other
    }
}

/// Reads the head of the file whose bytes are left of the input. After the call its samples are left next.
pub fn read_head<D: Desk>(desk: &mut D) -> Result<Head, WaveRefusal>
    ensures head { IfOk result (λ head. IsTrue (D.state desk.old).tells → wave ((D.state desk.old).left Input) ≡ Ok head) }
    ensures taken { IfOk result (λ head. (bytes : List ℕ) × (length bytes ≡ head.place) × Takes Input bytes (D.state desk.old) (D.state desk.new)) }
    ensures ranges { IfOk result IsHead }
    ensures place { IfOk result (λ head. head.place < 2 ^ 45) }
    ensures steady { OnOk result (KeepsFaults (D.state desk.old) (D.state desk.new)) }
    ensures err { IfErr result (λ e. Stops (wave ((D.state desk.old).left Input) ≡ Err e) (D.state desk.old) (D.state desk.new) e) }
{
    read_head_behind(desk, &[])
}

/// Reads the head of the file that begins with the bytes `begun`, which were taken already. It goes on with what is left of the
/// input; after the call its samples are left next.
pub fn read_head_behind<D: Desk>(desk: &mut D, begun: &[u8]) -> Result<Head, WaveRefusal>
    requires { length begun.now ≤ 12 }
    ensures head { IfOk result (λ head. IsTrue (D.state desk.old).tells → wave (begun.now ++ (D.state desk.old).left Input) ≡ Ok head) }
    ensures taken { IfOk result (λ head. (bytes : List ℕ) × (length begun.now + length bytes ≡ head.place)
        × Takes Input bytes (D.state desk.old) (D.state desk.new)) }
    ensures ranges { IfOk result IsHead }
    ensures place { IfOk result (λ head. head.place < 2 ^ 45) }
    ensures steady { OnOk result (KeepsFaults (D.state desk.old) (D.state desk.new)) }
    ensures err { IfErr result (λ e. Stops (wave (begun.now ++ (D.state desk.old).left Input) ≡ Err e) (D.state desk.old) (D.state desk.new) e) }
{
    read_form(desk, begun)?;
    let mut walk = Walk {
        room: MOST_CHUNKS,
        seen: None,
        place: 12,
    };
    'chunks: loop {
        match next_chunk(desk, walk)? {
            NextChunk::Data(head) => return Ok(head),
            NextChunk::Chunk(next) => walk = next,
        }
    }
}

// Reads the first twelve bytes, which begin with these.
fn read_form<D: Desk>(desk: &mut D, begun: &[u8]) -> Result<(), WaveRefusal>
    requires { length begun.now ≤ 12 }
    ensures ok { IfOk result (λ _. Passes (12 - length begun.now)
        (wave (begun.now ++ (D.state desk.old).left Input) ≡ walk_from (record { room = MOST_CHUNKS; seen = None; place = 12 }) ((D.state desk.new).left Input))
        (D.state desk.old) (D.state desk.new)) }
    ensures err { IfErr result (λ e. Stops (wave (begun.now ++ (D.state desk.old).left Input) ≡ Err e) (D.state desk.old) (D.state desk.new) e) }
{
    let n = begun.len();
    let mut form = [0u8; 12];
    form[..n].copy_from_slice(begun);
    take_all(desk, n as u64, &mut form[n..])?;
    if !is_form(&form) {
        return Err(WaveRefusal::NotWave { place: 0 });
    }
    Ok(())
}

// Whether they are those of a RIFF file of the form WAVE.
fn is_form(form: &[u8]) -> bool
    requires { length form.now ≡ 12 }
    ensures { result ≡ is_form form.now }
{
    &form[..4] == b"RIFF".as_slice() && &form[8..] == b"WAVE".as_slice()
}

// Reads the next chunk.
fn next_chunk<D: Desk>(desk: &mut D, walk: Walk) -> Result<NextChunk, WaveRefusal>
    requires place { walk.place < 2 ^ 59 }
    requires seen { IfSome walk.seen IsFormat }
    ensures ok { IfOk result (λ step. Continues walk step (D.state desk.old) (D.state desk.new)) }
    ensures err { IfErr result (λ e. Stops (walk_from walk ((D.state desk.old).left Input) ≡ Err e) (D.state desk.old) (D.state desk.new) e) }
{
    let mut name = [0u8; 4];
    take_all(desk, walk.place, &mut name)?;
    match kind_of(&name) {
        Kind::Data => read_data(desk, walk),
        Kind::Format => see_format(desk, walk),
        Kind::Other => pass_other(desk, walk),
    }
}

// Reads a `data` chunk, after its name.
fn read_data<D: Desk>(desk: &mut D, walk: Walk) -> Result<NextChunk, WaveRefusal>
    requires place { walk.place < 2 ^ 59 }
    requires seen { IfSome walk.seen IsFormat }
    ensures ok { IfOk result (λ step. Follows walk kind.Data step (D.state desk.old) (D.state desk.new)) }
    ensures err { IfErr result (λ e. Stops (chunk_from walk kind.Data ((D.state desk.old).left Input) ≡ Err e) (D.state desk.old) (D.state desk.new) e) }
{
    match walk.seen {
        Some(format) => read_samples(desk, walk, format),
        None => Err(WaveRefusal::WaveFormat { place: walk.place }),
    }
}

// Reads a `data` chunk after this format, after its name.
fn read_samples<D: Desk>(desk: &mut D, walk: Walk, format: Format) -> Result<NextChunk, WaveRefusal>
    requires place { walk.place < 2 ^ 59 }
    requires seen { walk.seen ≡ Some format }
    requires format { IsFormat format }
    ensures ok { IfOk result (λ step. Follows walk kind.Data step (D.state desk.old) (D.state desk.new)) }
    ensures err { IfErr result (λ e. Stops (chunk_from walk kind.Data ((D.state desk.old).left Input) ≡ Err e) (D.state desk.old) (D.state desk.new) e) }
{
    let size = read_u32(desk, walk.place + 4)?;
    if size == UNKNOWN {
        return Err(WaveRefusal::WaveFormat {
            place: walk.place + 4,
        });
    }
    Ok(NextChunk::Data(Head {
        channels: format.channels,
        rate: format.rate,
        bits: format.bits,
        data_bytes: size,
        place: walk.place + 8,
    }))
}

// Reads a `fmt ` chunk, after its name.
fn see_format<D: Desk>(desk: &mut D, walk: Walk) -> Result<NextChunk, WaveRefusal>
    requires place { walk.place < 2 ^ 59 }
    requires seen { IfSome walk.seen IsFormat }
    ensures ok { IfOk result (λ step. Follows walk kind.Format step (D.state desk.old) (D.state desk.new)) }
    ensures err { IfErr result (λ e. Stops (chunk_from walk kind.Format ((D.state desk.old).left Input) ≡ Err e) (D.state desk.old) (D.state desk.new) e) }
{
    match walk.seen {
        Some(_) => Err(WaveRefusal::WaveFormat { place: walk.place }),
        None => first_format(desk, walk),
    }
}

// Reads the first `fmt ` chunk, after its name.
fn first_format<D: Desk>(desk: &mut D, walk: Walk) -> Result<NextChunk, WaveRefusal>
    requires place { walk.place < 2 ^ 59 }
    requires seen { walk.seen ≡ None }
    ensures ok { IfOk result (λ step. Follows walk kind.Format step (D.state desk.old) (D.state desk.new)) }
    ensures err { IfErr result (λ e. Stops (chunk_from walk kind.Format ((D.state desk.old).left Input) ≡ Err e) (D.state desk.old) (D.state desk.new) e) }
{
    if walk.room == 0 {
        return Err(WaveRefusal::WaveChunks { place: walk.place });
    }
    let (format, place) = read_format(desk, walk.place + 4)?;
    Ok(NextChunk::Chunk(Walk {
        room: walk.room - 1,
        seen: Some(format),
        place,
    }))
}

// Passes over a chunk, after its name.
fn pass_other<D: Desk>(desk: &mut D, walk: Walk) -> Result<NextChunk, WaveRefusal>
    requires place { walk.place < 2 ^ 59 }
    requires seen { IfSome walk.seen IsFormat }
    ensures ok { IfOk result (λ step. Follows walk kind.Other step (D.state desk.old) (D.state desk.new)) }
    ensures err { IfErr result (λ e. Stops (chunk_from walk kind.Other ((D.state desk.old).left Input) ≡ Err e) (D.state desk.old) (D.state desk.new) e) }
{
    if walk.room == 0 {
        return Err(WaveRefusal::WaveChunks { place: walk.place });
    }
    let size = read_u32(desk, walk.place + 4)?;
    let all = u64::from(size) + u64::from(size % 2);
    pass(desk, walk.place + 4 + 4, all)?;
    Ok(NextChunk::Chunk(Walk {
        room: walk.room - 1,
        seen: walk.seen,
        place: walk.place + 8 + all,
    }))
}
