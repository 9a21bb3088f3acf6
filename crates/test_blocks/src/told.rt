// What a recorder was told.

ghost use Rattle.std.specs.Prelude.{◌≡◌, ◌<◌, length, IfSome, IsSome, IsSomeAnd};
ghost use Rattle.fv_outside.specs.Journal.{told_at};

use fv_outside::{Line, Reads, Recorder};

/// The loops, vectors, pairs and lines of a block, if it was told.
#[tactic(auto, using(crate::proofs::Recorded::is_told))]
pub fn block_of(recorder: &Recorder, block: u32) -> Option<(u64, u32, &[Reads], &[Line])>
    ensures tasks { IfSome result (λ b. (b.0 ≡ (told_at recorder.now block).tasks.loops) × (b.1 ≡ (told_at recorder.now block).tasks.vectors)
        × (b.2.now ≡ (told_at recorder.now block).tasks.reads)) }
    ensures lines { IfSome result (λ b. b.3.now ≡ (told_at recorder.now block).lines) }
    ensures each { IsSomeAnd recorder.now (λ t. block < length t.entries) → IsSome result }
{
    let calls = recorder.calls()?;
    if block >= calls {
        return None;
    }
    Some((
        recorder.loops(block),
        recorder.vectors(block),
        recorder.reads(block),
        recorder.lines(block),
    ))
}
