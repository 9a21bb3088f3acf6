// The samples of the outputs, as frames: each output strip by strip.

ghost use Rattle.std.specs.Prelude.{◌≡◌, ℕ, ◌+◌, ◌*◌, ◌^◌, ◌<◌, ◌≤◌, length, All, slice_index_or, pos};
ghost use Rattle.fv_engine_tasks.specs.Outputs.{CanRead, sample_of};
ghost use Rattle.fv_engine_tasks.specs.inner.Frames.{number_in};

use fv_loopcode::Store;

// How many samples of a lane are copied at a time, where a frame has several.
const STRIP: usize = 32;

// Puts a number into frame t.
fn put(output: &mut [i32], t: usize, place: usize, width: usize, x: i32)
    requires inside { place < width }
    requires there { t * width + place < length output.old }
    ensures long { length output.new ≡ length output.old }
    ensures put { number_in output.new width t place ≡ x }
    ensures others { (s j : ℕ) → j < width → (j ≡ place → s ≡ t → ⊥) → number_in output.new width s j ≡ number_in output.old width s j }
{
    output[t * width + place] = x;
}

// Puts the numbers of a row into frames, one in each, from frame `from` on.
fn put_row(row: &[i32], from: usize, place: usize, width: usize, output: &mut [i32])
    requires inside { place < width }
    requires there { (from + length row.now) * width ≤ length output.old }
    ensures long { length output.new ≡ length output.old }
    ensures put { (k : ℕ) → k < length row.now → number_in output.new width (from + k) place ≡ slice_index_or row.now k (pos 0) }
    ensures others { (s j : ℕ) → j < width → (j ≡ place → from ≤ s → ⊥) → number_in output.new width s j ≡ number_in output.old width s j }
{
    for k in 0..row.len() {
        put(output, from + k, place, width, row[k]);
    }
}

// Copies as many samples of a lane as the row has, from frame `from` on, each to its place of its frame. The row is room for them.
fn copy_strip<S: Store>(
    lane: u64,
    from: u64,
    place: usize,
    width: usize,
    store: &S,
    row: &mut [i32],
    output: &mut [i32],
)
    requires valid { S.is_valid store.now }
    requires inside { place < width }
    requires small { from + length row.old < 2 ^ 32 }
    requires there { (from + length row.old) * width ≤ length output.old }
    requires lane { lane < length (S.state store.now).lanes }
    requires samples { (k : ℕ) → k < length row.old → CanRead (S.state store.now).lanes (from + k) lane }
    ensures row { length row.new ≡ length row.old }
    ensures long { length output.new ≡ length output.old }
    ensures put { (k : ℕ) → k < length row.old → number_in output.new width (from + k) place ≡ sample_of (S.state store.now).lanes (from + k) lane }
    ensures others { (s j : ℕ) → j < width → (j ≡ place → from ≤ s → ⊥) → number_in output.new width s j ≡ number_in output.old width s j }
{
    store.load_many(lane, from, 0, row);
    put_row(row, from as usize, place, width, output);
}

// Copies the samples of a lane, each to its place of its frame.
fn copy_lane<S: Store>(
    lane: u64,
    place: usize,
    width: usize,
    frames: u64,
    store: &S,
    output: &mut [i32],
)
    requires valid { S.is_valid store.now }
    requires inside { place < width }
    requires small { frames < 2 ^ 32 }
    requires long { length output.old ≡ frames * width }
    requires there { (t : ℕ) → t < frames → CanRead (S.state store.now).lanes t lane }
    ensures long { length output.new ≡ length output.old }
    ensures put { (t : ℕ) → t < frames → number_in output.new width t place ≡ sample_of (S.state store.now).lanes t lane }
    ensures others { (t j : ℕ) → j < width → (j ≡ place → ⊥) → number_in output.new width t j ≡ number_in output.old width t j }
{
    let mut row = [0; STRIP];
    let mut from = 0;
    'strips: while from < frames {
        let count = (frames - from).min(STRIP as u64);
        copy_strip(
            lane,
            from,
            place,
            width,
            store,
            &mut row[..count as usize],
            output,
        );
        from += count;
    }
}

/// Copies the first `frames` frames of the block from these lanes, interleaved by lane.
pub fn copy_outputs<S: Store>(lanes: &[u64], frames: u64, store: &S, output: &mut [i32])
    requires valid { S.is_valid store.now }
    requires long { length output.old ≡ frames * length lanes.now }
    requires small { frames < 2 ^ 32 }
    requires there { (t : ℕ) → t < frames → All (CanRead (S.state store.now).lanes t) lanes.now }
    ensures long { length output.new ≡ length output.old }
    ensures samples { (t j : ℕ) → t < frames → j < length lanes.now →
        slice_index_or output.new (t * length lanes.now + j) (pos 0) ≡ sample_of (S.state store.now).lanes t (slice_index_or lanes.now j 0) }
{
    if lanes.len() == 1 && frames > 0 {
        store.load_many(lanes[0], 0, 0, output);
        return;
    }
    for j in 0..lanes.len() {
        copy_lane(lanes[j], j, lanes.len(), frames, store, output);
    }
}
