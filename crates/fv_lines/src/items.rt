// The items of a list that code reads and writes.

ghost use Rattle.std.specs.Prelude.{◌≡◌, ◌<◌, length};
ghost use Rattle.fv_loopcode.specs.Tables.{place as place_of, read_at, written};

// The place that an index means in a list of `count` items: its own, or the nearest one.
fn place(count: usize, index: i32) -> usize
    requires { 0 < count }
    ensures is { result ≡ place_of count index }
    ensures within { result < count }
{
    if index < 0 {
        return 0;
    }
    (index as usize).min(count - 1)
}

/// The item at an index, clamped to the list.
pub fn item(list: &[i32], index: i32) -> i32
    requires { 0 < length list.now }
    ensures { result ≡ read_at list.now index }
{
    list[place(list.len(), index)]
}

/// Puts `x` at the index `w`, and returns the item that is then at the index `r`. Both indices are clamped to the list.
pub fn exchange(list: &mut [i32], w: i32, x: i32, r: i32) -> i32
    requires { 0 < length list.old }
    ensures item { result ≡ read_at list.new r }
    ensures list { list.new ≡ written list.old w x }
{
    let count = list.len();
    list[place(count, w)] = x;
    list[place(count, r)]
}

// Copies numbers over as many others. Of a copy in two pieces one mostly has none, so an empty one is not copied at all.
#[inline(always)]
pub(crate) fn copy_if_some(to: &mut [i32], from: &[i32])
    requires { length to.old ≡ length from.now }
    ensures { to.new ≡ from.now }
{
    if !from.is_empty() {
        to.copy_from_slice(from);
    }
}
