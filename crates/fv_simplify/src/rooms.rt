// How far delays go of which each is by a number.

ghost use Rattle.std.specs.Prelude.{◌≡◌, ◌<◌, length, IfOk};
ghost use Rattle.fv_signal.specs.headline.Value.{IsGraph};
ghost use Rattle.fv_simplify.specs.Nodes.{node, number_at};
ghost use Rattle.fv_simplify.specs.Rebuilt.{IsMarked, IsRoom};
ghost use Rattle.fv_simplify.specs.Passing.{room_in};
ghost use Rattle.fv_simplify.specs.inner.Rooms.{room_with as room_with_of, rooms_after};

use fv_signal::{Graph, Signal, SignalId};
use std::alloc::{AllocError, Global};

/// How far the marked delays of each signal go, where all of them are by numbers.
pub(crate) fn rooms(
    alloc: Global,
    graph: &Graph,
    marks: &[bool],
) -> Result<Vec<Option<u32>>, AllocError>
    requires graph { IsGraph graph.now }
    requires long { length marks.now ≡ length graph.now.signals }
    ensures { IfOk result (λ r. IsRoom graph.now (IsMarked marks.now) (room_in r.items)) }
{
    let mut rooms = vec![in alloc; Some(0u32); graph.len() as usize]?;
    for place in 0..graph.len() {
        if marks[place as usize] {
            note(graph, &mut rooms, SignalId::new(place));
        }
    }
    Ok(rooms)
}

// Notes one signal more, which may be a delay.
fn note(graph: &Graph, rooms: &mut [Option<u32>], s: SignalId)
    requires s { s < length graph.now.signals }
    requires long { length rooms.old ≡ length graph.now.signals }
    ensures long { length rooms.new ≡ length rooms.old }
    ensures rooms { rooms.new ≡ rooms_after graph.now rooms.old (node graph.now s) }
{
    if let Signal::Delay { x, d, max: _ } = graph.signal(s) {
        let place = x.number() as usize;
        rooms[place] = room_with(rooms[place], number(graph, d));
    }
}

// The room where there is one delay more.
fn room_with(room: Option<u32>, by: Option<i32>) -> Option<u32>
    ensures { result ≡ room_with_of room by }
{
    match (room, by) {
        (Some(most), Some(n)) => {
            if n < 0 {
                Some(most)
            } else {
                Some(most.max(n.cast_unsigned()))
            }
        }
        (Some(_), None) | (None, _) => None,
    }
}

// The number that a signal is.
fn number(graph: &Graph, s: SignalId) -> Option<i32>
    requires { s < length graph.now.signals }
    ensures { result ≡ number_at graph.now s }
{
    match graph.signal(s) {
        Signal::Const(n) => Some(n),
        _ => None,
    }
}
