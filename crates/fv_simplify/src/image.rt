// The images of signals.

ghost use Rattle.std.specs.Prelude.{◌≡◌, ℕ, ◌+◌, ◌<◌, length, map, All, IfOk, slice_index_or};
ghost use Rattle.fv_signal.specs.headline.Value.{definition, AreAtMost};
ghost use Rattle.fv_share.specs.Drafts.{IsPending};
ghost use Rattle.fv_simplify.specs.Nodes.{node};
ghost use Rattle.fv_simplify.specs.Reducible.{limit};
ghost use Rattle.fv_simplify.specs.Passing.{room_in, operation as operation_of, image_of};

use crate::late::{delayed, put_number, put_signal};
use crate::operation::operation;
use fv_num::Op;
use fv_share::Builder;
use fv_signal::{Graph, Signal, SignalId};
use std::alloc::AllocError;

/// Puts the image of the first signal that has none yet, and returns it.
pub(crate) fn image(
    builder: &mut Builder,
    graph: &Graph,
    images: &[SignalId],
    rooms: &[Option<u32>],
) -> Result<SignalId, AllocError>
    requires more { length images.now < length graph.now.signals }
    requires short { AreAtMost limit graph.now }
    requires there { All (λ a. a < length builder.old.signals) images.now }
    requires open { (g : ℕ) → g < length graph.now.groups → IsPending builder.old g }
    requires tables { builder.old.tables ≡ graph.now.tables }
    ensures value { IfOk result (λ id. (id, builder.new)
        ≡ image_of graph.now images.now (room_in rooms.now) builder.old (node graph.now (length images.now))) }
    ensures there { IfOk result (λ id. id < length builder.new.signals) }
{
    match graph.signal(SignalId::new(images.len() as u64)) {
        Signal::Input(k) => put_signal(builder, Signal::Input(k)),
        Signal::Const(n) => put_number(builder, n),
        Signal::Control(k) => put_signal(builder, Signal::Control(k)),
        Signal::Point { op, args } => point(builder, images, op, args),
        Signal::Delay { x, d, max } => {
            let late = image_at(images, x);
            let by = image_at(images, d);
            delayed(builder, late, by, max, room_at(rooms, x))
        }
        Signal::Back { group, i } => put_signal(builder, Signal::Back { group, i }),
        Signal::Member { group, i } => Ok(image_at(images, graph.group(group)[i as usize])),
        Signal::Read { table, r } => {
            let r = image_at(images, r);
            put_signal(builder, Signal::Read { table, r })
        }
        Signal::Write { table, w, x, r } => {
            let w = image_at(images, w);
            let x = image_at(images, x);
            let r = image_at(images, r);
            put_signal(builder, Signal::Write { table, w, x, r })
        }
    }
}

// Puts an operation over the images of its operands.
fn point(
    builder: &mut Builder,
    images: &[SignalId],
    op: Op,
    args: [SignalId; 4],
) -> Result<SignalId, AllocError>
    requires args { All (λ a. a < length images.now) args }
    requires there { All (λ a. a < length builder.old.signals) images.now }
    ensures value { IfOk result (λ id. (id, builder.new) ≡ operation_of builder.old op (map (λ a. slice_index_or images.now a 0) args)) }
    ensures there { IfOk result (λ id. id < length builder.new.signals) }
{
    let over = [
        image_at(images, args[0]),
        image_at(images, args[1]),
        image_at(images, args[2]),
        image_at(images, args[3]),
    ];
    operation(builder, op, over)
}

// The image of a signal.
fn image_at(images: &[SignalId], s: SignalId) -> SignalId
    requires { s < length images.now }
    ensures { result ≡ slice_index_or images.now s 0 }
{
    images[s.number() as usize]
}

// The room at a signal.
fn room_at(rooms: &[Option<u32>], s: SignalId) -> Option<u32>
    ensures { result ≡ room_in rooms.now s }
{
    match rooms.get(s.number() as usize) {
        Some(room) => *room,
        None => None,
    }
}
