// What a signal reads, where images are read in the place of its operands.

ghost use Rattle.std.specs.Prelude.{◌≡◌, ◌<◌, length};
ghost use Rattle.fv_base.specs.headline.Lists.{at};
ghost use Rattle.fv_signal.specs.headline.Value.{members, definition as definition_of};
ghost use Rattle.fv_analysis.specs.headline.Stands.{node};
ghost use Rattle.fv_simplify.specs.Folding.{reading};

use fv_signal::{Graph, Signal, SignalId};

/// The image of a signal, 0 where there is none.
pub(crate) fn image_of(images: &[SignalId], s: SignalId) -> SignalId
    ensures { result ≡ at images.now s }
{
    match images.get(s.number() as usize) {
        Some(image) => *image,
        None => SignalId::new(0),
    }
}

/// The signal with the images of its operands; a Back and a Member with the image of the definition that they name, in the place
/// of group and number. Two signals that read the same give the same values, as far as the images do.
pub(crate) fn read(graph: &Graph, images: &[SignalId], named: &[SignalId], s: SignalId) -> Signal
    requires { s < length graph.now.signals }
    ensures { result ≡ reading graph.now (at images.now) (at named.now) (node graph.now s) }
{
    match graph.signal(s) {
        Signal::Input(k) => Signal::Input(k),
        Signal::Const(n) => Signal::Const(n),
        Signal::Control(k) => Signal::Control(k),
        Signal::Point { op, args } => Signal::Point {
            op,
            args: [
                image_of(images, args[0]),
                image_of(images, args[1]),
                image_of(images, args[2]),
                image_of(images, args[3]),
            ],
        },
        Signal::Delay { x, d, max } => Signal::Delay {
            x: image_of(images, x),
            d: image_of(images, d),
            max,
        },
        Signal::Back { group, i } => Signal::Back {
            group: 0,
            i: definition(graph, named, group, i),
        },
        Signal::Member { group, i } => Signal::Member {
            group: 0,
            i: definition(graph, named, group, i),
        },
        Signal::Read { table, r } => Signal::Read {
            table,
            r: image_of(images, r),
        },
        Signal::Write { table, w, x, r } => Signal::Write {
            table,
            w: image_of(images, w),
            x: image_of(images, x),
            r: image_of(images, r),
        },
    }
}

// The number of the image of a member's definition.
fn definition(graph: &Graph, named: &[SignalId], group: u64, i: u64) -> u64
    requires group { group < length graph.now.groups }
    requires member { i < length (members graph.now group) }
    ensures { result ≡ at named.now (definition_of graph.now group i) }
{
    image_of(named, graph.group(group)[i as usize]).number()
}
