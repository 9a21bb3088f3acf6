// What a graph's outputs are.

use fv_signal::{Graph, Signal, SignalId};

/// The signal that is the first output.
pub(crate) fn first_output(graph: &Graph) -> Option<Signal> {
    match graph.outputs() {
        [s, ..] if s.number() < graph.len() => Some(graph.signal(*s)),
        _ => None,
    }
}

// The signal that a delay by a number delays, and by how many samples.
fn by_number(graph: &Graph, s: SignalId) -> Option<(Signal, u32)> {
    if s.number() >= graph.len() {
        return None;
    }
    match graph.signal(s) {
        Signal::Delay { x, d, max } => match graph.signal(d) {
            Signal::Const(_) => Some((graph.signal(x), max)),
            _ => None,
        },
        _ => None,
    }
}

/// The signal that the first output delays by a number, and by how many samples.
pub(crate) fn first_by_number(graph: &Graph) -> Option<(Signal, u32)> {
    match graph.outputs() {
        [s, ..] => by_number(graph, *s),
        [] => None,
    }
}
