// What members stand for.

ghost use Rattle.std.specs.Prelude.{◌≡◌, ◌<◌, length, All, IfOk};
ghost use Rattle.fv_analysis.specs.headline.Stands.{node, stand_in, stands_of};

use fv_signal::{Graph, Signal, SignalId};
use std::alloc::{AllocError, Global};

/// What each signal stands for, which is no member.
pub fn stands(alloc: Global, graph: &Graph) -> Result<Vec<SignalId>, AllocError>
    ensures stands { IfOk result (λ v. v.items ≡ stands_of graph.now) }
    ensures there { IfOk result (λ v. All (λ r. r < length graph.now.signals) v.items) }
{
    let mut all = Vec::new(alloc);
    for place in 0..graph.len() {
        let stand = stand_of(graph, &all, place);
        all.push(stand)?;
    }
    Ok(all)
}

// What a signal stands for, where it is known what the earlier ones stand for.
fn stand_of(graph: &Graph, stands: &[SignalId], place: u64) -> SignalId
    requires place { place < length graph.now.signals }
    requires known { length stands.now ≡ place }
    requires there { All (λ r. r < length graph.now.signals) stands.now }
    ensures stand { result ≡ stand_in graph.now stands.now (node graph.now place) }
    ensures there { result < length graph.now.signals }
{
    match graph.signal(SignalId::new(place)) {
        Signal::Member { group, i } => {
            let definition = graph.group(group)[i as usize];
            stands[definition.number() as usize]
        }
        Signal::Input(_)
        | Signal::Const(_)
        | Signal::Control(_)
        | Signal::Point { .. }
        | Signal::Delay { .. }
        | Signal::Back { .. }
        | Signal::Read { .. }
        | Signal::Write { .. } => SignalId::new(place),
    }
}
