// How far back signals are read.

ghost use Rattle.std.specs.Prelude.{◌≡◌, ◌<◌, length, map, max, slice_index, slice_index_or, slice_set, true, false, All, IfOk};
ghost use Rattle.fv_num.specs.headline.Frames.{table};
ghost use Rattle.fv_signal.specs.headline.Value.{NamesWithin};
ghost use Rattle.fv_analysis.specs.headline.Stands.{stands_of};
ghost use Rattle.fv_analysis.specs.headline.History.{history_of, history_from};
ghost use Rattle.fv_analysis.specs.inner.History.{IsOver, Tell, TellMore};

use crate::history_list::Histories;
use crate::resolve::stands;
use fv_signal::{Graph, Signal, SignalId};
use std::alloc::{AllocError, Global};

/// How far back each signal is read: as far as the longest delay of what it stands for, and by one sample where Backs alone
/// read it.
pub fn largest_delays(alloc: Global, graph: &Graph) -> Result<Histories, AllocError>
    ensures histories { IfOk result (λ h. h ≡ table (length graph.now.signals) (history_of graph.now)) }
    ensures long { IfOk result (λ h. length h ≡ length graph.now.signals) }
{
    let stands = stands(alloc, graph)?;
    let count = graph.len() as usize;
    let mut delays = vec![in alloc; 0u32; count]?;
    let mut backs = vec![in alloc; false; count]?;
    tell_all(graph, &stands, &mut delays, &mut backs);
    let all = histories(alloc, &stands, &delays, &backs)?;
    Ok(Histories::new(all))
}

// The history of what each signal stands for.
fn histories(
    alloc: Global,
    stands: &[SignalId],
    delays: &[u32],
    backs: &[bool],
) -> Result<Vec<u32>, AllocError>
    requires delays { All (λ r. r < length delays.now) stands.now }
    requires backs { All (λ r. r < length backs.now) stands.now }
    ensures { IfOk result (λ all. all.items ≡ map (λ r. history_from (slice_index_or delays.now r 0) (slice_index_or backs.now r false)) stands.now) }
{
    let mut all = Vec::new(alloc);
    for stand in stands {
        let place = stand.number() as usize;
        all.push(history(delays[place], backs[place]))?;
    }
    Ok(all)
}

// The greatest delay of each signal, and whether a Back names it, where nothing is told before.
fn tell_all(graph: &Graph, stands: &[SignalId], delays: &mut Vec<u32>, backs: &mut Vec<bool>)
    requires stands { stands.now ≡ stands_of graph.now }
    requires there { All (λ r. r < length graph.now.signals) stands.now }
    requires nothing { Tell graph.now 0 delays.old.items backs.old.items }
    ensures { Tell graph.now (length graph.now.signals) delays.new.items backs.new.items }
{
    for place in 0..graph.len() {
        let signal = graph.signal(SignalId::new(place));
        tell(graph, stands, delays, backs, signal);
    }
}

// Notes what one signal more reads.
fn tell(
    graph: &Graph,
    stands: &[SignalId],
    delays: &mut Vec<u32>,
    backs: &mut Vec<bool>,
    signal: Signal,
)
    requires stands { stands.now ≡ stands_of graph.now }
    requires there { All (λ r. r < length graph.now.signals) stands.now }
    requires delays { length delays.old.items ≡ length graph.now.signals }
    requires backs { length backs.old.items ≡ length graph.now.signals }
    requires over { IsOver (length graph.now.signals) signal }
    requires names { NamesWithin graph.now signal }
    ensures { TellMore graph.now signal delays.old.items backs.old.items delays.new.items backs.new.items }
{
    match signal {
        Signal::Delay { x, d: _, max } => tell_delay(stands, delays, x, max),
        Signal::Back { group, i } => {
            let definition = graph.group(group)[i as usize];
            tell_back(stands, backs, definition);
        }
        Signal::Input(_) => {}
        Signal::Const(_) => {}
        Signal::Control(_) => {}
        Signal::Point { op: _, args: _ } => {}
        Signal::Member { group: _, i: _ } => {}
        Signal::Read { table: _, r: _ } => {}
        Signal::Write {
            table: _,
            w: _,
            x: _,
            r: _,
        } => {}
    }
}

// Notes a delay of what a signal stands for, by at most `max` samples.
fn tell_delay(stands: &[SignalId], delays: &mut Vec<u32>, x: SignalId, most: u32)
    requires there { x < length stands.now }
    requires within { All (λ r. r < length delays.old.items) stands.now }
    ensures { let place = slice_index stands.now x in delays.new.items ≡ slice_set delays.old.items place (max (slice_index delays.old.items place) most) }
{
    let place = stands[x.number() as usize].number() as usize;
    delays[place] = delays[place].max(most);
}

// Notes that a Back names what a signal stands for.
fn tell_back(stands: &[SignalId], backs: &mut Vec<bool>, x: SignalId)
    requires there { x < length stands.now }
    requires within { All (λ r. r < length backs.old.items) stands.now }
    ensures { backs.new.items ≡ slice_set backs.old.items (slice_index stands.now x) true }
{
    let place = stands[x.number() as usize].number() as usize;
    backs[place] = true;
}

// The history of a signal with this greatest delay, which a Back names or not.
fn history(delay: u32, back: bool) -> u32
    ensures { result ≡ history_from delay back }
{
    if delay > 0 { delay } else { u32::from(back) }
}
