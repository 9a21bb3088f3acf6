// How many members of each group are named.

ghost use Rattle.std.specs.Prelude.{◌≡◌, ◌≤◌, ℕ, ◌<◌, ◌^◌, length, vec_len, IfOk, slice_index_or};
ghost use Rattle.fv_signal.specs.declared.signal.Signal.TheVariants.{Back as back_node};
ghost use Rattle.fv_signal.specs.headline.Value.{NamesWithin};
ghost use Rattle.fv_simplify.specs.Nodes.{node};
ghost use Rattle.fv_simplify.specs.Passing.{HasWidth};
ghost use Rattle.fv_simplify.specs.Runs.{AreNamed};

use fv_signal::{Graph, Signal, SignalId};
use std::alloc::{AllocError, Global};

/// As many members of each group as marked Backs name.
pub(crate) fn widths(alloc: Global, graph: &Graph, marks: &[bool]) -> Result<Vec<u64>, AllocError>
    requires { length marks.now ≡ length graph.now.signals }
    ensures long { IfOk result (λ w. vec_len w ≡ length graph.now.groups) }
    ensures named { IfOk result (λ w. AreNamed graph.now marks.now w.items (length graph.now.signals)) }
    ensures wide { IfOk result (λ w. (s : ℕ) → s < length graph.now.signals → HasWidth (node graph.now s)) }
{
    let mut widths = vec![in alloc; 0u64; graph.groups() as usize]?;
    for place in 0..graph.len() {
        let signal = graph.signal(SignalId::new(place));
        has_width(&signal);
        if marks[place as usize] {
            name(graph, &mut widths, signal);
        }
    }
    Ok(widths)
}

// An operation has four arguments, and takes no more. That is known where the signal is looked into.
fn has_width(signal: &Signal)
    ensures { HasWidth signal.now }
{
    match *signal {
        Signal::Point { op, args } => {
            let _taken = &args[..op.inputs() as usize];
        }
        Signal::Input(_)
        | Signal::Const(_)
        | Signal::Control(_)
        | Signal::Delay { .. }
        | Signal::Back { .. }
        | Signal::Member { .. }
        | Signal::Read { .. }
        | Signal::Write { .. } => (),
    }
}

// Names the member of a Back.
fn name(graph: &Graph, widths: &mut [u64], signal: Signal)
    requires names { NamesWithin graph.now signal }
    requires long { length widths.old ≡ length graph.now.groups }
    ensures long { length widths.new ≡ length widths.old }
    ensures more { (g : ℕ) → slice_index_or widths.old g 0 ≤ slice_index_or widths.new g 0 }
    ensures named { (g k : ℕ) → signal ≡ back_node g k → k < slice_index_or widths.new g 0 }
{
    if let Signal::Back { group, i } = signal {
        // There are more members than i, so one more than i is no greater than a number of them.
        let _members = graph.group(group).len();
        let place = group as usize;
        widths[place] = widths[place].max(i + 1);
    }
}
