// The histories of a graph's signals.

ghost use Rattle.std.specs.Prelude.{◌≡◌, ◌<◌, length, slice_index};

use fv_signal::SignalId;
use std::marker::Model;

/// How far back each signal of a graph is read, in samples.
#[derive(Drop)]
pub struct Histories {
    histories: Vec<u32>,
}

impl Model for Histories {
    ghost use Rattle.std.specs.Prelude.{List, ℕ};

    ghost Value = { List ℕ };

    ghost view = { λ a. a.histories.items };
}

impl Histories {
    /// These histories, in the order of the signals.
    pub fn new(histories: Vec<u32>) -> Histories
        ensures { result ≡ histories.items }
    {
        Histories { histories }
    }

    /// How far back a signal is read.
    pub fn get(&self, signal: SignalId) -> u32
        requires { signal < length self.now }
        ensures { result ≡ slice_index self.now signal }
    {
        self.histories[signal.number() as usize]
    }
}
