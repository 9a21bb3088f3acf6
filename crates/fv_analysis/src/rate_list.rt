// The rates of a graph's signals.

ghost use Rattle.std.specs.Prelude.{◌≡◌, ◌<◌, length};
ghost use Rattle.fv_signal.specs.headline.Rates.{rate_at};

use fv_signal::{Rate, SignalId};
use std::marker::Model;

/// How often each signal of a graph may change.
#[derive(Drop)]
pub struct Rates {
    rates: Vec<Rate>,
}

impl Model for Rates {
    ghost use Rattle.std.specs.Prelude.{List};
    ghost use Rattle.fv_signal.specs.declared.rate.Rate.{Rate as SignalRate};

    ghost Value = { List SignalRate };

    ghost view = { λ a. a.rates.items };
}

impl Rates {
    /// These rates, in the order of the signals.
    pub fn new(rates: Vec<Rate>) -> Rates
        ensures { result ≡ rates.items }
    {
        Rates { rates }
    }

    /// The rate of a signal.
    pub fn get(&self, signal: SignalId) -> Rate
        requires { signal < length self.now }
        ensures { result ≡ rate_at self.now signal }
    {
        self.rates[signal.number() as usize]
    }
}
