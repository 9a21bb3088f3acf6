// The controls of a program.

ghost use Rattle.std.specs.Prelude.{ℕ, ◌≡◌, [], List, IfOk, IsTrue, MatchResult, Ok};
ghost use Rattle.fv_rules.specs.declared.refusal.EvalRefusal.TheVariants.{NoMemory};
ghost use Rattle.fv_rules.specs.headline.Steps.{is_alike, is_kind};
ghost use Rattle.fv_eval_drawing.specs.Controls.{Enters, HasLabel, info_of};

use fv_diagram::{ControlInfo, ControlKind, Label};
use fv_rules::{EvalRefusal, too_many_to_count};
use indexmap::IndexSet;
use std::alloc::Global;
use std::marker::Model;

/// What a control is but for its label.
#[derive(Clone, Copy)]
pub struct Range {
    pub kind: ControlKind,
    pub init: i32,
    pub min: i32,
    pub max: i32,
}

impl Range {
    /// The control with this label.
    pub fn named(&self, label: Label) -> ControlInfo
        ensures { result ≡ info_of self.now label }
    {
        ControlInfo {
            kind: self.kind,
            label,
            init: self.init,
            min: self.min,
            max: self.max,
        }
    }
}

/// The controls of a program, in the order of their first evaluation.
#[derive(Drop)]
pub struct Controls {
    list: Vec<ControlInfo>,
    // The label of each, in the same order.
    labels: IndexSet<Vec<u8>>,
    alloc: Global,
}

impl Model for Controls {
    ghost use Rattle.std.specs.Prelude.{List};
    ghost use Rattle.fv_diagram.specs.declared.control.ControlInfo.{ControlInfo};
    ghost use Rattle.fv_eval_drawing.specs.Controls.{AreLabels};

    ghost Value = { List ControlInfo };

    ghost view = { λ c. c.list.items };

    ghost invariant = { λ c. AreLabels c.labels.keys c.list.items };
}

impl Controls {
    /// None.
    pub fn new(alloc: Global) -> Controls
        ensures { result ≡ [] }
    {
        Controls {
            list: Vec::new(alloc),
            labels: IndexSet::new(alloc),
            alloc,
        }
    }

    /// The list.
    pub fn as_slice(&self) -> &[ControlInfo]
        ensures { result.now ≡ self.now }
    {
        self.list.as_slice()
    }

    // Whether a control that has the label of the one with this number is that one again: it is of the same kind, with the same
    // numbers.
    pub(crate) fn is_again(&self, number: u32, range: &Range) -> bool
        ensures { IsTrue result → (label : List ℕ) → HasLabel self.now label number
            → Enters self.now self.now (info_of range.now label) (Ok number) }
    {
        if range.init < range.min || range.init > range.max {
            return false;
        }
        match self.list.get(number as usize) {
            None => false,
            Some(known) => is_again(range, known),
        }
    }

    /// Enters a control, and returns its number: a new one where its label is new.
    pub fn enter(&mut self, info: ControlInfo) -> Result<u32, EvalRefusal>
        ensures enters { Enters self.old self.new info result }
        ensures label { IfOk result (HasLabel self.new info.label) }
        ensures keeps { (label : List ℕ) (k : ℕ) → HasLabel self.old label k → HasLabel self.new label k }
    {
        if info.init < info.min || info.init > info.max {
            return Err(EvalRefusal::ControlBounds { label: info.label });
        }
        match self.labels.get_index_of(info.label.bytes()) {
            Some(i) => {
                if !is_alike(&info, &self.list[i]) {
                    return Err(EvalRefusal::ControlClash { label: info.label });
                }
                number(i)
            }
            None => {
                let i = number(self.list.len())?;
                let label = Vec::from_slice(self.alloc, info.label.bytes())?;
                self.list.push(info)?;
                if self.labels.insert(label).is_err() {
                    let _ = self.list.pop();
                    return Err(EvalRefusal::NoMemory);
                }
                Ok(i)
            }
        }
    }
}

// A number of a control.
fn number(i: usize) -> Result<u32, EvalRefusal>
    ensures { MatchResult result (λ n. n ≡ i) (λ e. e ≡ NoMemory) }
{
    match u32::try_from(i) {
        Ok(n) => Ok(n),
        Err(_too_large) => Err(EvalRefusal::from(too_many_to_count())),
    }
}

// Whether controls are of one kind, with the same init, min and max.
fn is_alike(a: &ControlInfo, b: &ControlInfo) -> bool
    ensures { result ≡ is_alike a.now b.now }
{
    is_kind(a.kind, b.kind) && (a.init == b.init && (a.min == b.min && a.max == b.max))
}

// Whether a control of this kind, init, min and max is the known one again, where both have one label.
fn is_again(range: &Range, known: &ControlInfo) -> bool
    ensures { (label : List ℕ) → result ≡ is_alike (info_of range.now label) known.now }
{
    is_kind(range.kind, known.kind)
        && (range.init == known.init && (range.min == known.min && range.max == known.max))
}

// Whether kinds are the same.
fn is_kind(a: ControlKind, b: ControlKind) -> bool
    ensures { result ≡ is_kind a b }
{
    a == b
}
