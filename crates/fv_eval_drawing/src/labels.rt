// The numbers of controls, by the places of their labels in the text.

ghost use Rattle.std.specs.Prelude.{ℕ, ◌≡◌, [], List, IfSome, Ok};
ghost use Rattle.fv_parse.specs.headline.Trees.{label_of};
ghost use Rattle.fv_parse.specs.Trees.{Parsed};
ghost use Rattle.fv_diagram.specs.declared.control.ControlInfo.{ControlInfo};
ghost use Rattle.fv_eval_drawing.specs.Controls.{AreLabelled, Enters, HasLabel, info_of};

use crate::controls::{Controls, Range};
use std::alloc::{AllocError, Global};
use std::marker::Model;

/// For each string token of a text the number of the control that it is the label of, where that was met.
#[derive(Drop)]
pub struct Labels {
    numbers: Vec<Option<u32>>,
}

impl Model for Labels {
    ghost use Rattle.std.specs.Prelude.{List, Option, ℕ};

    ghost Value = { List (Option ℕ) };

    ghost view = { λ l. l.numbers.items };
}

impl Labels {
    /// None was met.
    pub fn new(alloc: Global) -> Labels
        ensures { result ≡ [] }
    {
        Labels {
            numbers: Vec::new(alloc),
        }
    }

    /// The number of a control with this label, where it was met, and is the same.
    pub fn met(&self, controls: &Controls, label: u64, range: &Range) -> Option<u32>
        ensures { (p : Parsed) → AreLabelled p controls.now self.now
            → IfSome result (λ k. Enters controls.now controls.now (info_of range.now (label_of p.tokens label)) (Ok k)) }
    {
        let number = self.get(label)?;
        if controls.is_again(number, range) {
            Some(number)
        } else {
            None
        }
    }

    // The number of the control with this label, where it was met.
    fn get(&self, label: u64) -> Option<u32>
        ensures { (p : Parsed) (cs : List ControlInfo) → AreLabelled p cs self.now → IfSome result (HasLabel cs (label_of p.tokens label)) }
    {
        match self.numbers.get(label as usize) {
            Some(number) => *number,
            None => None,
        }
    }

    /// Remembers that the control with this label has this number. What there is no memory for is forgotten.
    pub fn keep(&mut self, label: u64, number: u32)
        ensures { (p : Parsed) (cs : List ControlInfo) → AreLabelled p cs self.old → HasLabel cs (label_of p.tokens label) number
            → AreLabelled p cs self.new }
    {
        let _refused = self.remember(label, number);
    }

    // Remembers that the control with this label has this number. Where memory runs out, nothing is remembered.
    fn remember(&mut self, label: u64, number: u32) -> Result<(), AllocError>
        ensures { (p : Parsed) (cs : List ControlInfo) → AreLabelled p cs self.old → HasLabel cs (label_of p.tokens label) number
            → AreLabelled p cs self.new }
    {
        let place = label as usize;
        'grow: while self.numbers.len() <= place {
            self.numbers.push(None)?;
        }
        self.numbers[place] = Some(number);
        Ok(())
    }
}
