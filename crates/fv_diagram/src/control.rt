// What a program says of its controls.

ghost use Rattle.std.specs.Prelude.{◌≡◌, IfOk};

use std::alloc::{AllocError, Global};
use std::marker::Model;

/// A control's label: its bytes.
#[derive(Debug, Drop)]
pub struct Label {
    bytes: Vec<u8>,
}

impl Model for Label {
    ghost use Rattle.std.specs.Prelude.{List, ℕ};

    ghost Value = { List ℕ };

    ghost view = { λ l. l.bytes.items };
}

impl Label {
    /// The label of these bytes.
    pub fn new(alloc: Global, bytes: &[u8]) -> Result<Label, AllocError>
        ensures { IfOk result (λ l. l ≡ bytes.now) }
    {
        let bytes = Vec::from_slice(alloc, bytes)?;
        Ok(Label { bytes })
    }

    /// Its bytes.
    pub fn bytes(&self) -> &[u8]
        ensures { result.now ≡ self.now }
    {
        &self.bytes
    }
}

/// What kind of control it is.
#[derive(Clone, Copy, PartialEq, Eq, Debug)]
pub enum ControlKind {
    Button,
    Checkbox,
    HSlider,
    VSlider,
    NEntry,
}

/// A control of a program.
#[derive(Debug, Drop)]
pub struct ControlInfo {
    /// Which of the five kinds it is.
    pub kind: ControlKind,
    /// The bytes of its label, without quotes.
    pub label: Label,
    /// The value before any change.
    pub init: i32,
    /// The least value.
    pub min: i32,
    /// The greatest value.
    pub max: i32,
}
