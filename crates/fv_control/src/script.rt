// Scripts.

ghost use Rattle.std.specs.Prelude.{◌≡◌, ◌+◌, ◌^◌, ◌<◌, ◌≤◌, ◌==◌, length, ◌++◌, Option, Ok, Err, IfOk, IfErr};
ghost use Rattle.fv_control.specs.declared.script.Change.{Change};
ghost use Rattle.fv_control.specs.headline.Script.{script, line_says, listed, least_behind};
ghost use Rattle.fv_control.specs.Script.{IsOfScript};

use crate::line::{first_place, read_line};
use crate::refusal::ScriptRefusal;
use fv_base::Role;
use fv_base::limits::LONGEST_TEXT;
use fv_diagram::ControlInfo;
use std::alloc::Global;
use std::marker::Model;

/// From this frame on the control has this value.
#[derive(Clone, Copy, PartialEq, Eq, Debug)]
pub struct Change {
    pub frame: u32,
    /// The control's number.
    pub control: u32,
    pub value: i32,
}

/// A script: its changes in order.
#[derive(Debug, Drop)]
pub struct Script {
    changes: Vec<Change>,
}

impl Model for Script {
    ghost use Rattle.std.specs.Prelude.{List};
    ghost use Rattle.fv_control.specs.declared.script.Change.{Change};

    ghost Value = { List Change };

    ghost view = { λ s. s.changes.items };
}

impl Script {
    /// The script that the bytes spell for these controls.
    pub fn read(
        alloc: Global,
        bytes: &[u8],
        controls: &[ControlInfo],
    ) -> Result<Script, ScriptRefusal>
        requires { length controls.now < 2 ^ 32 }
        ensures spelled { IfOk result (λ s. script controls.now bytes.now ≡ Ok s) }
        ensures refused { IfErr result (λ e. IsOfScript e → script controls.now bytes.now ≡ Err e) }
    {
        let changes = read_changes(alloc, bytes, controls)?;
        Ok(Script { changes })
    }

    /// Its changes, in the script's order.
    pub fn changes(&self) -> &[Change]
        ensures { result.now ≡ self.now }
    {
        &self.changes
    }
}

// The changes that the bytes spell.
fn read_changes(
    alloc: Global,
    bytes: &[u8],
    controls: &[ControlInfo],
) -> Result<Vec<Change>, ScriptRefusal>
    requires { length controls.now < 2 ^ 32 }
    ensures spelled { IfOk result (λ v. script controls.now bytes.now ≡ Ok v.items) }
    ensures refused { IfErr result (λ e. IsOfScript e → script controls.now bytes.now ≡ Err e) }
{
    if bytes.len() > LONGEST_TEXT {
        return Err(ScriptRefusal::TextTooLong {
            role: Role::Controls,
        });
    }
    let mut changes = Vec::new(alloc);
    let mut at = 0;
    let mut number = 1u32;
    let mut least = 0u32;
    'lines: loop {
        let rest = &bytes[at..];
        let end = first_place(rest, b'\n');
        least = listen(&rest[..end], controls, least, number, &mut changes)?;
        if end == rest.len() {
            return Ok(changes);
        }
        at += end + 1;
        number += 1;
    }
}

// Appends the change of a line, if it says one; and the least frame after it.
fn listen(
    line: &[u8],
    controls: &[ControlInfo],
    least: u32,
    number: u32,
    changes: &mut Vec<Change>,
) -> Result<u32, ScriptRefusal>
    requires { length controls.now < 2 ^ 32 }
    ensures said { IfOk result (λ behind. (c : Option Change) × (line_says controls.now least number line.now ≡ Ok c)
        × (changes.new.items ≡ changes.old.items ++ listed c) × (behind ≡ least_behind least c)) }
    ensures refused { IfErr result (λ e. IsOfScript e → line_says controls.now least number line.now ≡ Err e) }
{
    match read_line(line, controls, least, number)? {
        Some(change) => {
            changes.push(change)?;
            Ok(change.frame)
        }
        None => Ok(least),
    }
}
