// A cache of the ways outward that look-ups have gone.

ghost use Rattle.std.specs.Prelude.{◌≡◌, ◌<◌, [], List, IfSome, length};
ghost use Rattle.fv_parse.specs.Trees.{Parsed};
ghost use Rattle.fv_eval_scopes.specs.declared.value.Scope.{Scope as AScope};
ghost use Rattle.fv_eval_scopes.specs.Slots.{AreSlots};
ghost use Rattle.fv_eval_scopes.specs.Outward.{SkipsTo};

use crate::scopes::STRIDE;
use crate::value::EnvId;
use std::alloc::{AllocError, Global};
use std::marker::Model;

/// How many slots there are at first; then they double up to `MOST`.
const FEWEST: usize = 1024;

const MOST: usize = 1_048_576;

/// A look-up of no more steps than these is short, and is not remembered.
const FEW_STEPS: u64 = 16;

/// From one environment outward to another one no scope has anything of a name.
#[derive(Clone, Copy, Debug)]
pub struct Shortcut {
    pub name: u64,
    pub from: EnvId,
    pub to: EnvId,
}

/// A direct-mapped cache of shortcuts. Each name and environment has one slot; a later one evicts what it has.
#[derive(Drop)]
pub struct Slots {
    slots: Vec<Shortcut>,
    /// How many were remembered.
    kept: u64,
}

impl Model for Slots {
    ghost use Rattle.std.specs.Prelude.{List};
    ghost use Rattle.fv_eval_scopes.specs.declared.slots.Shortcut.{Shortcut};

    ghost Value = { List Shortcut };

    ghost view = { λ s. s.slots.items };
}

impl Slots {
    /// Nothing is remembered.
    pub fn new(alloc: Global) -> Slots
        ensures { result ≡ [] }
    {
        Slots {
            slots: Vec::new(alloc),
            kept: 0,
        }
    }

    // The slot of a name and an environment, where there are slots.
    fn place(&self, name: u64, from: EnvId) -> Option<usize>
        ensures { IfSome result (λ i. i < length self.now) }
    {
        let count = self.slots.len() as u64;
        if count == 0 {
            return None;
        }
        let number = from.number();
        let near = (number / STRIDE).wrapping_add(number % STRIDE);
        let mixed = name.wrapping_mul(0x9e37_79b9).wrapping_add(near);
        // The count is a power of two, unless a growth was refused.
        Some((mixed & (count - 1)) as usize)
    }

    /// Where the shortcut of a name leads from an environment. Without one, or before `FEW_STEPS` steps, that is the environment
    /// itself.
    pub fn outward(&self, name: u64, from: EnvId, steps: u64) -> EnvId
        ensures { (p : Parsed) (scopes : List AScope) → AreSlots p scopes self.now → SkipsTo p scopes name from result }
    {
        if steps < FEW_STEPS {
            return from;
        }
        let Some(i) = self.place(name, from) else {
            return from;
        };
        let found = self.slots[i];
        if found.name == name && found.from.number() == from.number() {
            found.to
        } else {
            from
        }
    }

    /// Remembers the way from the last mark to here, each time that the steps of a look-up have doubled. Returns the last mark.
    pub fn mark(&mut self, name: u64, last: EnvId, here: EnvId, steps: u64) -> EnvId
        ensures skips { (p : Parsed) (scopes : List AScope) → SkipsTo p scopes name last here → SkipsTo p scopes name result here }
        ensures kept { (p : Parsed) (scopes : List AScope) → AreSlots p scopes self.old → SkipsTo p scopes name last here
            → AreSlots p scopes self.new }
    {
        if !has_doubled(steps) {
            return last;
        }
        self.keep(name, last, here, steps);
        here
    }

    /// Remembers the way of a look-up from one environment to another, unless it was short. What there is no memory for is not
    /// remembered.
    pub fn keep(&mut self, name: u64, from: EnvId, to: EnvId, steps: u64)
        ensures { (p : Parsed) (scopes : List AScope) → AreSlots p scopes self.old → SkipsTo p scopes name from to
            → AreSlots p scopes self.new }
    {
        if steps > FEW_STEPS {
            let _refused = self.remember(name, from, to);
        }
    }

    // Remembers a way from one environment to another.
    fn remember(&mut self, name: u64, from: EnvId, to: EnvId) -> Result<(), AllocError>
        ensures { (p : Parsed) (scopes : List AScope) → AreSlots p scopes self.old → SkipsTo p scopes name from to
            → AreSlots p scopes self.new }
    {
        self.widen(name, from)?;
        self.kept = self.kept.saturating_add(1);
        if let Some(i) = self.place(name, from) {
            self.slots[i] = Shortcut { name, from, to };
        }
        Ok(())
    }

    // Doubles the slots once half as many were remembered. A new one leads nowhere.
    fn widen(&mut self, name: u64, from: EnvId) -> Result<(), AllocError>
        ensures { (p : Parsed) (scopes : List AScope) → AreSlots p scopes self.old → AreSlots p scopes self.new }
    {
        let count = self.slots.len();
        if self.kept < count as u64 / 2 || count >= MOST {
            return Ok(());
        }
        let wanted = if count < FEWEST { FEWEST } else { 2 * count };
        'widen: while self.slots.len() < wanted {
            self.slots.push(Shortcut {
                name,
                from,
                to: from,
            })?;
        }
        Ok(())
    }
}

// Whether a look-up is no longer short, and its steps have doubled since this was so last.
fn has_doubled(steps: u64) -> bool {
    steps >= FEW_STEPS && steps & (steps - 1) == 0
}
