// What is remembered of ways outward.

ghost use Rattle.std.specs.Prelude.{List};
ghost use Rattle.fv_parse.specs.Trees.{Parsed};
ghost use Rattle.fv_eval_scopes.specs.declared.value.Scope.{Scope as AScope};
ghost use Rattle.fv_eval_lookup.specs.Shortcuts.{AreShortcuts};

use crate::around::Around;
use fv_eval_scopes::Slots;
use std::alloc::Global;

/// What is remembered of ways outward: those that look-ups have gone, and which list of definitions around an environment
/// is the nearest one that has a name.
#[derive(Drop)]
pub struct Shortcuts {
    pub(crate) slots: Slots,
    pub(crate) around: Around,
}

impl Shortcuts {
    /// Nothing is remembered.
    pub fn new(alloc: Global) -> Shortcuts
        ensures { (p : Parsed) (scopes : List AScope) → AreShortcuts p scopes result }
    {
        Shortcuts {
            slots: Slots::new(alloc),
            around: Around::new(alloc),
        }
    }
}
