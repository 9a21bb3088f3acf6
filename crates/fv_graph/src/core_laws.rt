// The laws of the core.

ghost use Rattle.std.specs.Prelude.{◌≡◌, ℕ, ◌<◌, List, Some};
ghost use Rattle.fv_graph.specs.Net.{Net, IsNet};
ghost use Rattle.fv_graph.specs.Core.{Now, replayed, opening};
ghost use Rattle.fv_graph.specs.Lean.{lean_replayed};
ghost use Rattle.fv_graph.specs.Law.{CoreLaw};
ghost use Rattle.fv_graph.specs.declared.event.Event.{Event};

/// Of events that replay, each task is taken at most once, and after all that it reads. Once all workers have left, all
/// tasks are done, and were taken.
pub fn tasks_run_once()
    ensures { (n : Net) (workers : ℕ) (events : List Event) (z : Now) → IsNet n → 0 < workers → replayed n (opening n workers) events ≡ Some z
        → CoreLaw n workers events z }
{}

/// Events that replay do so in the lean core too, which has no deques, and leave the same state but for these.
pub fn lean_core_follows()
    ensures { (n : Net) (workers : ℕ) (events : List Event) (z : Now) → IsNet n → 0 < workers → replayed n (opening n workers) events ≡ Some z
        → lean_replayed n (opening n workers) events ≡ Some (record z { deques = (opening n workers).deques }) }
{}
