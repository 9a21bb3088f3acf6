// The laws of a board's rule.

ghost use Rattle.std.specs.Prelude.{◌≡◌, ℕ, ◌^◌, ◌<◌, List, Option, Some};
ghost use Rattle.fv_graph.specs.TasksBeside.{task_count};
ghost use Rattle.fv_graph.specs.Graph.{IsGraph};
ghost use Rattle.fv_ready.specs.Steps.{StepLaw, OpeningLaw};
ghost use Rattle.fv_ready.specs.declared.view.About.{About};
ghost use Rattle.fv_ready.specs.declared.view.View.{View};

use crate::Parcel;

/// Each step of a seat that knows the board leads from a state that meets the rule to one that meets it. The board then shows one
/// legal event more of the lean core: a claim that wins shows a Take, a stamp at a finish a Finish, and an arrival an Arrive. After
/// any other step it shows just what it showed. A seat that has done nothing and has several numbers may be split, and a seat may
/// take in another by a join. Both keep the rule and, taken together, what the seats did and have. While no seat is spent, a split
/// shows just what was shown.
pub fn step_law<C: Parcel>()
    ensures { (a : About C) (id : ℕ) (v : View C) (c : List (ℕ × Option C)) → IsGraph a.tasks.value.tasks
        → task_count a.tasks.value.tasks < 2 ^ 62 → v.board ≡ Some a → StepLaw C.edge_of C.key_of a id v c }
{}

/// A board that meets the rule, in which no seat is spent and no seat has done anything, shows the lean core's opening state.
pub fn opening_law<C: Parcel>()
    ensures { OpeningLaw C.edge_of C.key_of }
{}
