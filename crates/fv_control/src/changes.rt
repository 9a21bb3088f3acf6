// The changes of the controls, as their frames come.

ghost use Rattle.std.specs.Prelude.{◌≡◌, ◌<◌, ◌≤◌, List, ℤ, length, take, drop, slice_index_or};
ghost use Rattle.std.specs.List.{AllByRecursion};
ghost use Rattle.fv_control.specs.Laws.{NeverFall, applied};
ghost use Rattle.fv_control.specs.Laws.{no_change};

use crate::script::Change;

/// Makes the changes from number `at` on whose frames have come, and says how many there were so far.
pub fn listen(changes: &[Change], at: usize, frame: usize, values: &mut [i32]) -> usize
    requires there { at ≤ length changes.now }
    requires named { AllByRecursion (λ c. c.control < length values.old) changes.now }
    ensures within { result ≤ length changes.now }
    // The values are those after all changes so far.
    ensures values { (initial : List ℤ) → values.old ≡ applied initial (take at changes.now) → values.new ≡ applied initial (take result changes.now) }
    // The changes so far have come, and those after them have not.
    ensures come { AllByRecursion (λ c. c.frame ≤ frame) (take at changes.now) → AllByRecursion (λ c. c.frame ≤ frame) (take result changes.now) }
    ensures behind { NeverFall 0 changes.now → AllByRecursion (λ c. frame < c.frame) (drop result changes.now) }
{
    let mut next = at;
    'changes: while next < changes.len() {
        let change = changes[next];
        if change.frame as usize > frame {
            return next;
        }
        values[change.control as usize] = value_at(changes, next);
        next += 1;
    }
    next
}

// The value of a change.
fn value_at(changes: &[Change], i: usize) -> i32
    requires { i < length changes.now }
    ensures { result ≡ (slice_index_or changes.now i no_change).value }
{
    changes[i].value
}
