// The lines of all workers as one journal.

ghost use Rattle.std.specs.Prelude.{◌≡◌, ◌≤◌, [], length, vec_capacity};
ghost use Rattle.std.specs.List.{flat_map};
ghost use Rattle.std.specs.List.Sorted.{IsPermutation, IsNonDecreasingBy};
ghost use Rattle.fv_outside.specs.declared.gate.Line.{Line};
ghost use Rattle.fv_steal.specs.Crews.{lines_of};

use crate::Worker;
use fv_outside::Line;

/// Copies the lines of all workers, one worker after another, where there is room for them. (Then it takes no memory.)
pub(crate) fn copy_lines<C: Drop>(workers: &[Worker<C>], lines: &mut Vec<Line>)
    requires { lines.old.items ≡ [] }
    ensures lines { length (flat_map lines_of workers.now) ≤ vec_capacity lines.old → lines.new.items ≡ flat_map lines_of workers.now }
    ensures room { vec_capacity lines.old ≤ vec_capacity lines.new }
{
    for worker in workers {
        let _ = lines.extend_from_slice(worker.lines());
    }
}

/// Sorts lines by their starts. Each worker wrote its own in that order, so the stable sort finds runs and merges them. Where it is
/// refused its memory, they are sorted in place.
pub(crate) fn sort_lines(lines: &mut Vec<Line>)
    ensures permutation { IsPermutation lines.old.items lines.new.items }
    ensures starts { IsNonDecreasingBy (λ (line : Line). line.start) lines.new.items }
    ensures room { vec_capacity lines.new ≡ vec_capacity lines.old }
{
    if let Ok(()) = lines.sort_by_key(|line| line.start) {
        return;
    }
    lines.sort_unstable_by_key(|line| line.start);
}
