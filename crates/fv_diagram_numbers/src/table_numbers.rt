// A table's size and its numbers, by running its head.

ghost use Rattle.std.specs.Prelude.{◌≡◌, ◌<◌, true, length, IfOk};
ghost use Rattle.fv_diagram.specs.Words.{argument};
ghost use Rattle.fv_diagram.specs.headline.Diagram.{outputs};
ghost use Rattle.fv_diagram.specs.Composed.{IsComposed};
ghost use Rattle.fv_diagram.specs.Arena.{count_of, tree_of};
ghost use Rattle.fv_diagram_numbers.specs.headline.Numbers.{at_first};
ghost use Rattle.fv_diagram_numbers.specs.headline.Heads.{is_fixed, table_numbers};

use fv_diagram::{
    DiagramId, Diagrams, answers_alike, answers_each, answers_one_more, composed_is_well,
};
use fv_diagram_runner::Stepper;
use std::alloc::{AllocError, Global};

/// The number that a diagram gives at time 0 in its first stream. It depends on nothing and gives two streams.
pub fn first_of(alloc: Global, diagrams: &Diagrams, head: DiagramId) -> Result<i32, AllocError>
    requires inside { head < count_of diagrams.now }
    requires composed { IsComposed (tree_of diagrams.now head) }
    requires fixed { is_fixed (tree_of diagrams.now head) ≡ true }
    requires two { outputs (tree_of diagrams.now head) ≡ 2 }
    ensures { IfOk result (λ n. n ≡ argument (at_first (tree_of diagrams.now head)) 0) }
{
    // For the prover: a diagram whose compositions hold is well formed, so it can run; and what depends on nothing answers alike on
    // any streams.
    composed_is_well();
    answers_alike();
    let mut stepper = Stepper::new(alloc, diagrams, head)?;
    let mut out = [0, 0];
    stepper.step(&[], &[], &mut out)?;
    Ok(out[0])
}

/// The first `count` numbers of the second stream that a diagram gives, which depends on nothing and gives two.
pub fn numbers(
    alloc: Global,
    diagrams: &Diagrams,
    head: DiagramId,
    count: u64,
) -> Result<Vec<i32>, AllocError>
    requires inside { head < count_of diagrams.now }
    requires composed { IsComposed (tree_of diagrams.now head) }
    requires fixed { is_fixed (tree_of diagrams.now head) ≡ true }
    requires two { outputs (tree_of diagrams.now head) ≡ 2 }
    ensures numbers { IfOk result (λ v. v.items ≡ table_numbers count (tree_of diagrams.now head)) }
    ensures many { IfOk result (λ v. length v.items ≡ count) }
{
    // For the prover: a diagram whose compositions hold is well formed, so it can run; what depends on nothing answers alike on any
    // streams, with one frame for each frame; and one frame more adds one to the answer and leaves the others.
    composed_is_well();
    answers_alike();
    answers_each();
    answers_one_more();
    let mut stepper = Stepper::new(alloc, diagrams, head)?;
    let mut numbers = Vec::with_capacity(alloc, count as usize)?;
    let mut out = [0, 0];
    for i in 0..count {
        stepper.step(&[], &[], &mut out)?;
        numbers.push(out[1])?;
    }
    Ok(numbers)
}
