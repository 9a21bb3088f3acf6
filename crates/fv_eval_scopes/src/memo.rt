// The numbers of diagrams, remembered.

ghost use Rattle.std.specs.Prelude.{◌≡◌, ◌<◌, ◌≤◌, ◌++◌, [], length, IfOk, ℕ, List};
ghost use Rattle.fv_diagram.specs.headline.Diagram.{Constant};
ghost use Rattle.fv_diagram.specs.Composed.{IsComposed};
ghost use Rattle.fv_diagram.specs.Arena.{Arena, count_of, tree_of};
ghost use Rattle.fv_diagram_numbers.specs.headline.Numbers.{number_of};
ghost use Rattle.fv_rules.specs.headline.Matching.{number_or};
ghost use Rattle.fv_eval_scopes.specs.Memo.{Remembers, AddsIntegers, IsKnown};

use fv_base::limits::MOST_DIAGRAMS;
use fv_diagram::{Arity, DiagramId, Diagrams, Node, PutRefusal};
use fv_diagram_numbers::number_of;
use fv_rules::too_many_to_keep;
use std::alloc::{AllocError, Global};
use std::marker::Model;

/// What is remembered of a diagram.
#[derive(Clone, Copy, Debug)]
pub enum Known {
    /// Nothing yet.
    Unasked,
    /// It has no number.
    Without,
    Number(i32),
}

/// The numbers of the diagrams of an arena that were asked for.
#[derive(Drop)]
pub struct Numbers {
    known: Vec<Known>,
}

impl Model for Numbers {
    ghost use Rattle.std.specs.Prelude.{List};
    ghost use Rattle.fv_eval_scopes.specs.declared.memo.Known.{Known};

    ghost Value = { List Known };

    ghost view = { λ n. n.known.items };
}

impl Numbers {
    /// None.
    pub fn new(alloc: Global) -> Numbers
        ensures { result ≡ [] }
    {
        Numbers {
            known: Vec::new(alloc),
        }
    }

    /// The number of a diagram, which is found once and then remembered.
    pub fn number_of(
        &mut self,
        alloc: Global,
        diagrams: &Diagrams,
        id: DiagramId,
    ) -> Result<Option<i32>, AllocError>
        requires inside { id < count_of diagrams.now }
        requires composed { IsComposed (tree_of diagrams.now id) }
        requires known { Remembers diagrams.now self.old }
        ensures number { IfOk result (λ o. o ≡ number_of (tree_of diagrams.now id)) }
        ensures known { Remembers diagrams.now self.new }
    {
        match self.remembered(id) {
            Known::Number(n) => Ok(Some(n)),
            Known::Without => Ok(None),
            Known::Unasked => {
                let number = number_of(alloc, diagrams, id)?;
                self.remember(id, known_of(number))?;
                Ok(number)
            }
        }
    }

    /// A diagram, or the integer that it is where it has a number.
    pub fn settle(
        &mut self,
        alloc: Global,
        diagrams: &mut Diagrams,
        id: DiagramId,
    ) -> Result<DiagramId, AllocError>
        requires inside { id < count_of diagrams.old }
        requires composed { IsComposed (tree_of diagrams.old id) }
        requires known { Remembers diagrams.old self.old }
        ensures inside { IfOk result (λ i. i < count_of diagrams.new) }
        ensures tree { IfOk result (λ i. tree_of diagrams.new i
            ≡ number_or (number_of (tree_of diagrams.old id)) (tree_of diagrams.old id)) }
        ensures adds { AddsIntegers diagrams.old diagrams.new }
        ensures known { Remembers diagrams.new self.new }
    {
        if let Node::Number(_) = diagrams.node(id) {
            return Ok(id);
        }
        match self.number_of(alloc, diagrams, id)? {
            None => Ok(id),
            Some(n) => {
                let integer = put_integer(diagrams, n)?;
                Ok(integer)
            }
        }
    }

    // What is remembered of a diagram.
    fn remembered(&self, id: DiagramId) -> Known
        ensures { (a : Arena) → Remembers a self.now → IsKnown a id result }
    {
        match self.known.get(id.number() as usize) {
            None => Known::Unasked,
            Some(known) => *known,
        }
    }

    // Remembers the number of a diagram.
    fn remember(&mut self, id: DiagramId, known: Known) -> Result<(), AllocError>
        ensures { (a : Arena) → Remembers a self.old → IsKnown a id known → Remembers a self.new }
    {
        let place = id.number() as usize;
        'grow: while self.known.len() <= place {
            self.known.push(Known::Unasked)?;
        }
        self.known[place] = known;
        Ok(())
    }
}

// What is to be remembered of a diagram.
fn known_of(number: Option<i32>) -> Known
    ensures { (a : Arena) (i : ℕ) → i < count_of a → number_of (tree_of a i) ≡ number → IsKnown a i result }
{
    match number {
        None => Known::Without,
        Some(n) => Known::Number(n),
    }
}

// Puts an integer.
fn put_integer(diagrams: &mut Diagrams, n: i32) -> Result<DiagramId, AllocError>
    ensures inside { IfOk result (λ i. i < count_of diagrams.new) }
    ensures tree { IfOk result (λ i. tree_of diagrams.new i ≡ Constant n) }
    ensures adds { AddsIntegers diagrams.old diagrams.new }
{
    let arity = Arity {
        inputs: 0,
        outputs: 1,
    };
    match diagrams.put(Node::Number(n), arity) {
        Ok(id) => {
            if id.number() < MOST_DIAGRAMS {
                Ok(id)
            } else {
                Err(too_many_to_keep())
            }
        }
        Err(PutRefusal::NoMemory) => Err(AllocError),
        Err(PutRefusal::SizeBudget { size: _ }) => unreachable!(),
    }
}
