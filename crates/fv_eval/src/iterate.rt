// Iteration.

ghost use Rattle.std.specs.Prelude.{ℕ, ◌≡◌, ◌<◌, List, length};
ghost use Rattle.fv_parse_grammar.specs.headline.Tree.{Tree as Spelled, Iteration, start_of};
ghost use Rattle.fv_parse_grammar.specs.Iteration.{Iteration as Repetition};
ghost use Rattle.fv_parse.specs.headline.Trees.{text_of};
ghost use Rattle.fv_parse.specs.Trees.{size_of, tree_in};
ghost use Rattle.fv_diagram.specs.headline.Diagram.{Diagram};
ghost use Rattle.fv_diagram.specs.Arena.{count_of};
ghost use Rattle.fv_rules.specs.headline.Values.{Env, Name};
ghost use Rattle.fv_rules.specs.Numbers.{number_of};
ghost use Rattle.fv_rules.specs.headline.Steps.{no_number};
ghost use Rattle.fv_rules.specs.headline.Rules.{counted};
ghost use Rattle.fv_eval_scopes.specs.Shows.{Draws, ShowsEnv, ShowsTree};
ghost use Rattle.fv_rules.specs.Machine.{first_body, next_body};
ghost use Rattle.fv_eval_drawing.specs.Makes.{AreThere};
ghost use Rattle.fv_eval.specs.inner.Continuations.{AreIndexed, IsIteration, ShowsBodies, Steps, world};

use crate::arrive::give;
use crate::continuation::{Continuation, Focus, ForDiagram};
use crate::machine::Machine;
use fv_diagram::{DiagramId, Node};
use fv_eval_lookup::Definitions;
use fv_eval_scopes::{EnvId, Value, canonical};
use fv_parse::{Tree, TreeId, TreeNode};
use fv_rules::EvalRefusal;

impl Machine {
    /// Takes the count of an iteration, and visits its first body.
    pub fn count(
        &mut self,
        text: &Definitions,
        iteration: TreeId,
        env: EnvId,
        diagram: DiagramId,
    ) -> Result<Focus, EvalRefusal>
        requires iteration { iteration < size_of text.now }
        requires form { IsIteration (tree_in text.now iteration) }
        requires diagram { diagram < count_of self.old.drawing.diagrams }
        ensures { (s : ℕ) (r : Repetition) (n : ℕ) (c b : Spelled) (E : Env) (d : Diagram) → ShowsTree (world text.now self.old) iteration (Iteration s r n c b)
            → ShowsEnv (world text.now self.old) env E → Draws (world text.now self.old) diagram d
            → Steps text.now self.old self.new result
            (λ Fs t. first_body r (text_of text.now.tokens n) b E (counted text.now.tokens (start_of c) (number_of d) t) Fs) }
    {
        let tree = text.tree();
        let TreeNode::Iteration(_, _, x, _) = tree.node(iteration) else {
            unreachable!();
        };
        match self.drawing.number_of(self.alloc, diagram)? {
            None => Err(not_a_number(tree, *x)),
            Some(n) => {
                if n < 1 {
                    return Err(EvalRefusal::IterationCount { count: n });
                }
                let done = Vec::new(self.alloc);
                self.next_body(text, iteration, env, n as u64, done)
            }
        }
    }

    /// Visits the next body of an iteration, or puts the bodies together.
    pub fn next_body(
        &mut self,
        text: &Definitions,
        iteration: TreeId,
        env: EnvId,
        left: u64,
        done: Vec<DiagramId>,
    ) -> Result<Focus, EvalRefusal>
        requires iteration { iteration < size_of text.now }
        requires form { IsIteration (tree_in text.now iteration) }
        requires done { AreThere self.old.drawing.diagrams done.items }
        requires indexed { AreIndexed (length done.items) left }
        ensures { (r : Repetition) (x : Name) (b : Spelled) (E : Env) (ds : List Diagram)
            → ShowsBodies (world text.now self.old) iteration env done.items r x b E ds
            → Steps text.now self.old self.new result (λ Fs t. next_body r x b E (length done.items) left ds Fs t) }
    {
        let tree = text.tree();
        let TreeNode::Iteration(kind, name, _, body) = tree.node(iteration) else {
            unreachable!();
        };
        if left == 0 {
            return give(self.drawing.gather(*kind, done));
        }
        let index = done.len() as i32;
        let number = self.drawing.leaf(&Node::Number(index))?;
        let name = canonical(tree, *name);
        let inner = self.scopes.bind(name, Value::Diagram(number), env)?;
        let continuation = ForDiagram::Body {
            iteration,
            env,
            left: left - 1,
            done,
        };
        self.wait(Continuation::Drawn(continuation), *body, inner)
    }
}

/// What begins there has no number.
pub fn not_a_number(tree: &Tree, id: TreeId) -> EvalRefusal
    requires { id < size_of tree.now }
    ensures { result ≡ no_number tree.now.tokens (start_of (tree_in tree.now id)) }
{
    let place = tree.place(id);
    EvalRefusal::NotANumber {
        line: place.line,
        column: place.column,
    }
}
