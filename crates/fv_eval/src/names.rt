// What names stand for, and the bodies of abstractions and definitions.

ghost use Rattle.std.specs.Prelude.{◌≡◌, ◌<◌};
ghost use Rattle.fv_parse.specs.Trees.{Parsed, size_of, tree_in};
ghost use Rattle.fv_diagram.specs.headline.Diagram.{Slot};
ghost use Rattle.fv_rules.specs.headline.Values.{Env, Flat, Name, lookup};
ghost use Rattle.fv_eval_scopes.specs.Shows.{IsNamed, ShowsEnv, body_in};
ghost use Rattle.fv_rules.specs.Machine.{Give, Running, begin_name};
ghost use Rattle.fv_eval.specs.inner.Continuations.{Steps, world};

use crate::continuation::Focus;
use crate::machine::Machine;
use fv_base::Word;
use fv_diagram::Node;
use fv_eval_lookup::Definitions;
use fv_eval_scopes::{EnvId, Meaning, Value};
use fv_parse::{Tree, TreeId, TreeNode};
use fv_rules::EvalRefusal;

/// The body of an abstraction or a definition.
pub fn body_of(tree: &Tree, id: TreeId) -> TreeId
    requires { id < size_of tree.now }
    ensures inside { result < size_of tree.now }
    ensures body { tree_in tree.now result ≡ body_in (tree_in tree.now id) }
{
    match tree.node(id) {
        TreeNode::Abstraction(_, body) => *body,
        TreeNode::Function(_, _, body) => *body,
        _ => id,
    }
}

impl Machine {
    /// Gives or visits what a name stands for.
    pub fn name(&mut self, text: &Definitions, name: u64, env: EnvId) -> Result<Focus, EvalRefusal>
        ensures { (x : Name) (E : Env) → IsNamed (world text.now self.old) name x → ShowsEnv (world text.now self.old) env E
            → Steps text.now self.old self.new result (λ Fs s. begin_name x (lookup text.now.tokens E x) Fs s) }
    {
        match text.look_up(&self.scopes, &mut self.shortcuts, name, env) {
            Meaning::Known(value) => Ok(Focus::Give(value)),
            Meaning::Body { body, env } => Ok(Focus::Visit { id: body, env }),
            Meaning::Slot(slot) => self.give_slot(slot),
            Meaning::Unknown => {
                let name = Word::new(self.alloc, text.tree().text(name))?;
                Err(EvalRefusal::UnknownName { name })
            }
        }
    }

    // A slot is given.
    fn give_slot(&mut self, slot: u64) -> Result<Focus, EvalRefusal>
        ensures { (p : Parsed) → Steps p self.old self.new result (λ Fs s. Running (Give (Flat (Slot slot))) Fs s) }
    {
        let id = self.drawing.leaf(&Node::Slot(slot))?;
        Ok(Focus::Give(Value::Diagram(id)))
    }
}
