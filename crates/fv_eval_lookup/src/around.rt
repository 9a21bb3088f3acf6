// The lists of definitions around environments, by the names that they have.

ghost use Rattle.std.specs.Prelude.{ℕ, ◌≡◌, List, IfOk, IfSome, Some, slice_get};
ghost use Rattle.fv_parse.specs.Trees.{Parsed};
ghost use Rattle.fv_eval_scopes.specs.declared.tries.Fork.{Fork};
ghost use Rattle.fv_eval_scopes.specs.declared.value.Scope.{Scope as AScope};
ghost use Rattle.fv_eval_scopes.specs.Environments.{nth_scope, scope_in};
ghost use Rattle.fv_eval_scopes.specs.Tries.{AreThere, IsGrown};
ghost use Rattle.fv_eval_lookup.specs.declared.around.TheConstants.{NAME_BITS};
ghost use Rattle.fv_eval_lookup.specs.Around.{AreAround, AreNested, IsNearest, IsNested, IsRoot};

use crate::lookup::Definitions;
use fv_eval_scopes::{EnvId, STRIDE, Scope, Scopes, Tries, outer_of};
use fv_parse::TreeId;
use std::alloc::{AllocError, Global};

/// The most bits that the number of a text's name has.
const NAME_BITS: u64 = 20;

/// A list within others, the root of the trie of those, and the root of the trie with the names of the list too.
#[derive(Clone, Copy)]
pub(crate) struct Nested {
    list: u64,
    around: u64,
    root: u64,
}

/// A trie for each environment, from a name to the nearest enclosing list that has a definition of it, or to 0. Environments within
/// the same lists share a trie.
#[derive(Drop)]
pub(crate) struct Around {
    tries: Tries,
    /// By kept scope: the root of the trie of its environments. That of the outermost one, which has no list around it, is 0.
    roots: Vec<u64>,
    /// By list: how it was nested the last time.
    nested: Vec<Option<Nested>>,
}

impl Around {
    /// Nothing is known.
    pub(crate) fn new(alloc: Global) -> Around
        ensures { (p : Parsed) (scopes : List AScope) → AreAround p scopes result }
    {
        Around {
            tries: Tries::new(alloc),
            roots: Vec::new(alloc),
            nested: Vec::new(alloc),
        }
    }

    // The root of the trie of an environment, where it is known.
    fn root(&self, env: EnvId) -> Option<u64>
        ensures { (p : Parsed) (scopes : List AScope) → AreAround p scopes self.now → IfSome result (IsRoot p scopes self.now.tries env) }
    {
        let number = env.number();
        if number == 0 {
            return Some(0);
        }
        self.root_at((number - 1) / STRIDE)
    }

    // One of the roots.
    fn root_at(&self, place: u64) -> Option<u64>
        ensures { result ≡ slice_get self.now.roots.items place }
    {
        self.roots.get(place as usize).copied()
    }

    /// The nearest list around an environment that has a definition of a name, or 0, where this is known.
    pub(crate) fn nearest(&self, name: u64, env: EnvId) -> Option<u64>
        ensures { (p : Parsed) (scopes : List AScope) → AreAround p scopes self.now → IfSome result (IsNearest p scopes name env) }
    {
        let root = self.root(env)?;
        Some(self.tries.find(root, NAME_BITS, name))
    }

    /// Goes on to the last environment. What there is no memory for stays unknown.
    pub(crate) fn follow(&mut self, definitions: &Definitions, scopes: &Scopes)
        ensures { AreAround definitions.now scopes.now.scopes self.old → AreAround definitions.now scopes.now.scopes self.new }
    {
        'following: while let Some(scope) = scopes.kept(self.roots.len() as u64) {
            let Some(root) = self.root_of(definitions, &scope) else {
                return;
            };
            match self.roots.push(root) {
                Ok(()) => {}
                Err(_refused) => return,
            }
        }
    }

    // The root of the trie of environments with this innermost scope, or with a parameter after it.
    fn root_of(&mut self, definitions: &Definitions, scope: &Scope) -> Option<u64>
        ensures same { self.new.roots ≡ self.old.roots }
        ensures kept { (scopes : List AScope) → AreAround definitions.now scopes self.old → AreAround definitions.now scopes self.new }
        ensures root { IfSome result (λ r. (scopes : List AScope) (k before env : ℕ) → AreAround definitions.now scopes self.old
            → scope_in scopes env ≡ Some (nth_scope k before scope.now) → IsRoot definitions.now scopes self.new.tries env r) }
    {
        let around = self.root(outer_of(scope))?;
        match scope {
            Scope::Bound { .. } => Some(around),
            Scope::Slots { .. } => Some(around), // It is never passed at once, so that each root will do.
            Scope::Definitions { list, .. } => match self.nest(definitions, *list, around) {
                Ok(root) => Some(root),
                Err(_) => None,
            },
        }
    }

    // The root of the trie of a list within others.
    fn nest(
        &mut self,
        definitions: &Definitions,
        list: TreeId,
        around: u64,
    ) -> Result<u64, AllocError>
        ensures same { self.new.roots ≡ self.old.roots }
        ensures grown { IsGrown self.old.tries self.new.tries }
        ensures kept { (scopes : List AScope) → AreAround definitions.now scopes self.old → AreThere self.old.tries NAME_BITS around
            → AreAround definitions.now scopes self.new }
        ensures nested { IfOk result (λ r. (scopes : List AScope) → AreAround definitions.now scopes self.old
            → AreThere self.old.tries NAME_BITS around → IsNested definitions.now self.new.tries list around r) }
    {
        if let Some(root) = self.known(list, around) {
            return Ok(root);
        }
        let root = with_names(&mut self.tries, definitions, list, around)?;
        let nested = Nested {
            list: list.number(),
            around,
            root,
        };
        remember(&mut self.nested, nested)?;
        Ok(root)
    }

    // The root of the trie of a list within others, where the list stood within the same ones the last time.
    fn known(&self, list: TreeId, around: u64) -> Option<u64>
        ensures { (p : Parsed) (scopes : List AScope) → AreAround p scopes self.now → IfSome result (IsNested p self.now.tries list around) }
    {
        match self.last(list) {
            Some(Some(nested)) => {
                if nested.list == list.number() && nested.around == around {
                    Some(nested.root)
                } else {
                    None
                }
            }
            _ => None,
        }
    }

    // How a list was nested the last time.
    fn last(&self, list: TreeId) -> Option<Option<Nested>>
        ensures { result ≡ slice_get self.now.nested.items list }
    {
        self.nested.get(list.number() as usize).copied()
    }
}

// Makes a trie that has the names of a list, and those of another trie. Returns its root.
fn with_names(
    tries: &mut Tries,
    definitions: &Definitions,
    list: TreeId,
    around: u64,
) -> Result<u64, AllocError>
    ensures grown { IsGrown tries.old tries.new }
    ensures nested { IfOk result (λ r. AreThere tries.old NAME_BITS around → IsNested definitions.now tries.new list around r) }
{
    let listed = definitions.listed(list);
    let mut root = around;
    for defined in listed {
        root = tries.with(root, NAME_BITS, defined.name, list.number())?;
    }
    Ok(root)
}

// Remembers how a list is nested.
fn remember(all: &mut Vec<Option<Nested>>, nested: Nested) -> Result<(), AllocError>
    ensures { (p : Parsed) (forks : List Fork) → AreNested p forks all.old.items → IsNested p forks nested.list nested.around nested.root
        → AreNested p forks all.new.items }
{
    let place = nested.list as usize;
    'grow: while all.len() <= place {
        all.push(None)?;
    }
    all[place] = Some(nested);
    Ok(())
}
