// What a name stands for.

ghost use Rattle.std.specs.Prelude.{ℕ, ◌≡◌, ◌⊎◌, ◌<◌, ◌≤◌, IfOk, IfSome, IsTrue, OnOk, Some, [], All, map, filter};
ghost use Rattle.fv_parse_grammar.specs.headline.Tree.{items};
ghost use Rattle.fv_parse.specs.headline.Trees.{text_of};
ghost use Rattle.fv_parse.specs.Trees.{Parsed, size_of, tree_in, first_named};
ghost use Rattle.fv_rules.specs.headline.Values.{Name, Env, Meaning as PureMeaning, lookup, is_of, definition_of, or_else};
ghost use Rattle.fv_eval_lookup.specs.declared.by_name.Defined.{Defined as AnItem};
ghost use Rattle.fv_eval_scopes.specs.Environments.{scope_in};
ghost use Rattle.fv_eval_lookup.specs.Around.{AreAround, HasNone};
ghost use Rattle.fv_eval_lookup.specs.ByName.{is_called};
ghost use Rattle.fv_eval_scopes.specs.declared.value.Ruled.TheVariants.{Definitions as AtDefinitions};
ghost use Rattle.fv_eval_scopes.specs.Shows.{World, IsInside, IsNamed, ShowsEnv, ShowsMeaning, rules_in};
ghost use Rattle.fv_eval_lookup.specs.Leaving.{IsIndex};
ghost use Rattle.fv_eval_lookup.specs.Shortcuts.{AreShortcuts};
ghost use Rattle.fv_eval_scopes.specs.Outward.{SkipsTo, outer};
ghost use Rattle.fv_eval_lookup.specs.inner.Lookup.{SaysOrPasses, IsMade, TellsParameter, is_name, are_names};

use crate::around::Around;
use crate::by_name::{ByName, Defined, by_name};
use crate::index::RuleIndex;
use crate::shortcuts::Shortcuts;
use fv_eval_scopes::{
    EnvId, Meaning, ParameterTries, Ruled, STRIDE, Scope, Scopes, Value, outer_of, parameter,
};
use fv_parse::{Tree, TreeId, TreeNode, same_names};
use std::alloc::{AllocError, Global};
use std::marker::Model;

/// How many steps a look-up takes scope by scope, before the tries pass many scopes at once.
const ON_FOOT: u64 = 4;

/// Where a look-up may go on from the environment `at`: to `outer`, the one around it, or to `direct`, by a shortcut. A shortcut
/// that leads nowhere leads to `at`. It is `steps` steps from where the look-up began.
#[derive(Clone, Copy)]
struct Onward {
    at: EnvId,
    outer: EnvId,
    direct: EnvId,
    steps: u64,
}

/// A tree with the definitions of each list in it, sorted by name, and the parameters of each node by name. Each place with many
/// rules has an index of them.
#[derive(Drop)]
pub struct Definitions<'a> {
    tree: &'a Tree<'a>,
    lists: Vec<ByName>,
    parameters: ParameterTries,
    indexes: Vec<RuleIndex>,
    /// By node at which rules stand: the index in `indexes` at which they may be.
    places: Vec<u64>,
}

impl<'a> Model for Definitions<'a> {
    ghost use Rattle.fv_parse.specs.Trees.{Parsed};
    ghost use Rattle.fv_eval_lookup.specs.ByName.{AreIndexed};
    ghost use Rattle.fv_eval_lookup.specs.Indexes.{AreIndexes};
    ghost use Rattle.fv_eval_scopes.specs.ParameterTries.{AreParameters};

    ghost Value = { Parsed };

    ghost view = { λ d. d.tree.now };

    ghost invariant = { λ d. AreIndexed d.tree.now d.lists.items × AreIndexes d.tree.now d.indexes.items × AreParameters d.tree.now d.parameters };
}

impl<'a> Definitions<'a> {
    /// The definitions of a tree.
    pub fn new(alloc: Global, tree: &'a Tree<'a>) -> Result<Definitions<'a>, AllocError>
        ensures { IfOk result (λ d. d ≡ tree.now) }
    {
        let _within: Option<Defined> = None;
        let mut lists = Vec::new(alloc);
        for i in 0..tree.len() {
            let id = TreeId::new(i);
            let list = by_name(alloc, tree, id)?;
            lists.push(list)?;
        }
        let parameters = ParameterTries::new(alloc, tree)?;
        let mut definitions = Definitions {
            tree,
            lists,
            parameters,
            indexes: Vec::new(alloc),
            places: Vec::new(alloc),
        };
        definitions.index_all(alloc)?;
        Ok(definitions)
    }

    // Makes an index of the rules at each place.
    fn index_all(&mut self, alloc: Global) -> Result<(), AllocError>
        ensures { OnOk result (self.new ≡ self.old) }
    {
        let tree = self.tree;
        for i in 0..tree.len() {
            self.places.push(0)?;
            self.index_at(alloc, TreeId::new(i))?;
        }
        Ok(())
    }

    // Makes an index at a node: of the rules of a `case`, or of those of each name of a list of definitions.
    fn index_at(&mut self, alloc: Global, id: TreeId) -> Result<(), AllocError>
        requires { id < size_of self.old }
        ensures { OnOk result (self.new ≡ self.old) }
    {
        let tree = self.tree;
        match tree.node(id) {
            TreeNode::Case(_) => self.index_rules(alloc, &Ruled::Case(id), id)?,
            TreeNode::List(_) => self.index_functions(alloc, id)?,
            _ => {}
        }
        Ok(())
    }

    // Makes an index of the rules of each name of a list of definitions.
    fn index_functions(&mut self, alloc: Global, list: TreeId) -> Result<(), AllocError>
        requires { list < size_of self.old }
        ensures { OnOk result (self.new ≡ self.old) }
    {
        let tree = self.tree;
        for first in tree.items(list) {
            if self.is_first(list, *first) {
                let ruled = Ruled::Definitions {
                    list,
                    first: *first,
                };
                self.index_rules(alloc, &ruled, *first)?;
            }
        }
        Ok(())
    }

    // Whether a node is the first definition of its name in a list, and one by patterns.
    fn is_first(&self, list: TreeId, node: TreeId) -> bool
        requires inside { list < size_of self.now }
        requires there { node < size_of self.now }
        ensures { IsTrue result → IsInside self.now (AtDefinitions list node) }
    {
        match self.tree.node(node) {
            TreeNode::Function(name, _, _) => match self
                .called(list, self.tree.name(*name))
                .first()
            {
                Some(first) => first.node.number() == node.number(),
                None => false,
            },
            _ => false,
        }
    }

    // Makes an index of the rules at a place, to be looked for at a node.
    fn index_rules(&mut self, alloc: Global, ruled: &Ruled, node: TreeId) -> Result<(), AllocError>
        requires { IsInside self.old ruled.now }
        ensures { OnOk result (self.new ≡ self.old) }
    {
        let rules = self.rules(*ruled);
        let Some(index) = RuleIndex::new(alloc, self.tree, ruled, rules)? else {
            return Ok(());
        };
        let place = self.indexes.len() as u64;
        self.indexes.push(index)?;
        let i = node.number() as usize;
        if i < self.places.len() {
            self.places[i] = place;
        }
        Ok(())
    }

    /// The index of the rules at a place, where there is one.
    pub(crate) fn index(&self, ruled: &Ruled) -> Option<&RuleIndex>
        ensures { IfSome result (λ x. IsIndex (rules_in self.now ruled.now) x.now) }
    {
        let node = match ruled {
            Ruled::Case(id) => id.number(),
            Ruled::Definitions { first, .. } => first.number(),
        };
        let place = self.places.get(node as usize).copied()?;
        let found = self.indexes.get(place as usize)?;
        if is_same(&found.ruled, ruled) {
            Some(found)
        } else {
            None
        }
    }

    /// What a name, by its canonical number, stands for in an environment. The ways that it goes are remembered.
    pub fn look_up(
        &self,
        scopes: &Scopes,
        shortcuts: &mut Shortcuts,
        name: u64,
        env: EnvId,
    ) -> Meaning
        ensures kept { AreShortcuts self.now scopes.now.scopes shortcuts.old → AreShortcuts self.now scopes.now.scopes shortcuts.new }
        ensures means { AreShortcuts self.now scopes.now.scopes shortcuts.old → (w : World) (x : Name) (E : Env)
            → w.tree ≡ self.now → w.scopes ≡ scopes.now.scopes → IsNamed w name x → ShowsEnv w env E
            → ShowsMeaning w result (lookup self.now.tokens E x) }
    {
        let mut steps = 0;
        let mut mark = env;
        let mut at = env;
        'outward: while let Some(scope) = scopes.scope(at) {
            if let Some(meaning) = self.in_scope(&scope, name, at) {
                shortcuts.slots.keep(name, mark, at, steps);
                return meaning;
            }
            let outer = outer_of(&scope);
            // No environment stands around itself.
            if outer.number() >= at.number() {
                return Meaning::Unknown;
            }
            let direct = shortcuts.slots.outward(name, at, steps);
            let way = Onward {
                at,
                outer,
                direct,
                steps,
            };
            at = self.next(scopes, &mut shortcuts.around, &way, name);
            steps = steps.saturating_add(1);
            mark = shortcuts.slots.mark(name, mark, at, steps);
        }
        Meaning::Unknown
    }

    // The next environment that a look-up looks at: where the shortcut leads, if that is outward, else the environment around, past
    // the parameters there that have another name. After a few steps it also passes all scopes that the tries show to lack the name.
    fn next(&self, scopes: &Scopes, around: &mut Around, way: &Onward, name: u64) -> EnvId
        requires { way.now.outer < way.now.at }
        ensures kept { AreAround self.now scopes.now.scopes around.old → AreAround self.now scopes.now.scopes around.new }
        ensures skips { AreAround self.now scopes.now.scopes around.old → SkipsTo self.now scopes.now.scopes name way.now.at way.now.outer
            → SkipsTo self.now scopes.now.scopes name way.now.at way.now.direct → SkipsTo self.now scopes.now.scopes name way.now.at result }
        ensures outward { result < way.now.at }
    {
        if way.direct.number() < way.at.number() {
            return way.direct;
        }
        let outer = self.past_parameters(scopes, name, way.outer);
        if way.steps < ON_FOOT {
            return outer;
        }
        around.follow(self, scopes);
        past(scopes, around, name, outer)
    }

    // From an environment outward over parameters of one abstraction that have another name.
    fn past_parameters(&self, scopes: &Scopes, name: u64, env: EnvId) -> EnvId
        ensures skips { SkipsTo self.now scopes.now.scopes name env result }
        ensures outward { result ≤ env }
    {
        let number = env.number();
        if number == 0 {
            return env;
        }
        let before = number - 1;
        match scopes.kept(before / STRIDE) {
            None => env,
            Some(kept) => self.parameters.past(&kept, name, env, before % STRIDE),
        }
    }

    // What the innermost scope of an environment makes of a name.
    fn in_scope(&self, scope: &Scope, name: u64, env: EnvId) -> Option<Meaning>
        ensures { (w : World) (x : Name) (E : Env)
            → w.tree ≡ self.now → scope_in w.scopes env ≡ Some scope.now → IsNamed w name x → ShowsEnv w env E
            → SaysOrPasses w result (lookup self.now.tokens E x) (lookup self.now.tokens (outer E) x) }
    {
        match scope {
            Scope::Bound {
                name: bound,
                value,
                outer: _,
            } => {
                if *bound == name {
                    Some(Meaning::Known(*value))
                } else {
                    None
                }
            }
            Scope::Definitions { list, outer: _ } => self.defined(*list, name, env),
            Scope::Slots {
                node,
                parameter,
                slot,
                outer: _,
            } => {
                if self.is_parameter(*node, *parameter, name) {
                    Some(Meaning::Slot(*slot))
                } else {
                    None
                }
            }
        }
    }

    // Whether a parameter of a node has a name.
    fn is_parameter(&self, node: TreeId, i: u64, name: u64) -> bool
        ensures { TellsParameter self.now node i name result }
    {
        if node.number() >= self.tree.len() {
            return false;
        }
        match parameter(self.tree, node, i) {
            Some(n) => n == name,
            None => false,
        }
    }

    // What the definitions of a name in a list make of it, in the environment of the list.
    fn defined(&self, list: TreeId, name: u64, env: EnvId) -> Option<Meaning>
        ensures { (w : World) (x : Name) (E : Env) (m : PureMeaning)
            → w.tree ≡ self.now → list < size_of w.tree → IsNamed w name x → ShowsEnv w env E
            → SaysOrPasses w result
            (or_else (definition_of self.now.tokens (filter (is_of self.now.tokens x) (items (tree_in self.now list)))) E m) m }
    {
        let found = self.called(list, name);
        let first = found.first()?;
        let count = found.len() as u64;
        Some(made(self.tree, list, first.node, count, env))
    }

    /// The tree.
    pub fn tree(&self) -> &Tree<'a>
        ensures { result.now ≡ self.now }
    {
        self.tree
    }

    /// The definitions of a list, sorted by name.
    pub(crate) fn listed(&self, list: TreeId) -> &[Defined]
        ensures { (name : ℕ) → filter (is_called name) result.now ≡ [] → HasNone self.now list name }
    {
        let i = list.number() as usize;
        if i < self.lists.len() {
            self.lists[i].all()
        } else {
            &[]
        }
    }

    /// The definitions of a name in a list, in order.
    pub(crate) fn called(&self, list: TreeId, name: u64) -> &[Defined]
        ensures found { list < size_of self.now → (n : ℕ) → first_named self.now.tokens n ≡ name
            → map (λ (d : AnItem). tree_in self.now d.node) result.now
            ≡ filter (is_of self.now.tokens (text_of self.now.tokens n)) (items (tree_in self.now list)) }
        ensures there { All (λ (d : AnItem). d.node < size_of self.now) result.now }
    {
        let i = list.number() as usize;
        if i < self.lists.len() {
            self.lists[i].called(name)
        } else {
            &[]
        }
    }
}

// Whether rules stand at the same place.
fn is_same(a: &Ruled, b: &Ruled) -> bool
    ensures { IsTrue result → a.now ≡ b.now }
{
    match a {
        Ruled::Case(id) => match b {
            Ruled::Case(other) => id.number() == other.number(),
            Ruled::Definitions { .. } => false,
        },
        Ruled::Definitions { list, first } => match b {
            Ruled::Case(_) => false,
            Ruled::Definitions {
                list: other,
                first: node,
            } => list.number() == other.number() && first.number() == node.number(),
        },
    }
}

// What the `count` definitions of a name make of it. `first` is the first of them.
fn made(tree: &Tree, list: TreeId, first: TreeId, count: u64, env: EnvId) -> Meaning
    requires { first < size_of tree.now }
    ensures { IsMade tree.now list first count env result }
{
    match tree.node(first) {
        TreeNode::Constant(_, body) => Meaning::Body { body: *body, env },
        TreeNode::Function(_, patterns, _) => {
            if count == 1 && are_names(tree, *patterns) {
                Meaning::Known(Value::Abstraction {
                    node: first,
                    bound: 0,
                    env,
                })
            } else {
                Meaning::Known(Value::Rules {
                    ruled: Ruled::Definitions { list, first },
                    env,
                    count: 0,
                    last: 0,
                })
            }
        }
        // It is no definition.
        _ => Meaning::Unknown,
    }
}

// The first environment from one outward that may have something of a name, where it is known which lists are around; else
// this one.
fn past(scopes: &Scopes, around: &Around, name: u64, env: EnvId) -> EnvId
    ensures skips { (p : Parsed) → AreAround p scopes.now.scopes around.now → SkipsTo p scopes.now.scopes name env result }
    ensures outward { result ≤ env }
{
    match around.nearest(name, env) {
        None => env,
        Some(list) => nearer(scopes.lead(env, name), scopes.lead(env, list)),
    }
}

// The nearer one of two environments further outward.
fn nearer(a: EnvId, b: EnvId) -> EnvId
    ensures { ((result ≡ a) × (b ≤ a)) ⊎ ((result ≡ b) × (a ≤ b)) }
{
    if b.number() <= a.number() { a } else { b }
}

// Whether a node is a name.
fn is_name(tree: &Tree, id: TreeId) -> bool
    requires { id < size_of tree.now }
    ensures { result ≡ is_name (tree_in tree.now id) }
{
    match tree.node(id) {
        TreeNode::Named(_) => true,
        _ => false,
    }
}

// Whether patterns are names, at least one.
fn are_names(tree: &Tree, patterns: TreeId) -> bool
    requires { patterns < size_of tree.now }
    ensures { result ≡ are_names (items (tree_in tree.now patterns)) }
{
    let items = tree.items(patterns);
    for id in items {
        if !is_name(tree, *id) {
            return false;
        }
    }
    !items.is_empty()
}
