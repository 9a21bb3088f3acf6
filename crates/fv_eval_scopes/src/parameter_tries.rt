// Tries from names to the parameters of abstractions and definitions.

ghost use Rattle.std.specs.Prelude.{ℕ, ◌≡◌, ◌<◌, ◌≤◌, ◌+◌, IfOk, IfSome, Some, slice_get};
ghost use Rattle.fv_parse.specs.Trees.{Parsed, size_of};
ghost use Rattle.fv_rules.specs.headline.Values.{Name};
ghost use Rattle.fv_eval_scopes.specs.Parameters.{ShowsName};
ghost use Rattle.fv_eval_scopes.specs.Tries.{IsGrown};
ghost use Rattle.fv_eval_scopes.specs.ParameterTries.{AreParameters, IsEnd, IsPast, IsTrie, IsTrieOf, Passes, names_in};

use crate::parameter_names::{parameter, parameters};
use crate::tries::Tries;
use crate::value::{EnvId, Scope};
use fv_parse::{Tree, TreeId};
use std::alloc::{AllocError, Global};

/// The most bits that the number of a text's name has.
const NAME_BITS: u64 = 20;

/// A node with fewer parameters has no trie: a look-up goes over them one by one.
const FEWEST: u64 = 8;

/// The parameters of nodes by name. A node with enough of them has a trie, from the name of each parameter to the place after it.
#[derive(Drop)]
pub struct ParameterTries {
    tries: Tries,
    /// By node: the root of its trie.
    roots: Vec<Option<u64>>,
}

impl ParameterTries {
    /// Those of a tree.
    pub fn new(alloc: Global, tree: &Tree) -> Result<ParameterTries, AllocError>
        ensures { IfOk result (AreParameters tree.now) }
    {
        let mut tries = Tries::new(alloc);
        let mut roots = Vec::new(alloc);
        for i in 0..tree.len() {
            let root = trie_of(&mut tries, tree, TreeId::new(i))?;
            roots.push(root)?;
        }
        Ok(ParameterTries { tries, roots })
    }

    // A place after each parameter of a node that has a name, where it is known.
    fn end(&self, node: TreeId, name: u64) -> Option<u64>
        ensures { (p : Parsed) → AreParameters p self.now → IfSome result (IsEnd p node name) }
    {
        match self.root(node) {
            Some(Some(root)) => Some(self.tries.find(root, NAME_BITS, name)),
            _ => None,
        }
    }

    /// From an environment of a kept scope outward over parameters that have another name, where their node has a trie. It is
    /// environment `k` of that scope, counted from 0.
    pub fn past(&self, kept: &Scope, name: u64, env: EnvId, k: u64) -> EnvId
        requires { k < env }
        ensures past { (p : Parsed) → AreParameters p self.now → Passes p kept.now name k env result }
        ensures outward { result ≤ env }
    {
        match kept {
            Scope::Slots {
                node,
                parameter,
                slot: _,
                outer,
            } => match self.end(*node, name) {
                Some(end) => passed(env, k, *parameter, end, *outer),
                None => env,
            },
            Scope::Bound { .. } | Scope::Definitions { .. } => env,
        }
    }

    // The root of the trie of a node.
    fn root(&self, node: TreeId) -> Option<Option<u64>>
        ensures { result ≡ slice_get self.now.roots.items node }
    {
        self.roots.get(node.number() as usize).copied()
    }
}

// Makes the trie of a node's parameters, where there are enough of them. Returns its root.
fn trie_of(tries: &mut Tries, tree: &Tree, node: TreeId) -> Result<Option<u64>, AllocError>
    requires { node < size_of tree.now }
    ensures grown { IsGrown tries.old tries.new }
    ensures trie { IfOk result (λ o. IfSome o (IsTrieOf tree.now tries.new node)) }
{
    let count = parameters(tree, node);
    if count < FEWEST {
        return Ok(None);
    }
    let mut root = 0;
    for i in 0..count {
        root = with_parameter(tries, root, parameter(tree, node, i), i + 1)?;
    }
    Ok(Some(root))
}

// Makes a trie with one parameter more, where it has a name. `end` is the place after it.
fn with_parameter(
    tries: &mut Tries,
    root: u64,
    name: Option<u64>,
    end: u64,
) -> Result<u64, AllocError>
    ensures grown { IsGrown tries.old tries.new }
    ensures trie { IfOk result (λ r. (p : Parsed) (node i : ℕ) → end ≡ i + 1
        → ((x : Name) → slice_get (names_in p node) i ≡ Some x → ShowsName p.tokens name (Some x))
        → IsTrie p tries.old node i root → IsTrie p tries.new node end r) }
{
    match name {
        None => Ok(root),
        Some(n) => {
            let with_it = tries.with(root, NAME_BITS, n, end)?;
            Ok(with_it)
        }
    }
}

// From environment `k` of a kept scope of slots, counted from 0, outward: to the last one whose parameter stands before `end`, else to
// the one around all of them. Environment 0 is that of this parameter.
fn passed(env: EnvId, k: u64, parameter: u64, end: u64, outer: EnvId) -> EnvId
    requires { k < env }
    ensures past { IsPast k parameter end outer env result }
    ensures outward { result ≤ env }
{
    let first = env.number() - k;
    if end <= parameter {
        return if outer.number() < first { outer } else { env };
    }
    let place = end - 1 - parameter;
    if place < k {
        EnvId::new(first + place)
    } else {
        env
    }
}
