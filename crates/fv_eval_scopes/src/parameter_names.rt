// The parameters of abstractions and definitions.

ghost use Rattle.std.specs.Prelude.{ℕ, ◌≡◌, ◌<◌, length, slice_get, Some};
ghost use Rattle.fv_parse.specs.headline.Trees.{text_of};
ghost use Rattle.fv_parse.specs.Trees.{first_named, size_of, tree_in};
ghost use Rattle.fv_rules.specs.headline.Values.{Name};
ghost use Rattle.fv_eval_scopes.specs.Shows.{parameters_in};
ghost use Rattle.fv_eval_scopes.specs.Parameters.{ShowsName, name_of};

use fv_parse::{Tree, TreeId, TreeNode, same_names};

/// The canonical number of a name.
pub fn canonical(tree: &Tree, n: u64) -> u64
    ensures text { text_of tree.now.tokens result ≡ text_of tree.now.tokens n }
    ensures first { first_named tree.now.tokens result ≡ result }
{
    same_names(); // For the prover: the token with a token's canonical number has the same bytes.
    tree.name(n)
}

/// The canonical number of parameter `i` of an abstraction or a definition; `None` where it has no parameter `i`.
pub fn parameter(tree: &Tree, id: TreeId, i: u64) -> Option<u64>
    requires { id < size_of tree.now }
    // A definition has parameters where all its patterns are names.
    ensures { 0 < length (parameters_in tree.now.tokens (tree_in tree.now id))
        → ShowsName tree.now.tokens result (slice_get (parameters_in tree.now.tokens (tree_in tree.now id)) i) }
{
    match tree.node(id) {
        TreeNode::Abstraction(names, _) => match names.get(i as usize) {
            Some(n) => Some(canonical(tree, *n)),
            None => None,
        },
        TreeNode::Function(_, patterns, _) => match tree.items(*patterns).get(i as usize) {
            Some(pattern) => named(tree, *pattern),
            None => None,
        },
        _ => None,
    }
}

// The canonical number of a pattern that is a name.
fn named(tree: &Tree, pattern: TreeId) -> Option<u64>
    requires { pattern < size_of tree.now }
    ensures { (x : Name) → name_of tree.now.tokens (tree_in tree.now pattern) ≡ Some x → ShowsName tree.now.tokens result (Some x) }
{
    match tree.node(pattern) {
        TreeNode::Named(n) => Some(canonical(tree, *n)),
        _ => None,
    }
}

/// How many parameters an abstraction or a definition has.
pub fn parameters(tree: &Tree, id: TreeId) -> u64
    requires { id < size_of tree.now }
    ensures { 0 < length (parameters_in tree.now.tokens (tree_in tree.now id)) → result ≡ length (parameters_in tree.now.tokens (tree_in tree.now id)) }
{
    match tree.node(id) {
        TreeNode::Abstraction(names, _) => names.len() as u64,
        TreeNode::Function(_, patterns, _) => tree.items(*patterns).len() as u64,
        _ => 0,
    }
}
