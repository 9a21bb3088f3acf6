// The definitions of one list, sorted by name.

ghost use Rattle.std.specs.Prelude.{ℕ, ◌≡◌, ◌<◌, ◌++◌, List, [], IfOk, filter};
ghost use Rattle.std.specs.List.{cons_option};
ghost use Rattle.std.specs.List.Sorted.{IsPermutation};
ghost use Rattle.fv_parse.specs.Trees.{size_of, tree_in};
ghost use Rattle.fv_eval_lookup.specs.declared.by_name.Defined.{Defined};
ghost use Rattle.fv_eval_lookup.specs.ByName.{is_called, called, defined_name, AreDefined};

use fv_parse::{Tree, TreeId, TreeNode, same_names};
use std::alloc::{AllocError, Global};
use std::marker::Model;

/// A definition: the canonical number of its name, and its node.
#[derive(Clone, Copy)]
pub(crate) struct Defined {
    pub(crate) name: u64,
    pub(crate) node: TreeId,
}

/// Definitions sorted by name. Those of one name keep their order.
#[derive(Drop)]
pub(crate) struct ByName {
    sorted: Vec<Defined>,
}

impl Model for ByName {
    ghost use Rattle.std.specs.Prelude.{List};
    ghost use Rattle.std.specs.List.Sorted.{IsNonDecreasingBy};
    ghost use Rattle.fv_eval_lookup.specs.declared.by_name.Defined.{Defined};

    ghost Value = { List Defined };

    ghost view = { λ b. b.sorted.items };

    ghost invariant = { λ b. IsNonDecreasingBy (λ (d : Defined). d.name) b.sorted.items };
}

impl ByName {
    /// Definitions that are sorted.
    pub(crate) fn sort(mut definitions: Vec<Defined>) -> Result<ByName, AllocError>
        ensures same { IfOk result (λ b. (n : ℕ) → filter (is_called n) b ≡ filter (is_called n) definitions.items) }
        ensures moved { IfOk result (λ b. IsPermutation definitions.items b) }
    {
        definitions.sort_by_key(|d| d.name)?;
        Ok(ByName {
            sorted: definitions,
        })
    }

    /// All of them.
    pub(crate) fn all(&self) -> &[Defined]
        ensures { result.now ≡ self.now }
    {
        self.sorted.as_slice()
    }

    /// Those of a name, in order.
    pub(crate) fn called(&self, name: u64) -> &[Defined]
        ensures { result.now ≡ filter (is_called name) self.now }
    {
        let all = self.sorted.as_slice();
        let from = all.partition_point(|d| d.name < name);
        let rest = &all[from..];
        let count = rest.partition_point(|d| d.name <= name);
        &rest[..count]
    }
}

// What a node defines.
fn defined_by(tree: &Tree, id: TreeId) -> Option<Defined>
    requires { id < size_of tree.now }
    ensures { result ≡ called id (defined_name tree.now.tokens (tree_in tree.now id)) }
{
    match tree.node(id) {
        TreeNode::Constant(name, _) => Some(Defined {
            name: tree.name(*name),
            node: id,
        }),
        TreeNode::Function(name, _, _) => Some(Defined {
            name: tree.name(*name),
            node: id,
        }),
        _ => None,
    }
}

// Keeps what was found.
fn keep(list: &mut Vec<Defined>, found: Option<Defined>) -> Result<(), AllocError>
    ensures { IfOk result (λ _. list.new.items ≡ list.old.items ++ cons_option found []) }
{
    match found {
        None => Ok(()),
        Some(defined) => {
            list.push(defined)?;
            Ok(())
        }
    }
}

// The definitions of a list, in order.
fn definitions_of(alloc: Global, tree: &Tree, list: TreeId) -> Result<Vec<Defined>, AllocError>
    requires { list < size_of tree.now }
    ensures { IfOk result (λ v. AreDefined tree.now list v.items) }
{
    same_names(); // For the prover: two names have one canonical number exactly where they have the same bytes.
    let items = tree.items(list);
    let mut definitions = Vec::new(alloc);
    for id in items {
        keep(&mut definitions, defined_by(tree, *id))?;
    }
    Ok(definitions)
}

/// The definitions of a list, sorted by name.
pub(crate) fn by_name(alloc: Global, tree: &Tree, list: TreeId) -> Result<ByName, AllocError>
    requires { list < size_of tree.now }
    ensures { IfOk result (AreDefined tree.now list) }
{
    let definitions = definitions_of(alloc, tree, list)?;
    let sorted = ByName::sort(definitions)?;
    Ok(sorted)
}
