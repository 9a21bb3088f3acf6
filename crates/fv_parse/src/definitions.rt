// What lists define, and the names in patterns.

ghost use Rattle.std.specs.Prelude.{◌≡◌, ◌<◌, [], ◌++◌, length, codes, map, reverse, IfOk};
ghost use Rattle.std.specs.List.{cons_option};
ghost use Rattle.std.specs.Str.{bytes_eq};
ghost use Rattle.fv_parse.specs.Trees.{size_of, tree_in};
ghost use Rattle.fv_parse.specs.headline.Definitions.{defined_by, definitions_of, as_name, names_in, has_process};
ghost use Rattle.fv_parse.specs.inner.Visits.{own_names, parts_left};

use crate::parsed::{Tree, text_of};
use fv_lex::Tokens;
use fv_parse_tree::{TreeId, TreeNode};
use std::alloc::{AllocError, Global};

/// A definition: the number of its name's token, and how many patterns follow it.
#[derive(Clone, Copy, Debug)]
pub(crate) struct Defined {
    pub(crate) name: u64,
    pub(crate) width: u64,
}

/// What a tree defines.
fn defined_by(tree: &Tree, id: TreeId) -> Option<Defined>
    requires { id < size_of tree.now }
    ensures { result ≡ defined_by (length tree.now.tokens.tokens) (tree_in tree.now id) }
{
    match tree.node(id) {
        TreeNode::Constant(name, _) => Some(Defined {
            name: *name,
            width: 0,
        }),
        TreeNode::Function(name, patterns, _) => Some(Defined {
            name: *name,
            width: tree.items(*patterns).len() as u64,
        }),
        TreeNode::Rule(patterns, _) => Some(Defined {
            name: tree.first_token(id),
            width: tree.items(*patterns).len() as u64,
        }),
        _ => None,
    }
}

fn keep(list: &mut Vec<Defined>, found: Option<Defined>) -> Result<(), AllocError>
    ensures { IfOk result (λ _. list.new.items ≡ list.old.items ++ cons_option found []) }
{
    match found {
        None => Ok(()),
        Some(defined) => {
            list.push(defined)?;
            Ok(())
        }
    }
}

/// What a list defines, in order.
pub(crate) fn definitions_of(
    alloc: Global,
    tree: &Tree,
    id: TreeId,
) -> Result<Vec<Defined>, AllocError>
    requires { id < size_of tree.now }
    ensures { IfOk result (λ v. v.items ≡ definitions_of tree.now.tokens (tree_in tree.now id)) }
{
    let items = tree.items(id);
    let mut list = Vec::new(alloc);
    for item in items {
        keep(&mut list, defined_by(tree, *item))?;
    }
    Ok(list)
}

/// Whether the bytes are the name `process`.
pub(crate) fn is_process(text: &[u8]) -> bool
    ensures { result ≡ bytes_eq text.now (codes "process") }
{
    text == b"process".as_slice()
}

/// Whether one of them is of `process`.
pub(crate) fn has_process(tokens: &Tokens, definitions: &[Defined]) -> bool
    ensures { result ≡ has_process tokens.now definitions.now }
{
    for defined in definitions {
        if is_process(text_of(tokens, defined.name)) {
            return true;
        }
    }
    false
}

/// The numbers of names.
pub(crate) fn as_names(alloc: Global, numbers: &[u64]) -> Result<Vec<Defined>, AllocError>
    ensures { IfOk result (λ v. v.items ≡ map as_name numbers.now) }
{
    let mut names = Vec::new(alloc);
    for n in numbers {
        names.push(Defined { name: *n, width: 0 })?;
    }
    Ok(names)
}

/// Puts numbers on a stack, so that the first comes off first.
fn push_all(stack: &mut Vec<TreeId>, ids: &[TreeId]) -> Result<(), AllocError>
    ensures { IfOk result (λ _. stack.new.items ≡ stack.old.items ++ reverse ids.now) }
{
    let mut i = ids.len();
    while i > 0 {
        i -= 1;
        stack.push(ids[i])?;
    }
    Ok(())
}

/// Pushes what a node of a pattern leaves to visit.
fn push_parts(stack: &mut Vec<TreeId>, node: &TreeNode) -> Result<(), AllocError>
    ensures { IfOk result (λ _. stack.new.items ≡ stack.old.items ++ reverse (parts_left node.now)) }
{
    match node {
        TreeNode::Binary(_, x, y) => {
            stack.push(*y)?;
            stack.push(*x)?;
            Ok(())
        }
        TreeNode::List(ids) => push_all(stack, ids),
        _ => Ok(()),
    }
}

/// Pushes the name that a node of a pattern is.
fn push_name(names: &mut Vec<Defined>, node: &TreeNode) -> Result<(), AllocError>
    ensures { IfOk result (λ _. names.new.items ≡ names.old.items ++ own_names node.now) }
{
    match node {
        TreeNode::Named(n) => {
            names.push(Defined { name: *n, width: 0 })?;
            Ok(())
        }
        _ => Ok(()),
    }
}

/// The names in patterns, in order.
pub(crate) fn names_in(alloc: Global, tree: &Tree, id: TreeId) -> Result<Vec<Defined>, AllocError>
    requires { id < size_of tree.now }
    ensures { IfOk result (λ v. v.items ≡ names_in (tree_in tree.now id)) }
{
    let mut names = Vec::new(alloc);
    let mut stack = Vec::new(alloc);
    stack.push(id)?;
    while let Some(next) = stack.pop() {
        let node = tree.node(next);
        push_name(&mut names, node)?;
        push_parts(&mut stack, node)?;
    }
    Ok(names)
}
