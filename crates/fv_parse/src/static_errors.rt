// The first static error of a program: that of each node, by those of its parts.

ghost use Rattle.std.specs.Prelude.{◌≡◌, ◌⊎◌, ◌<◌, length, map, Some, IfOk};
ghost use Rattle.fv_parse_grammar.specs.headline.Tree.{End};
ghost use Rattle.fv_parse_tree.specs.Arena.{trees, forest};
ghost use Rattle.fv_parse.specs.declared.refusal.ParseRefusal.TheVariants.{NoMemory};
ghost use Rattle.fv_parse.specs.headline.Trees.{AllBelow};
ghost use Rattle.fv_parse.specs.Trees.{size_of, tree_in, program_of};
ghost use Rattle.fv_parse.specs.headline.Definitions.{definitions_of, as_name, names_in};
ghost use Rattle.fv_parse.specs.headline.StaticErrors.{earlier, repeated, redefined, rule_widths, error_of, error_refusal, refused};
ghost use Rattle.fv_parse.specs.inner.StaticErrors.{AreErrors};

use crate::clash::{Among, ErrorKind, StaticError, earlier, first_clash, rule_widths};
use crate::definitions::{as_names, definitions_of, has_process, names_in};
use crate::parsed::{Tree, place_at, text_of};
use crate::refusal::ParseRefusal;
use fv_base::Word;
use fv_lex::Tokens;
use fv_parse_tree::{TreeId, TreeNode};
use std::alloc::{AllocError, Global};

/// The first error of a part.
fn error_at(tree: &Tree, errors: &[Option<StaticError>], id: TreeId) -> Option<StaticError>
    requires inside { id < length errors.now }
    requires known { AreErrors tree.now errors.now }
    ensures { result ≡ error_of tree.now.tokens (tree_in tree.now id) }
{
    errors[id.number() as usize]
}

/// The first error of the parts of a list.
fn error_among(tree: &Tree, errors: &[Option<StaticError>], ids: &[TreeId]) -> Option<StaticError>
    requires inside { AllBelow (length errors.now) ids.now }
    requires known { AreErrors tree.now errors.now }
    ensures { result ≡ error_of tree.now.tokens (forest (trees tree.now.entries) ids.now End) }
{
    let mut first = None;
    let mut i = ids.len();
    while i > 0 {
        i -= 1;
        first = earlier(error_at(tree, errors, ids[i]), first);
    }
    first
}

/// The first definition in a list that clashes with an earlier one.
fn redefined(alloc: Global, tree: &Tree, id: TreeId) -> Result<Option<StaticError>, AllocError>
    requires { id < size_of tree.now }
    ensures { IfOk result (λ o. o ≡ redefined tree.now.tokens (tree_in tree.now id)) }
{
    let list = definitions_of(alloc, tree, id)?;
    first_clash(alloc, Among::Definitions, tree.tokens, &list)
}

/// The first rule of a list that has another number of patterns than the first one.
fn differing_rule(alloc: Global, tree: &Tree, id: TreeId) -> Result<Option<StaticError>, AllocError>
    requires { id < size_of tree.now }
    ensures { IfOk result (λ o. o ≡ rule_widths (definitions_of tree.now.tokens (tree_in tree.now id))) }
{
    let list = definitions_of(alloc, tree, id)?;
    Ok(rule_widths(&list))
}

/// The first name that stands twice in patterns.
fn repeated_in(alloc: Global, tree: &Tree, id: TreeId) -> Result<Option<StaticError>, AllocError>
    requires { id < size_of tree.now }
    ensures { IfOk result (λ o. o ≡ repeated tree.now.tokens (names_in (tree_in tree.now id))) }
{
    let list = names_in(alloc, tree, id)?;
    first_clash(alloc, Among::Names, tree.tokens, &list)
}

/// The first name that stands twice among parameters.
fn repeated_among(
    alloc: Global,
    tokens: &Tokens,
    numbers: &[u64],
) -> Result<Option<StaticError>, AllocError>
    ensures { IfOk result (λ o. o ≡ repeated tokens.now (map as_name numbers.now)) }
{
    let list = as_names(alloc, numbers)?;
    first_clash(alloc, Among::Names, tokens, &list)
}

/// The first error of a node, by those of the nodes before it.
fn error_in(
    alloc: Global,
    tree: &Tree,
    errors: &[Option<StaticError>],
    id: TreeId,
) -> Result<Option<StaticError>, AllocError>
    requires inside { id < size_of tree.now }
    requires next { id ≡ length errors.now }
    requires known { AreErrors tree.now errors.now }
    ensures { IfOk result (λ o. o ≡ error_of tree.now.tokens (tree_in tree.now id)) }
{
    match tree.node(id) {
        TreeNode::Group(x)
        | TreeNode::Ports(_, x)
        | TreeNode::Panel(_, _, x)
        | TreeNode::Delayed(x)
        | TreeNode::Constant(_, x) => Ok(error_at(tree, errors, *x)),
        TreeNode::Iteration(_, _, x, y) | TreeNode::Apply(x, y) | TreeNode::Binary(_, x, y) => {
            let first = error_at(tree, errors, *x);
            Ok(earlier(first, error_at(tree, errors, *y)))
        }
        TreeNode::Slider(_, _, init, min, max, step) => {
            let last = earlier(error_at(tree, errors, *max), error_at(tree, errors, *step));
            let later = earlier(error_at(tree, errors, *min), last);
            Ok(earlier(error_at(tree, errors, *init), later))
        }
        TreeNode::Abstraction(names, x) => {
            let own = repeated_among(alloc, tree.tokens, names)?;
            Ok(earlier(own, error_at(tree, errors, *x)))
        }
        TreeNode::Case(rules) => {
            let own = differing_rule(alloc, tree, *rules)?;
            Ok(earlier(own, error_at(tree, errors, *rules)))
        }
        TreeNode::Where(x, definitions) => {
            let own = redefined(alloc, tree, *definitions)?;
            let inner = earlier(own, error_at(tree, errors, *definitions));
            Ok(earlier(error_at(tree, errors, *x), inner))
        }
        TreeNode::Rule(patterns, x) | TreeNode::Function(_, patterns, x) => {
            let own = repeated_in(alloc, tree, *patterns)?;
            Ok(earlier(own, error_at(tree, errors, *x)))
        }
        TreeNode::List(ids) => Ok(error_among(tree, errors, ids)),
        _ => Ok(None),
    }
}

/// The first error of each node.
fn errors_of(alloc: Global, tree: &Tree) -> Result<Vec<Option<StaticError>>, AllocError>
    ensures length { IfOk result (λ v. length v.items ≡ size_of tree.now) }
    ensures known { IfOk result (λ v. AreErrors tree.now v.items) }
{
    let mut errors = Vec::new(alloc);
    for i in 0..tree.len() {
        let found = error_in(alloc, tree, &errors, TreeId::new(i))?;
        errors.push(found)?;
    }
    Ok(errors)
}

/// What refuses a program that has this error.
fn error_refusal(alloc: Global, tokens: &Tokens, error: StaticError) -> ParseRefusal
    ensures { (result ≡ NoMemory) ⊎ (result ≡ error_refusal tokens.now error.kind error.token) }
{
    match error.kind {
        ErrorKind::Redefined => match Word::new(alloc, text_of(tokens, error.token)) {
            Ok(name) => ParseRefusal::Redefined { name },
            Err(_) => ParseRefusal::NoMemory,
        },
        ErrorKind::Repeated => match Word::new(alloc, text_of(tokens, error.token)) {
            Ok(name) => ParseRefusal::RepeatedName { name },
            Err(_) => ParseRefusal::NoMemory,
        },
        ErrorKind::Widths => {
            let place = place_at(tokens, error.token);
            ParseRefusal::RuleWidths {
                line: place.line,
                column: place.column,
            }
        }
    }
}

/// What refuses a program that is spelled.
pub(crate) fn refused(alloc: Global, tree: &Tree) -> Result<Option<ParseRefusal>, AllocError>
    ensures { IfOk result (λ o. (o ≡ Some NoMemory) ⊎ (o ≡ refused tree.now.tokens (program_of tree.now))) }
{
    let definitions = definitions_of(alloc, tree, tree.root())?;
    let own = first_clash(alloc, Among::Definitions, tree.tokens, &definitions)?;
    let errors = errors_of(alloc, tree)?;
    match earlier(own, error_at(tree, &errors, tree.root())) {
        Some(error) => Ok(Some(error_refusal(alloc, tree.tokens, error))),
        None => {
            if has_process(tree.tokens, &definitions) {
                Ok(None)
            } else {
                Ok(Some(ParseRefusal::NoProcess))
            }
        }
    }
}
