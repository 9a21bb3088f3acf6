// The parser's call.

ghost use Rattle.std.specs.Prelude.{◌≡◌, ◌<◌, ◌⊎◌, length, IfOk, IfErr};
ghost use Rattle.fv_parse_grammar.specs.headline.Tree.{Tree as Spelled};
ghost use Rattle.fv_parse.specs.declared.refusal.ParseRefusal.{ParseRefusal as Refusal};
ghost use Rattle.fv_parse.specs.declared.refusal.ParseRefusal.TheVariants.{NoMemory};
ghost use Rattle.fv_parse_tree.specs.Arena.{trees, tree_at};
ghost use Rattle.fv_parse.specs.Trees.{program_of};
ghost use Rattle.fv_parse.specs.headline.Outcomes.{HasRefusal, IsSpelled, IsAccepted};
ghost use Rattle.fv_parse.specs.Outcomes.{HasTree, IsRefusedOrWants};
ghost use Rattle.fv_parse.specs.inner.Outcomes.{Finishes};

use crate::laws::one_outcome;
use crate::names::canonical_numbers;
use crate::parsed::{Tree, place_from};
use crate::refusal::ParseRefusal;
use crate::static_errors::refused;
use crate::unsupported::first_unsupported;
use fv_lex::Tokens;
use fv_parse_grammar::{reads_what_is_spelled, spelled_once, stops_at_the_place};
use fv_parse_tree::{Arena, Fault, TreeId, read};
use std::alloc::Global;

/// What is left to see of a program that is spelled.
fn finish<'a>(
    alloc: Global,
    tokens: &'a Tokens<'a>,
    arena: Arena,
    root: TreeId,
) -> Result<Tree<'a>, ParseRefusal>
    requires { root < length arena }
    ensures { Finishes tokens.now (tree_at (trees arena) root) result }
{
    let names = canonical_numbers(alloc, tokens)?;
    let tree = Tree {
        tokens,
        entries: arena.into_entries(),
        root,
        names,
    };
    match refused(alloc, &tree)? {
        Some(refusal) => Err(refusal),
        None => Ok(tree),
    }
}

/// The tree that the tokens spell, or what refuses them.
fn answer<'a>(alloc: Global, tokens: &'a Tokens<'a>) -> Result<Tree<'a>, ParseRefusal>
    ensures tree { IfOk result (HasTree tokens.now) }
    ensures refusal { IfErr result (λ e. (e ≡ NoMemory) ⊎ HasRefusal tokens.now e) }
{
    // The laws that the clauses stand on, and that the tokens are those of a text.
    reads_what_is_spelled();
    stops_at_the_place();
    let _source = tokens.source();
    if let Some(word) = first_unsupported(alloc, tokens)? {
        return Err(ParseRefusal::Unsupported { word });
    }
    match read(alloc, tokens.symbols()) {
        Ok((arena, root)) => finish(alloc, tokens, arena, root),
        Err(Fault::NoMemory) => Err(ParseRefusal::NoMemory),
        Err(Fault::Syntax(rest)) => {
            let place = place_from(tokens, rest.len() as u64);
            Err(ParseRefusal::Syntax {
                line: place.line,
                column: place.column,
            })
        }
    }
}

/// The one tree that the tokens spell. An unsupported token is refused first. Then tokens that spell no tree are refused, at the
/// first token with which they begin no program. Then the first static error in the text is refused: a name that is redefined, a
/// name that is repeated, or a rule of another width. A missing `process` is refused last.
pub fn parse<'a>(alloc: Global, tokens: &'a Tokens<'a>) -> Result<Tree<'a>, ParseRefusal>
    // A tree that is answered is the one that the tokens spell.
    ensures tree { IfOk result (HasTree tokens.now) }

    // A refusal is the one that the tokens have, unless memory ran out.
    ensures refusal { IfErr result (λ e. (e ≡ NoMemory) ⊎ HasRefusal tokens.now e) }

    // No other tree is spelled.
    ensures only { IfOk result (λ p. (x : Spelled) → IsSpelled tokens.now x → x ≡ program_of p) }

    // The refusal that the tokens have is answered, and where they are accepted none, unless memory ran out.
    ensures exact { (e : Refusal) → HasRefusal tokens.now e → IsRefusedOrWants result e }
    ensures accepted { (x : Spelled) → IsAccepted tokens.now x → IfErr result (λ e. e ≡ NoMemory) }
{
    // The laws that the last three clauses stand on.
    one_outcome();
    spelled_once();
    answer(alloc, tokens)
}
