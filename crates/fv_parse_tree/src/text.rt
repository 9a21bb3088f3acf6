// All symbols of a text.

ghost use Rattle.std.specs.Prelude.{◌<◌};
ghost use Rattle.fv_parse_grammar.specs.Descent.{program};
ghost use Rattle.fv_parse_tree.specs.Gives.{Reads};
ghost use Rattle.fv_base.specs.declared.limits.TheConstants.{DEEPEST_NESTING};

use crate::arena::Arena;
use crate::node::TreeId;
use crate::reader::{Reader, Stop, Symbols};
use fv_base::limits::DEEPEST_NESTING;
use fv_lex::Symbol;
use fv_parse_grammar::Items;
use std::alloc::Global;

/// Why there is no tree.
#[derive(Debug, Drop)]
pub enum Fault<'a> {
    /// Memory ran out.
    NoMemory,
    /// The symbols from the first that does not fit.
    Syntax(&'a [Symbol]),
}

/// The most brackets that may be open at once.
const MOST_OPEN: usize = DEEPEST_NESTING as usize;

/// The tree that the symbols spell, where no more brackets than a text may have are open at once: its nodes, and its
/// outermost list of definitions. A fault has the symbols from the first that does not fit.
pub fn read<'a>(alloc: Global, symbols: &'a [Symbol]) -> Result<(Arena, TreeId), Fault<'a>>
    ensures { Reads (λ x. x.0) (λ x. x.1) result (program DEEPEST_NESTING symbols.now) }
{
    let mut reader = Reader {
        arena: Arena::new(alloc),
        alloc,
        symbols: Symbols { rest: symbols },
    };
    match reader.further(MOST_OPEN, Items::Statements, None) {
        Err(Stop::NoMemory) => Err(Fault::NoMemory),
        Err(Stop::Syntax) => Err(Fault::Syntax(reader.symbols.rest)),
        Ok(root) => match reader.symbols.rest {
            [] => Ok((reader.arena, root)),
            [_, ..] => Err(Fault::Syntax(reader.symbols.rest)),
        },
    }
}
