// Laws of the grammar.

ghost use Rattle.fv_parse_grammar.specs.Grammar.{SpelledOnce};
ghost use Rattle.fv_parse_grammar.specs.Laws.{ReadsOnlySpelled, ReadsAllSpelled, NestsWithinLength};

/// Tokens spell at most one program, so precedence and associativity are settled.
pub fn spelled_once()
    ensures { SpelledOnce }
{}

/// The descent reads what is spelled, and nothing else.
pub fn reads_what_is_spelled()
    ensures sound { ReadsOnlySpelled }
    ensures complete { ReadsAllSpelled }
    ensures nesting { NestsWithinLength }
{}
