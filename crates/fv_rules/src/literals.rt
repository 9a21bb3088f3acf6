// The numbers of literals.

ghost use Rattle.std.specs.Prelude.{◌≡◌, pos, neg_ℤ};
ghost use Rattle.fv_diagram.specs.Words.{wrap};
ghost use Rattle.fv_rules.specs.headline.Rules.{literal_value};

use fv_parse_grammar::Literal;

/// The number of a literal.
pub fn literal(n: u32) -> i32
    ensures { result ≡ wrap (pos n) }
{
    n.cast_signed()
}

/// The number of a literal with a minus.
pub fn negative_literal(n: u32) -> i32
    ensures { result ≡ wrap (neg_ℤ (pos n)) }
{
    n.wrapping_neg().cast_signed()
}

/// The number of a literal with or without a sign.
pub fn literal_value(spelled: Literal) -> i32
    ensures { result ≡ literal_value spelled }
{
    match spelled {
        Literal::Plain(n) => literal(n),
        Literal::Negative(n) => negative_literal(n),
    }
}
