// Laws of what tokens are.

ghost use Rattle.fv_parse.specs.Outcomes.{IsOneRefusal, IsNotBoth, IsOneOrOther};
ghost use Rattle.fv_parse.specs.Laws.{SameNumbersSameBytes, NumbersAreOfTheBytes};

use fv_parse_grammar::{reads_what_is_spelled, spelled_once, stops_at_the_place};

/// The tokens of a text are accepted, or refused for one thing, and never both.
pub fn one_outcome()
    ensures once { IsOneRefusal }
    ensures apart { IsNotBoth }
    ensures either { IsOneOrOther }
{
    // For the prover: the descent reads just what is spelled, tokens spell one program, and it stops at the one place of an error.
    reads_what_is_spelled();
    spelled_once();
    stops_at_the_place();
}

/// Two tokens have one canonical number exactly where they have the same bytes, and it is the number of a token with these bytes.
pub fn same_names()
    ensures same { SameNumbersSameBytes }
    ensures of { NumbersAreOfTheBytes }
{}
