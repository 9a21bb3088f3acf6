// The exact place of a syntax error: the tokens before it begin a program, and with the next one none begins.

ghost use Rattle.fv_parse_grammar.specs.Beginnings.{StopsBehindABeginning, BeginningsAreClosed, ProgramsBegin};
ghost use Rattle.fv_parse_grammar.specs.Beginnings.{StopsWhereNoneGoesOn, StopsAtThePlace, OnePlace};

use crate::reads_what_is_spelled;

/// The tokens before the place where the descent stops are a viable prefix: they begin a program.
pub fn stops_behind_a_beginning()
    ensures { StopsBehindABeginning }
{}

/// A prefix of a viable prefix is one too, and so are the tokens of a whole program.
pub fn beginnings_are_closed()
    ensures closed { BeginningsAreClosed }
    ensures whole { ProgramsBegin }
{}

/// No program begins with the tokens up to the one where the descent stops and that one.
pub fn stops_where_none_goes_on()
    ensures { StopsWhereNoneGoesOn }
{
    // For the prover: the descent reads all that is spelled, so nothing is spelled where it stops.
    reads_what_is_spelled();
}

/// Where the descent stops is the place of an error, and a list of tokens has at most one such place.
pub fn stops_at_the_place()
    ensures place { StopsAtThePlace }
    ensures unique { OnePlace }
{
    // For the prover: the descent reads what is spelled and nothing else.
    reads_what_is_spelled();
}
