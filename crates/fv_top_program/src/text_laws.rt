// Laws of texts.

ghost use Rattle.fv_top_program.specs.Program.{IsOneText, IsSomeText, IsOneOrOther, FrontIsEnough, ProgramIsWhole};

use fv_lex::one_answer;
use fv_parse::one_outcome;
use fv_parse_grammar::spelled_once;

/// A text is one program, or it is refused for one thing, and never both.
pub fn one_program()
    ensures once { IsOneText }
    ensures some { IsSomeText }
    ensures either { IsOneOrOther }
{
    // A text has one list of tokens or one refusal, these spell at most one tree, and that has one outcome.
    one_answer();
    spelled_once();
    one_outcome();
}

/// The bytes of a text up to one past its limit are the program, or are refused, as the whole text is. Where they are a program,
/// they are the whole text.
pub fn front_is_enough()
    ensures same { FrontIsEnough }
    ensures whole { ProgramIsWhole }
{}
