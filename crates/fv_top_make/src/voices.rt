// The program that `make` makes: which one the text of some voices is.

ghost use Rattle.fv_top_make.specs.Voices.{VoicesAreAProgram, VoicesAreOneProgram, VoicesAreNotRefused};

use fv_parse_grammar::reads_what_is_spelled;
use fv_rules::literals_stay;
use fv_top_program::one_program;

/// The text of 1 to 64 voices is one program: the voices side by side on one input, added up, without controls. It is never
/// refused.
pub fn voices_are_a_program()
    ensures program { VoicesAreAProgram }
    ensures one { VoicesAreOneProgram }
    ensures accepted { VoicesAreNotRefused }
{
    // The tokens of the text spell one tree, its literals are the numbers, and a text is one program.
    reads_what_is_spelled();
    literals_stay();
    one_program();
}
