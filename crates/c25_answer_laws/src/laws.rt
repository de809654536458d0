//! Laws of the chain's debugger.

ghost use Rattle.std.specs.Prelude.{List, ℕ};
ghost use Rattle.c25_answer_laws.specs.SourceAnswers.{AnswersFromSources};
ghost use Rattle.c25_chain.specs.Chain.{Given};
ghost use Rattle.c25_chain.specs.Debug.{AnswersBy};
ghost use Rattle.c25_meaning_processor.specs.WordStep.{WordStep};

use c25_chain::laws::answers_run_as_their_sources;
use c25_debugger_laws::laws::scripts_are_answered_from_statements;
use c25_linking_laws::linking::program_maps_have_their_form;

/// Each text that the chain's debugger answers comes from the sources. The premise is what `debug_chain` of c25_chain
/// says of its text (clause `answer`): the answers of the script over the words of the sources' program. They are
/// answers over the statements of the sources, and `where` and `list` read these statements and their lines, no word,
/// mark or line of the image.
pub fn debugger_answers_come_from_sources()
    ensures { (g : Given) (script text : List ℕ) → AnswersBy (λ image. WordStep) g script text → AnswersFromSources g script text }
{
    answers_run_as_their_sources();
    program_maps_have_their_form();
    scripts_are_answered_from_statements();
}
