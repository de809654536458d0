//! Laws of debuggers, each the contract of a function that does nothing.

ghost use Rattle.std.specs.Prelude.{◌≡◌, ◌↔◌, ℕ, List};
ghost use Rattle.c25_meaning_debugger.specs.Debugger.{AnswersScript};
ghost use Rattle.c25_meaning_linking.specs.Linking.{ImageData};
ghost use Rattle.c25_meaning_processor.specs.Run.{Signals};
ghost use Rattle.c25_meaning_processor.specs.State.{State};
ghost use Rattle.c25_meaning_processor.specs.Statements.{IsImageOf, Statements, statement_step};
ghost use Rattle.c25_meaning_processor.specs.WordStep.{WordStep};
ghost use Rattle.c25_meaning_processor.specs.declared.script.Cmd.{Cmd};

/// From any state whose words are an image of the statements, under all samples, interrupt lines and BIO
/// levels, a script is answered over the words by a text exactly where it is answered by that text over the
/// statements: what a debugger shows of the words' run it would show of the statements' run.
pub fn debuggers_answer_alike()
    ensures { (statements : Statements) (signals : Signals) (image : ImageData) (commands : List Cmd) (s : State) (text : List ℕ) →
        IsImageOf statements s.world →
        AnswersScript WordStep signals image commands s text
        ↔ AnswersScript (λ lines bio t outcome. outcome ≡ statement_step statements lines bio t) signals image commands s text }
{}
