//! Laws of sessions at the prompt, each the contract of a function that does nothing.

ghost use Rattle.std.specs.Prelude.{◌≡◌, ◌↔◌, ℕ, List};
ghost use Rattle.c25_meaning_linking.specs.Linking.{ImageData};
ghost use Rattle.c25_meaning_processor.specs.Run.{Reaches, Signals};
ghost use Rattle.c25_meaning_processor.specs.State.{State};
ghost use Rattle.c25_meaning_processor.specs.Statements.{IsImageOf, Statements, statement_step};
ghost use Rattle.c25_meaning_processor.specs.WordStep.{WordStep};
ghost use Rattle.c25_prompt.specs.Conversing.{Converses};
ghost use Rattle.c25_prompt.specs.Each.{Standing};
ghost use Rattle.c25_prompt.specs.Prompt.{PromptAnswers, PromptPoint};
ghost use Rattle.c25_prompt.specs.Session.{SessionAnswers, SessionPoint};
ghost use Rattle.c25_prompt_lines.specs.Addresses.{ProgramData};
ghost use Rattle.c25_prompt_lines.specs.declared.command.PromptCommand.{PromptCommand};
ghost use Rattle.c25_prompt_lines.specs.declared.command.SessionCommand.{SessionCommand};

use c25_meaning_instructions::laws::words_have_one_reading;
use c25_run_laws::runs::{image_runs_as_statements, words_end_once};

/// No command changes a register or a word of memory, over the words and over the statements: from a point
/// that the run from the first state reached, each command leads to a point that it reaches.
pub fn commands_stay_on_the_run()
    ensures words { (signals : Signals) (image : ImageData) (first : State) (c : PromptCommand) (p q : PromptPoint) (text : List ℕ) →
        PromptAnswers WordStep signals image first c p text q → Reaches WordStep signals 0 p.at.steps first p.at.state → Reaches WordStep signals 0 q.at.steps first q.at.state }
    ensures statements { (statements : Statements) (signals : Signals) (image : ImageData) (first : State) (c : PromptCommand) (p q : PromptPoint) (text : List ℕ) →
        PromptAnswers (λ lines bio t outcome. outcome ≡ statement_step statements lines bio t) signals image first c p text q
        → Reaches (λ lines bio t outcome. outcome ≡ statement_step statements lines bio t) signals 0 p.at.steps first p.at.state
        → Reaches (λ lines bio t outcome. outcome ≡ statement_step statements lines bio t) signals 0 q.at.steps first q.at.state }
{}

/// What is answered is a function of the commands so far: over the words a command has one answer at most at
/// a point, and leads to one point.
pub fn commands_have_one_answer()
    ensures { (signals : Signals) (image : ImageData) (first : State) (c : PromptCommand) (p q r : PromptPoint) (s t : List ℕ) →
        PromptAnswers WordStep signals image first c p s q → PromptAnswers WordStep signals image first c p t r → (s ≡ t) × (q ≡ r) }
{
    words_end_once();
    words_have_one_reading();
}

/// A prompt over the words and one over the statements answer alike: where the words of the first state and
/// those of a point are an image of the statements, a command is answered over the words exactly where it is
/// answered so over the statements.
pub fn prompts_answer_alike()
    ensures { (statements : Statements) (signals : Signals) (image : ImageData) (first : State) (c : PromptCommand) (p q : PromptPoint) (text : List ℕ) →
        IsImageOf statements first.world → IsImageOf statements p.at.state.world →
        PromptAnswers WordStep signals image first c p text q
        ↔ PromptAnswers (λ lines bio t outcome. outcome ≡ statement_step statements lines bio t) signals image first c p text q }
{}

/// No command of a session changes a register or a word of memory, over the words and over the statements.
pub fn sessions_stay_on_the_run()
    ensures words { (signals : Signals) (program : ProgramData) (first : State) (c : SessionCommand) (p q : SessionPoint) (text : List ℕ) →
        SessionAnswers WordStep signals program first c p text q → Reaches WordStep signals 0 p.point.at.steps first p.point.at.state
        → Reaches WordStep signals 0 q.point.at.steps first q.point.at.state }
    ensures statements { (statements : Statements) (signals : Signals) (program : ProgramData) (first : State) (c : SessionCommand) (p q : SessionPoint) (text : List ℕ) →
        SessionAnswers (λ lines bio t outcome. outcome ≡ statement_step statements lines bio t) signals program first c p text q
        → Reaches (λ lines bio t outcome. outcome ≡ statement_step statements lines bio t) signals 0 p.point.at.steps first p.point.at.state
        → Reaches (λ lines bio t outcome. outcome ≡ statement_step statements lines bio t) signals 0 q.point.at.steps first q.point.at.state }
{
    commands_stay_on_the_run();
}

/// What is answered in a session, what is displayed among it, is a function of the commands so far: over the
/// words a command has one answer at most at a point, and leads to one point.
pub fn sessions_have_one_answer()
    ensures { (signals : Signals) (program : ProgramData) (first : State) (c : SessionCommand) (p q r : SessionPoint) (s t : List ℕ) →
        SessionAnswers WordStep signals program first c p s q → SessionAnswers WordStep signals program first c p t r → (s ≡ t) × (q ≡ r) }
{
    commands_have_one_answer();
    words_have_one_reading();
}

/// A session over the words and one over the statements answer alike, as prompts do.
pub fn sessions_answer_alike()
    ensures { (statements : Statements) (signals : Signals) (program : ProgramData) (first : State) (c : SessionCommand) (p q : SessionPoint) (text : List ℕ) →
        IsImageOf statements first.world → IsImageOf statements p.point.at.state.world →
        SessionAnswers WordStep signals program first c p text q
        ↔ SessionAnswers (λ lines bio t outcome. outcome ≡ statement_step statements lines bio t) signals program first c p text q }
{
    prompts_answer_alike();
}

/// A conversation over the words is one over the statements: where the words of the first state are an image of
/// the statements, the lines that are answered over the words, from a point of the run on, are answered so over
/// the statements.
pub fn conversations_answer_alike()
    ensures { (statements : Statements) (signals : Signals) (program : ProgramData) (first : State) (before after : Standing) →
        IsImageOf statements first.world → Reaches WordStep signals 0 before.point.point.at.steps first before.point.point.at.state →
        Converses WordStep signals program first before after
        → Converses (λ lines bio t outcome. outcome ≡ statement_step statements lines bio t) signals program first before after }
{
    sessions_stay_on_the_run();
    sessions_answer_alike();
    image_runs_as_statements();
}
