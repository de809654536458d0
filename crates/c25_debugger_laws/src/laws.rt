//! Laws of debuggers, each the contract of a function that calls the laws that it rests on.

ghost use Rattle.std.specs.Prelude.{◌≡◌, List, ℕ};
ghost use Rattle.c25_meaning_debugger.specs.Debugger.{AnswersScript, IsWhereBy, source_line_at};
ghost use Rattle.c25_meaning_debugger.specs.Texts.{AreLinesOf, marks_from};
ghost use Rattle.c25_meaning_expansion.specs.Files.{Files};
ghost use Rattle.c25_meaning_linking.specs.Command.{CommandData};
ghost use Rattle.c25_meaning_linking.specs.Linking.{ImageData, IsProgram};
ghost use Rattle.c25_meaning_objects.specs.Module.{Contents};
ghost use Rattle.c25_meaning_processor.specs.Run.{Signals};
ghost use Rattle.c25_meaning_processor.specs.State.{State};
ghost use Rattle.c25_meaning_processor.specs.declared.script.Cmd.{Cmd};
ghost use Rattle.c25_meaning_processor.specs.Statements.{IsImageOf, statement_step};
ghost use Rattle.c25_meaning_processor.specs.WordStep.{WordStep, mark_found};
ghost use Rattle.c25_laws.specs.ProgramStatements.{AreModulesOf, program_statements};
ghost use Rattle.c25_statement_laws.specs.StatementLines.{traced_statements};
ghost use Rattle.c25_debugger_laws.specs.StatementAnswers.{IsListText, ScriptAnswersOf, where_text};

use c25_laws::program_laws::{
    linked_images_run_as_statements, program_marks_are_statements, program_words_read_as_statements,
};
use c25_statement_laws::name_laws::lines_are_statements;

/// What a debugger reads of a program's image for `where` and `list` is what the sources' statements say. In every
/// state whose words are an image of the statements, as they are in each state of a run of the program
/// (`linked_images_run_as_statements` of c25_laws), the answer to `where` is the line of the statement at PC, of the
/// one that runs there in block B0 if B0 holds its words (`places`). The answer to `list` is the lines of the
/// statements from an address on, in ascending order (`lists`).
pub fn where_and_list_are_statements()
    ensures places { (files : Files) (names : List (List ℕ)) (modules : List Contents) (command : CommandData) (image : ImageData)
        → AreModulesOf files names modules → (p : IsProgram modules command image)
        → (s : State) → IsImageOf (program_statements files names modules p.places) s.world
        → (text : List ℕ) → IsWhereBy image s (mark_found s.registers.cnf s.world s.registers.pc) text
        → text ≡ where_text (traced_statements files names modules p.places) s }
    ensures lists { (files : Files) (names : List (List ℕ)) (modules : List Contents) (command : CommandData) (image : ImageData)
        → AreModulesOf files names modules → (p : IsProgram modules command image)
        → (pc n : ℕ) (text : List ℕ) → AreLinesOf image.program (source_line_at image) (marks_from image.marks pc n) text
        → IsListText (traced_statements files names modules p.places) pc n text }
{
    lines_are_statements();
    program_marks_are_statements();
    program_words_read_as_statements();
    linked_images_run_as_statements();
}

/// Whole scripts are answered from the statements of the sources: from a state whose words are an image of them, the
/// text that a debugger answers over the program's words is an answer over steps of the statements, in which `where`
/// and `list` read the statements, and of the image nothing is read but the symbols of its map. The first state of a
/// program is such a state (`linked_images_run_as_statements` of c25_laws).
pub fn scripts_are_answered_from_statements()
    ensures { (files : Files) (names : List (List ℕ)) (modules : List Contents) (command : CommandData) (image : ImageData)
        → AreModulesOf files names modules → (p : IsProgram modules command image)
        → (signals : Signals) (commands : List Cmd) (s : State) (text : List ℕ) → IsImageOf (program_statements files names modules p.places) s.world
        → AnswersScript WordStep signals image commands s text
        → ScriptAnswersOf (traced_statements files names modules p.places) (λ lines bio t outcome. outcome ≡ statement_step (program_statements files names modules p.places) lines bio t) signals image commands s text }
{
    where_and_list_are_statements();
}
