//! Laws of what the chain answers. Each is the contract of a function that only calls the laws on which it
//! rests.

ghost use Rattle.std.specs.Prelude.{◌≡◌, ◌↔◌, List, ℕ};
ghost use Rattle.c25_meaning_expansion.specs.Files.{Files};
ghost use Rattle.c25_meaning_linking.specs.Linking.{ImageData};
ghost use Rattle.c25_meaning_processor.specs.Run.{Ending};
ghost use Rattle.c25_meaning_processor.specs.Statements.{IsImageOf};
ghost use Rattle.c25_meaning_processor.specs.declared.sample.Sample.{Sample};
ghost use Rattle.c25_chain.specs.Built.{IsBuilt};
ghost use Rattle.c25_chain.specs.Chain.{Given, IsAnswer};
ghost use Rattle.c25_chain.specs.Headline.{CodeStays, HoldsSourceWords, MarksStatements, OfProgram, RunsAsSources, TellsStatementsRun, first_state, source_statements};
ghost use Rattle.c25_chain.specs.Linked.{LinkedTexts};
ghost use Rattle.c25_chain.specs.Ready.{IsAnswerOf, IsReady, RunsReady, statements_end};
ghost use Rattle.c25_chain.specs.declared.chain.Chain.{Chain};
ghost use Rattle.c25_chain.specs.declared.ready.Ready.{Ready};

use c25_cmd::laws::spelled_commands_keep_the_rules;
use c25_hex::laws::written_texts_are_read_back;
use c25_laws::program_laws::{
    linked_images_run_as_statements, program_marks_are_statements, program_words_are_the_sources,
    program_words_read_as_statements,
};
use c25_linking_laws::linking::{
    modules_have_one_program, program_maps_have_their_form, program_words_have_16_bits,
};
use c25_module_laws::assembly_laws::sources_make_modules;
use c25_run_laws::runs::{image_runs_as_statements, steps_keep_the_words_of_code, words_end_once};

/// Sources and the text of a command file have at most one program: its words, its marks and its map depend
/// on nothing else, neither on the samples nor on the schedule nor on the number of steps.
pub fn sources_have_one_program()
    ensures { (files : Files) (names : List (List ℕ)) (command : List ℕ) (image other : ImageData) (texts others : LinkedTexts) (listings more : List (List ℕ))
        → IsBuilt files names command image texts listings → IsBuilt files names command other others more → image ≡ other }
{
    modules_have_one_program();
}

/// The run is the one that the sources describe: each of the claims follows from what an answer is, a program
/// of its sources and n steps of that program's words. The state in which every run of a program begins holds
/// the statements of its sources, whatever its samples are.
pub fn answers_run_as_their_sources()
    ensures words { (g : Given) (n : ℕ) (c : Chain) → IsAnswer g n c → OfProgram (HoldsSourceWords c) g.files g.sources g.command c }
    ensures marks { (g : Given) (n : ℕ) (c : Chain) → IsAnswer g n c → OfProgram MarksStatements g.files g.sources g.command c }
    ensures runs { (g : Given) (n : ℕ) (c : Chain) → IsAnswer g n c → OfProgram RunsAsSources g.files g.sources g.command c }
    ensures code { (g : Given) (n : ℕ) (c : Chain) → IsAnswer g n c → OfProgram CodeStays g.files g.sources g.command c }
    ensures own_run { (g : Given) (n : ℕ) (c : Chain) → IsAnswer g n c → TellsStatementsRun g n c }
    ensures first_states { (files : Files) (names : List (List ℕ)) (command : List ℕ) (image : ImageData) (texts : LinkedTexts) (listings : List (List ℕ)) (samples : List Sample)
        → IsBuilt files names command image texts listings → IsImageOf (source_statements files names image.described) (first_state image samples).world }
{
    sources_make_modules();
    spelled_commands_keep_the_rules();
    written_texts_are_read_back();
    program_maps_have_their_form();
    program_words_have_16_bits();
    program_marks_are_statements();
    program_words_read_as_statements();
    program_words_are_the_sources();
    linked_images_run_as_statements();
    steps_keep_the_words_of_code();
}

/// A program that `make_ready` answers runs as its sources describe: n steps of its words have one end, that
/// of n steps of the statements of the sources.
pub fn ready_programs_run_as_their_sources()
    ensures { (g : Given) (ready : Ready) (n : ℕ) (end : Ending) → IsReady g ready → RunsReady ready n end ↔ (end ≡ statements_end g ready n) }
{
    answers_run_as_their_sources();
    image_runs_as_statements();
}

/// A program that `make_ready` answers runs as the chain answers: where n steps of its words end, each answer
/// of the same texts has the outputs, registers, data memory, outcome and number of steps of that end, and
/// the text of that end is the answer's.
pub fn ready_programs_run_as_answered()
    ensures { (g : Given) (ready : Ready) (n : ℕ) (end : Ending) (c : Chain) → IsReady g ready → RunsReady ready n end → (a : IsAnswer g n c) → IsAnswerOf ready n end g c a }
{
    sources_have_one_program();
    words_end_once();
}
