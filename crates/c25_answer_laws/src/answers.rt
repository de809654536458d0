//! When the chain answers.

ghost use Rattle.std.specs.Prelude.{◌≡◌, ◌<◌, ◌^◌, ℕ, Result, length};
ghost use Rattle.c25_answer_laws.specs.Answered.{AnswerData, HasAnswer, HasProgram, IsAnswerData};
ghost use Rattle.c25_chain.specs.Chain.{Answers, Given, IsRefused};
ghost use Rattle.c25_chain.specs.Refusal.{Fault};
ghost use Rattle.c25_chain.specs.declared.chain.Chain.{Chain};
ghost use Rattle.c25_chain.specs.declared.fault.ChainFault.{ChainFault};
ghost use Rattle.std.specs.Prelude.{List};

use c25_chain::laws::{answers_run_as_their_sources, sources_have_one_program};
use c25_cmd::laws::spelled_commands_keep_the_rules;
use c25_linking_laws::linking::program_maps_have_their_form;
use c25_module_laws::assembly_laws::sources_make_modules;
use c25_run_laws::runs::{image_runs_as_statements, words_end_once};

/// The chain answers wherever the texts that it is given have a program and inputs, and memory is there: there is an
/// answer of n steps, as a value, and what the chain gives is this answer, or memory ran out. There is one answer at
/// most, none of what the chain refuses, and none where there is no program. What the chain gives is said by the clause
/// `answer` of `run_chain` of c25_chain (`Answers`); that it has fewer than 2^64 sources is the size of its list.
pub fn texts_with_a_program_have_one_answer()
    ensures answered { (g : Given) (n : ℕ) (result : Result Chain Fault) → length g.sources < 2 ^ 64 → Answers g n result → HasProgram g → HasAnswer g n result }
    ensures once { (g : Given) (n : ℕ) (d other : AnswerData) → IsAnswerData g n d → IsAnswerData g n other → d ≡ other }
    ensures unrefused { (g : Given) (r : ChainFault (List ℕ)) → HasProgram g → IsRefused g r → ⊥ }
    ensures only { (g : Given) (n : ℕ) (d : AnswerData) → IsAnswerData g n d → HasProgram g }
{
    sources_make_modules();
    spelled_commands_keep_the_rules();
    program_maps_have_their_form();
    image_runs_as_statements();
    words_end_once();
    sources_have_one_program();
    answers_run_as_their_sources();
}
