//! The commands of a script, at the prompt.

ghost use Rattle.std.specs.Prelude.{◌≡◌, IfOk, string_bytes};
ghost use Rattle.c25_board.specs.Board.{entries, signals};
ghost use Rattle.c25_meaning_processor.specs.Goes.{is_breakpoint};
ghost use Rattle.c25_meaning_processor.specs.Set.{without_breakpoint};
ghost use Rattle.c25_meaning_processor.specs.WordStep.{WordStep};
ghost use Rattle.c25_meaning_debugger.specs.Texts.{cleared_text};
ghost use Rattle.c25_prompt.specs.Ignored.{without_count};
ghost use Rattle.c25_prompt.specs.Point.{point_of};
ghost use Rattle.c25_prompt.specs.Prompt.{ScriptAnswers};
ghost use Rattle.c25_prompt_lines.specs.WithinMemory.{IsWithinPrompt};
ghost use Rattle.c25_prompt_lines.specs.declared.command.PromptCommand.TheVariants as prompt;

use crate::going::PromptBoard;
use crate::looking::show_fields;
use crate::running::{answer_run, answer_step};
use crate::stops::Stops;
use c25_debug::breakpoints::{answer_cleared, answer_set};
use c25_debug::shown::{show_data, show_list, show_place, show_program, show_stack, show_symbols};
use c25_debug::steps::Answer;
use c25_link::Image;
use c25_meaning_common::no_memory::NoMemory;
use c25_meaning_processor::script::Cmd;
use std::alloc::Global;

/// The answer to `clear`, which forgets how many meetings of the breakpoint are passed.
fn answer_clear(alloc: Global, stops: &mut Stops, address: u16) -> Result<Answer, NoMemory>
    ensures text { IfOk result (λ answer. string_bytes answer.text ≡ cleared_text (is_breakpoint stops.old.breakpoints address) address) }
    ensures breakpoints { IfOk result (λ answer. stops.new.breakpoints ≡ without_breakpoint stops.old.breakpoints address) }
    ensures once { IfOk result (λ answer. stops.new.once ≡ without_breakpoint stops.old.once address) }
    ensures ignored { IfOk result (λ answer. stops.new.ignored ≡ without_count stops.old.ignored address) }
    ensures watches { stops.new.watches ≡ stops.old.watches }
{
    stops.once.clear(address);
    stops.ignored.forget(address);
    answer_cleared(alloc, &mut stops.breakpoints, address)
}

/// The answer to a command of a script.
pub(crate) fn answer_script(
    alloc: Global,
    image: &Image,
    board: &mut PromptBoard,
    stops: &mut Stops,
    command: &Cmd,
) -> Result<Answer, NoMemory>
    requires { IsWithinPrompt (prompt.Script command.now) }
    ensures answer { IfOk result (λ answer. ScriptAnswers WordStep (signals board.old) image.now command.now (point_of board.old stops.old) (string_bytes answer.text) (point_of board.new stops.new)) }
    ensures schedule { entries board.new ≡ entries board.old }
{
    match *command {
        Cmd::Step(count) => answer_step(alloc, board, count),
        Cmd::Run(count) => answer_run(alloc, board, count, stops),
        Cmd::Break(address) => answer_set(alloc, &mut stops.breakpoints, address),
        Cmd::Clear(address) => answer_clear(alloc, stops, address),
        Cmd::Regs => show_fields(alloc, board),
        Cmd::Data { address, count } => show_data(alloc, board, address, count),
        Cmd::Prog { address, count } => show_program(alloc, board, address, count),
        Cmd::Stack => show_stack(alloc, board),
        Cmd::Where => show_place(alloc, image, board),
        Cmd::List(count) => show_list(alloc, image, board.pc(), count),
        Cmd::Symbols => show_symbols(alloc, image),
    }
}
