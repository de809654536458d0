//! What is displayed after a command of the prompt.

ghost use Rattle.std.specs.Prelude.{◌≡◌, ◌++◌, OnOk, string_bytes};
ghost use Rattle.c25_board.specs.Board.{state};
ghost use Rattle.c25_prompt.specs.Session.{moves, shown_after};

use crate::displays::{Displays, push_displays};
use crate::going::PromptBoard;
use c25_meaning_common::no_memory::NoMemory;
use c25_meaning_processor::script::Cmd;
use c25_prompt_lines::command::PromptCommand;

/// Whether a command does steps or goes back.
fn moves(command: &PromptCommand) -> bool
    ensures { result ≡ moves command.now }
{
    match command {
        PromptCommand::Script(Cmd::Step(_)) => true,
        PromptCommand::Script(Cmd::Run(_)) => true,
        PromptCommand::Next(_) => true,
        PromptCommand::Finish => true,
        PromptCommand::Until { .. } => true,
        PromptCommand::Back(_) => true,
        PromptCommand::BackTo => true,
        _ => false,
    }
}

/// Appends what is displayed after a command, if it does steps or goes back.
pub(crate) fn push_after(
    text: &mut String,
    command: &PromptCommand,
    board: &PromptBoard,
    displays: &Displays,
) -> Result<(), NoMemory>
    ensures { OnOk result (string_bytes text.new ≡ string_bytes text.old ++ shown_after command.now (state board.now) displays.now) }
{
    if !moves(command) {
        return Ok(());
    }
    push_displays(text, board, displays)
}
