//! Commands at the prompt that show where a board stands.

ghost use Rattle.std.specs.Prelude.{◌≡◌, ◌++◌, IfOk, OnOk, string_bytes};
ghost use Rattle.c25_board.specs.Board.{state};
ghost use Rattle.c25_meaning_debugger.specs.Texts.{regs_text};
ghost use Rattle.c25_meaning_processor.specs.Status.{regs_of};
ghost use Rattle.c25_prompt.specs.Shown.{shown_text};
ghost use Rattle.c25_prompt_texts.specs.Fields.{status_text};

use crate::going::PromptBoard;
use c25_debug::shown::show_registers;
use c25_debug::steps::{Answer, shown};
use c25_meaning_common::no_memory::NoMemory;
use c25_prompt_lines::command::Shown;
use c25_prompt_texts::fields::push_status;
use c25_prompt_texts::values::{push_value, push_word};
use std::alloc::Global;

/// The answer to `regs`: the registers, and the fields of the status words.
pub(crate) fn show_fields(alloc: Global, board: &PromptBoard) -> Result<Answer, NoMemory>
    ensures { IfOk result (λ answer. string_bytes answer.text ≡ regs_text (regs_of (state board.now).registers) ++ status_text (regs_of (state board.now).registers)) }
{
    let mut text = show_registers(alloc, board)?.text;
    push_status(&mut text, &board.regs())?;
    Ok(shown(text))
}

/// Appends what is shown as a number: the number, or a word of data memory as the processor reads it.
pub(crate) fn push_shown(
    text: &mut String,
    board: &PromptBoard,
    what: &Shown,
) -> Result<(), NoMemory>
    ensures { OnOk result (string_bytes text.new ≡ string_bytes text.old ++ shown_text (state board.now) what.now) }
{
    match what {
        Shown::Number(number) => push_value(text, *number),
        Shown::Word(address) => push_word(text, *address, board.data_at(*address)),
    }
}

/// The answer to `print`.
pub(crate) fn show_number(
    alloc: Global,
    board: &PromptBoard,
    what: &Shown,
) -> Result<Answer, NoMemory>
    ensures { IfOk result (λ answer. string_bytes answer.text ≡ shown_text (state board.now) what.now) }
{
    let mut text = String::new(alloc);
    push_shown(&mut text, board, what)?;
    Ok(shown(text))
}
