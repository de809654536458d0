//! `line`: the source around the instruction at PC.

ghost use Rattle.std.specs.Prelude.{◌≡◌, ◌++◌, IfOk, OnOk, option_map, string_bytes};
ghost use Rattle.c25_board.specs.Board.{state};
ghost use Rattle.c25_prompt.specs.Source.{AreLinesThere, IsPlace};
ghost use Rattle.c25_prompt_lines.specs.Addresses.{program_view};
ghost use Rattle.c25_prompt_lines.specs.SourceTexts.{text_in};
ghost use Rattle.c25_prompt_texts.specs.SourceLines.{place_around};

use crate::going::PromptBoard;
use c25_link::Image;
use c25_meaning_common::no_memory::NoMemory;
use c25_prompt_lines::program::{Program, SourceText, text_of};
use c25_prompt_texts::source_lines::push_source;
use c25_texts::appending::push_texts;
use std::alloc::Global;

/// The line of a source at which the instruction at PC stands, if it is known. Where that of an instruction in
/// block B0 stands is looked up by the address where it is loaded.
fn place_at_pc<'a>(image: &'a Image, board: &PromptBoard) -> Option<(&'a str, u32)>
    ensures { IsPlace image.entry.now (state board.entry.now) (option_map (λ r. (r.0.now, r.1)) result) }
{
    match board.run_mark() {
        Some(mark) => match board.copied(&mark) {
            Some(_insn) => image.line_of(mark.load),
            None => image.line_of(board.pc()),
        },
        None => image.line_of(board.pc()),
    }
}

/// Appends the lines around a place in the sources, or `none` where it is not known.
fn push_place(
    alloc: Global,
    text: &mut String,
    texts: &[SourceText],
    place: Option<(&str, u32)>,
) -> Result<(), NoMemory>
    ensures { OnOk result (string_bytes text.new ≡ string_bytes text.old ++ place_around (text_in texts.entry.now) (option_map (λ r. (r.0.now, r.1)) place.entry)) }
{
    match place {
        None => push_texts(text, &["none\n"]),
        Some((file, number)) => push_source(alloc, text, text_of(texts, file), number),
    }
}

/// The answer to `line`: the lines of the source around that of the instruction at PC.
pub(crate) fn answer_line(
    alloc: Global,
    program: &Program<'_>,
    board: &PromptBoard,
) -> Result<String, NoMemory>
    ensures { IfOk result (λ text. AreLinesThere (program_view program.entry.now) (state board.entry.now) (string_bytes text)) }
{
    let mut text = String::new(alloc);
    let place = place_at_pc(program.image, board);
    push_place(alloc, &mut text, program.texts, place)?;
    Ok(text)
}
