//! Commands that show where a board stands, and the image that it runs.

ghost use Rattle.std.specs.Prelude.{◌≡◌, ◌≤◌, ◌+◌, false, IfOk, string_bytes};
ghost use Rattle.c25_board.specs.Board.{state};
ghost use Rattle.c25_meaning_debugger.specs.Debugger.{IsWhereBy, data_word, program_word, source_line_at};
ghost use Rattle.c25_meaning_debugger.specs.Texts.{AreLinesOf, IsWhere, marks_from, regs_text, stack_text, symbols_text, words_text};
ghost use Rattle.c25_meaning_image.specs.Marks as marks;
ghost use Rattle.c25_meaning_processor.specs.Status.{regs_of};
ghost use Rattle.c25_meaning_processor.specs.WordStep.{mark_found};

use crate::answers::{
    push_instruction, push_instructions, push_line, push_registers, push_stack, push_words,
};
use crate::memories::{DataMemory, ProgramMemory};
use crate::steps::{Answer, shown};
use c25_board::board::Board;
use c25_board::ports::{Feed, Sink};
use c25_link::Image;
use c25_map::push_symbols;
use c25_meaning_common::no_memory::NoMemory;
use c25_meaning_image::marks::size_at;
use std::alloc::Global;

/// The answer to `regs`: the registers.
pub fn show_registers<F: Feed + Drop, S: Sink + Drop>(
    alloc: Global,
    board: &Board<F, S>,
) -> Result<Answer, NoMemory>
    ensures text { IfOk result (λ answer. string_bytes answer.text ≡ regs_text (regs_of (state board.now).registers)) }
    ensures refused { IfOk result (λ answer. answer.is_refused ≡ false) }
{
    let mut text = String::new(alloc);
    push_registers(&mut text, &board.regs())?;
    Ok(shown(text))
}

/// The answer to `stack`: the hardware stack.
pub fn show_stack<F: Feed + Drop, S: Sink + Drop>(
    alloc: Global,
    board: &Board<F, S>,
) -> Result<Answer, NoMemory>
    ensures text { IfOk result (λ answer. string_bytes answer.text ≡ stack_text (regs_of (state board.now).registers)) }
    ensures refused { IfOk result (λ answer. answer.is_refused ≡ false) }
{
    let mut text = String::new(alloc);
    push_stack(&mut text, &board.regs())?;
    Ok(shown(text))
}

/// The answer to `data`: words of data memory, as the processor reads them.
pub fn show_data<F: Feed + Drop, S: Sink + Drop>(
    alloc: Global,
    board: &Board<F, S>,
    address: u16,
    count: u32,
) -> Result<Answer, NoMemory>
    requires { address + count ≤ 65536 }
    ensures text { IfOk result (λ answer. string_bytes answer.text ≡ words_text (data_word (state board.now)) address count) }
    ensures refused { IfOk result (λ answer. answer.is_refused ≡ false) }
{
    let mut text = String::new(alloc);
    push_words(&mut text, &DataMemory { board }, address, count)?;
    Ok(shown(text))
}

/// The answer to `prog`: words of program memory, as the processor reads them.
pub fn show_program<F: Feed + Drop, S: Sink + Drop>(
    alloc: Global,
    board: &Board<F, S>,
    address: u16,
    count: u32,
) -> Result<Answer, NoMemory>
    requires { address + count ≤ 65536 }
    ensures text { IfOk result (λ answer. string_bytes answer.text ≡ words_text (program_word (state board.now)) address count) }
    ensures refused { IfOk result (λ answer. answer.is_refused ≡ false) }
{
    let mut text = String::new(alloc);
    push_words(&mut text, &ProgramMemory { board }, address, count)?;
    Ok(shown(text))
}

/// The line of the image's instruction at an address, which has `none` where no instruction starts there.
fn show_mark(alloc: Global, image: &Image, address: u16) -> Result<Answer, NoMemory>
    ensures text { IfOk result (λ answer. IsWhere image.now.program (source_line_at image.now) address (marks.size_at image.now.marks address) (string_bytes answer.text)) }
    ensures refused { IfOk result (λ answer. answer.is_refused ≡ false) }
{
    let mut text = String::new(alloc);
    let size = size_at(image.marks(), address);
    push_instruction(alloc, &mut text, image, address, size)?;
    Ok(shown(text))
}

/// The answer to `where`: the instruction that is fetched at PC from block B0, if there is one, otherwise the
/// image's instruction at PC. Where that of block B0 stands in the sources is looked up by the address where
/// it is loaded.
pub fn show_place<F: Feed + Drop, S: Sink + Drop>(
    alloc: Global,
    image: &Image,
    board: &Board<F, S>,
) -> Result<Answer, NoMemory>
    ensures text { IfOk result (λ answer. IsWhereBy image.now (state board.now)
        (mark_found (state board.now).registers.cnf (state board.now).world (state board.now).registers.pc) (string_bytes answer.text)) }
    ensures refused { IfOk result (λ answer. answer.is_refused ≡ false) }
{
    let address = board.pc();
    match board.run_mark() {
        Some(mark) => match board.copied(&mark) {
            Some(insn) => {
                let mut text = String::new(alloc);
                let source = image.line_of(mark.load);
                push_line(alloc, &mut text, address, &Some(insn), source)?;
                Ok(shown(text))
            }
            None => show_mark(alloc, image, address),
        },
        None => show_mark(alloc, image, address),
    }
}

/// The answer to `list`: the first `count` instructions of the image at an address or after it.
pub fn show_list(alloc: Global, image: &Image, address: u16, count: u32) -> Result<Answer, NoMemory>
    ensures text { IfOk result (λ answer. AreLinesOf image.now.program (source_line_at image.now) (marks_from image.now.marks address count) (string_bytes answer.text)) }
    ensures refused { IfOk result (λ answer. answer.is_refused ≡ false) }
{
    let mut text = String::new(alloc);
    push_instructions(alloc, &mut text, image, address, count)?;
    Ok(shown(text))
}

/// The answer to `symbols`: a line for each symbol of the image.
pub fn show_symbols(alloc: Global, image: &Image) -> Result<Answer, NoMemory>
    ensures text { IfOk result (λ answer. string_bytes answer.text ≡ symbols_text image.now.described.symbols) }
    ensures refused { IfOk result (λ answer. answer.is_refused ≡ false) }
{
    let mut text = String::new(alloc);
    push_symbols(&mut text, image.symbols())?;
    Ok(shown(text))
}
