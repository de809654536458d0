//! Words of a memory, in lines of eight.

ghost use Rattle.std.specs.Prelude.{◌≡◌, ◌+◌, ◌≤◌, ◌<◌, ◌++◌, OnOk, string_bytes};
ghost use Rattle.c25_meaning_debugger.specs.Texts.{spaced, words_from, words_line, words_text};

use crate::answers::digits::{push_named, push_text, push_word};
use crate::answers::memory::Memory;
use c25_meaning_common::no_memory::NoMemory;
use std::alloc::Global;

/// How many words a line has at most.
const LINE_WORDS: u32 = 8;

/// Appends so many words from an address on, a blank before each.
fn push_row<M: Memory>(
    text: &mut String,
    memory: &M,
    address: u32,
    count: u32,
) -> Result<(), NoMemory>
    requires { address + count ≤ 65536 }
    ensures { OnOk result (string_bytes text.new ≡ string_bytes text.old ++ spaced (words_from (M.word_at memory.now) address count)) }
{
    for index in 0..count {
        push_named(text, " ", memory.word((address + index) as u16))?;
    }
    Ok(())
}

/// Appends the line of so many words.
fn push_line<M: Memory>(
    text: &mut String,
    memory: &M,
    address: u32,
    count: u32,
) -> Result<(), NoMemory>
    requires starts { address < 65536 }
    requires within { address + count ≤ 65536 }
    ensures { OnOk result (string_bytes text.new ≡ string_bytes text.old ++ words_line (M.word_at memory.now) address count) }
{
    push_word(text, address as u16)?;
    push_row(text, memory, address, count)?;
    push_text(text, "\n")
}

/// Appends so many words from an address on, in lines of eight, the last line having what is left. Each line
/// begins with the address of its first word. No words give no line.
#[tactic(auto, unfolding(c25_meaning_debugger::specs::Texts::words_text))]
pub(crate) fn push_words<M: Memory>(
    text: &mut String,
    memory: &M,
    address: u16,
    count: u32,
) -> Result<(), NoMemory>
    requires { address + count ≤ 65536 }
    ensures { OnOk result (string_bytes text.new ≡ string_bytes text.old ++ words_text (M.word_at memory.now) address count) }
{
    for line in 0..count.div_ceil(LINE_WORDS) {
        let passed = LINE_WORDS * line;
        let left = LINE_WORDS.min(count - passed);
        push_line(text, memory, u32::from(address) + passed, left)?;
    }
    Ok(())
}
