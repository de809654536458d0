//! Why a line of a debugger's script is refused.

ghost use Rattle.std.specs.Prelude.{◌≡◌, [], ◌∷◌, IfOk, is_some, map};
ghost use Rattle.c25_meaning_common.specs.Digits.{decimal_of, hexadecimal_of};
ghost use Rattle.c25_meaning_common.specs.Items.{line_words};
ghost use Rattle.c25_file_hints.specs.Items.{command_cause, command_parts_cause, memory_cause, shows_words, stands_alone, takes_address, takes_count};

use crate::cause::Cause;
use crate::comments::or_comment;
use crate::words::line_words;
use c25_texts::{decimal_of, hexadecimal_of, is_word};
use std::alloc::{AllocError, Global};

/// Whether a part of a line is the name of a command that stands alone.
#[tactic(auto, unfolding(crate::specs::Items::stands_alone))]
fn stands_alone(part: &[u8]) -> bool
    ensures { result ≡ stands_alone part.now }
{
    is_word(part, "regs")
        || is_word(part, "stack")
        || is_word(part, "where")
        || is_word(part, "symbols")
}

/// Whether a part of a line is the name of a command that takes a count.
#[tactic(auto, unfolding(crate::specs::Items::takes_count))]
fn takes_count(part: &[u8]) -> bool
    ensures { result ≡ takes_count part.now }
{
    is_word(part, "step") || is_word(part, "run") || is_word(part, "list")
}

/// Whether a part of a line is the name of a command that takes an address.
#[tactic(auto, unfolding(crate::specs::Items::takes_address))]
fn takes_address(part: &[u8]) -> bool
    ensures { result ≡ takes_address part.now }
{
    is_word(part, "break") || is_word(part, "clear")
}

/// Whether a part of a line is the name of a command that shows words of the memory.
#[tactic(auto, unfolding(crate::specs::Items::shows_words))]
fn shows_words(part: &[u8]) -> bool
    ensures { result ≡ shows_words part.now }
{
    is_word(part, "data") || is_word(part, "prog")
}

/// Whether a part of a line is a count.
fn is_count(part: &[u8]) -> bool
    ensures { result ≡ is_some (decimal_of 4294967295 part.now) }
{
    decimal_of(u32::MAX, part).is_some()
}

/// Whether a part of a line is an address.
fn is_address(part: &[u8]) -> bool
    ensures { result ≡ is_some (hexadecimal_of 1 part.now) }
{
    hexadecimal_of(1, part).is_some()
}

/// Why an address and a count are refused.
fn words_cause(address: &[u8], count: &[u8]) -> Cause
    ensures { result ≡ memory_cause (address.now ∷ count.now ∷ []) }
{
    if !is_address(address) {
        Cause::MemoryAddress
    } else if !is_count(count) {
        Cause::MemoryCount
    } else {
        Cause::PastMemory
    }
}

/// Why what stands after `data` or `prog` is refused.
fn memory_cause(parts: &[&[u8]]) -> Cause
    ensures { result ≡ memory_cause (map (λ w. w.now) parts.now) }
{
    match parts {
        [address, count] => words_cause(address, count),
        _ => Cause::MemoryParts,
    }
}

/// Why a line of a name and what stands after it is refused.
fn named_cause(name: &[u8], parts: &[&[u8]]) -> Cause
    ensures { result ≡ command_parts_cause (name.now ∷ map (λ w. w.now) parts.now) }
{
    if stands_alone(name) {
        Cause::Alone
    } else if takes_count(name) {
        Cause::Count
    } else if takes_address(name) {
        Cause::Address
    } else if shows_words(name) {
        memory_cause(parts)
    } else {
        Cause::Command
    }
}

/// Why parts are refused, comments aside.
fn parts_cause(parts: &[&[u8]]) -> Cause
    ensures { result ≡ command_parts_cause (map (λ w. w.now) parts.now) }
{
    match parts.split_first() {
        Some((name, parts)) => named_cause(name, parts),
        None => Cause::Command,
    }
}

/// Why a line of a script is refused that is neither blank nor a command. `AllocError` where memory runs out.
pub fn command_cause(alloc: Global, line: &str) -> Result<Cause, AllocError>
    ensures { IfOk result (λ cause. cause ≡ command_cause (line_words line.now)) }
{
    let words = line_words(alloc, line.as_bytes())?;
    let words = words.as_slice();
    Ok(or_comment(words, parts_cause(words)))
}
