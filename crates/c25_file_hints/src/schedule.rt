//! Why a line of a schedule is refused.

ghost use Rattle.std.specs.Prelude.{◌≡◌, IfOk, is_some, map};
ghost use Rattle.c25_meaning_common.specs.Digits.{decimal_of};
ghost use Rattle.c25_meaning_common.specs.Items.{line_words};
ghost use Rattle.c25_meaning_processor.specs.Schedule.{event_of};
ghost use Rattle.c25_file_hints.specs.Items.{entry_cause, entry_parts_cause, pair_cause};

use crate::cause::Cause;
use crate::comments::or_comment;
use crate::words::line_words;
use c25_texts::{decimal_of, is_word};
use std::alloc::{AllocError, Global};

/// Whether a part of a line is a step.
fn is_step(word: &[u8]) -> bool
    ensures { result ≡ is_some (decimal_of 4294967295 word.now) }
{
    decimal_of(u32::MAX, word).is_some()
}

/// Whether a part of a line is the name of an event.
#[tactic(auto, unfolding(c25_meaning_processor::specs::Schedule::event_of))]
fn is_event(word: &[u8]) -> bool
    ensures { result ≡ is_some (event_of word.now) }
{
    is_word(word, "int0")
        || is_word(word, "int1")
        || is_word(word, "int2")
        || is_word(word, "bio0")
        || is_word(word, "bio1")
}

/// Why two parts are refused.
fn pair_cause(step: &[u8], event: &[u8]) -> Cause
    ensures { result ≡ pair_cause step.now event.now }
{
    if !is_step(step) {
        Cause::Step
    } else if !is_event(event) {
        Cause::Event
    } else {
        Cause::Order
    }
}

/// Why parts are refused after the lines before them, comments aside.
fn parts_cause(words: &[&[u8]]) -> Cause
    ensures { result ≡ entry_parts_cause (map (λ w. w.now) words.now) }
{
    match words {
        [step, event] => pair_cause(step, event),
        _ => Cause::EntryParts,
    }
}

/// Why a line of a schedule is refused that is not blank and is no entry after the lines before it.
/// `AllocError` where memory runs out.
pub fn entry_cause(alloc: Global, line: &str) -> Result<Cause, AllocError>
    ensures { IfOk result (λ cause. cause ≡ entry_cause (line_words line.now)) }
{
    let words = line_words(alloc, line.as_bytes())?;
    let words = words.as_slice();
    Ok(or_comment(words, parts_cause(words)))
}
