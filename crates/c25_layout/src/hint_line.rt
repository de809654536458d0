//! The hint of a line.

ghost use Rattle.std.specs.Prelude.{◌≡◌, IfOk, map, option_and_then, option_map, string_bytes};
ghost use Rattle.c25_layout.specs.Hints.{address_hint, counted_hint, hint_at, hint_data, hint_said, label_hint, label_of, lie_in_memory, long_hint, may_be_label, name_of, run_in_b0, text_of, table_lies_in_memory, three_hint, two_hint, words_hint};

use crate::hint::Hint;
use c25_expr::symbols::is_predefined;
use c25_meaning_common::bytes::begins_name;
use c25_meaning_common::no_memory::NoMemory;
use c25_meaning_common::runs::all_go_on_name;
use c25_texts::{hexadecimal_of, is_word};
use std::alloc::Global;

/// The most bytes of a name.
const LONGEST_NAME: usize = 128;

/// Whether there are words, and all of them lie in the memory.
fn lie_in_memory(address: u16, count: u16) -> bool
    ensures { result ≡ lie_in_memory address count }
{
    count >= 1 && u32::from(address) + u32::from(count) <= 65_536
}

/// Whether there are words of a table, so far apart, and all of them lie in the memory.
fn table_lies_in_memory(address: u16, count: u16, step: u16) -> bool
    ensures { result ≡ table_lies_in_memory address count step }
{
    if count < 1 || step < 1 {
        return false;
    }
    let reach = u64::from(count - 1) * u64::from(step);
    u64::from(address) + reach < 65_536
}

/// Whether so many words may run at an address of block B0.
fn run_in_b0(run: u16, count: u16) -> bool
    ensures { result ≡ run_in_b0 run count }
{
    run >= 0xFF00 && u32::from(run) + u32::from(count) <= 65_536
}

/// The hint of a word and an address.
#[tactic(auto, unfolding(crate::specs::Hints::address_hint))]
fn address_hint(word: &[u8], address: u16) -> Option<Hint<String>>
    ensures { option_map hint_data result ≡ address_hint word.now address }
{
    if is_word(word, "code") {
        Some(Hint::Code { address })
    } else if is_word(word, "ref") {
        Some(Hint::Reference { address })
    } else if is_word(word, "noref") {
        Some(Hint::Number { address })
    } else if is_word(word, "noreturn") {
        Some(Hint::NoReturn { address })
    } else {
        None
    }
}

/// The hint of a word, an address and a count of words.
#[tactic(auto, unfolding(crate::specs::Hints::words_hint))]
fn words_hint(word: &[u8], address: u16, count: u16) -> Option<Hint<String>>
    ensures { option_map hint_data result ≡ words_hint word.now address count }
{
    if is_word(word, "data") && lie_in_memory(address, count) {
        Some(Hint::Data { address, count })
    } else if is_word(word, "table") && table_lies_in_memory(address, count, 1) {
        Some(Hint::Table {
            address,
            count,
            step: 1,
        })
    } else {
        None
    }
}

/// The hint of a word, an address, a count of words and one more number.
#[tactic(auto, unfolding(crate::specs::Hints::long_hint))]
fn long_hint(word: &[u8], address: u16, count: u16, last: u16) -> Option<Hint<String>>
    ensures { option_map hint_data result ≡ long_hint word.now address count last }
{
    if is_word(word, "table") && table_lies_in_memory(address, count, last) {
        Some(Hint::Table {
            address,
            count,
            step: last,
        })
    } else if is_word(word, "run") && lie_in_memory(address, count) && run_in_b0(last, count) {
        Some(Hint::Run {
            address,
            count,
            run: last,
        })
    } else {
        None
    }
}

/// The text that bytes are, if they are UTF-8.
fn text_of(bytes: &[u8]) -> Option<&str>
    ensures { option_map (λ text. text.now) result ≡ text_of bytes.now }
{
    match str::from_utf8(bytes) {
        Ok(text) => Some(text),
        Err(_) => None,
    }
}

/// The name that a field is, as a text.
fn name_in(word: &[u8]) -> Option<&str>
    ensures { option_map (λ name. name.now) result ≡ name_of word.now }
{
    let [first, rest @ ..] = word else {
        return None;
    };
    if !begins_name(*first) || !all_go_on_name(rest) {
        return None;
    }
    text_of(word)
}

/// Whether a name may be a label: it is not too long, and is no register's and no port's.
fn may_be_label(name: &str) -> bool
    ensures { result ≡ may_be_label name.now }
{
    name.len() <= LONGEST_NAME && !is_predefined(name)
}

/// The name that a field is, if it may be a label.
fn label_in(word: &[u8]) -> Option<&str>
    ensures { option_map (λ name. name.now) result ≡ option_and_then label_of (name_of word.now) }
{
    match name_in(word) {
        None => None,
        Some(name) => { if may_be_label(name) { Some(name) } else { None } }
    }
}

/// The hint of a name for an address.
#[tactic(auto, unfolding(crate::specs::Hints::label_hint))]
fn label_hint(alloc: Global, address: u16, word: &[u8]) -> Result<Option<Hint<String>>, NoMemory>
    ensures { IfOk result (λ found. option_map hint_data found ≡ label_hint address word.now) }
{
    match label_in(word) {
        None => Ok(None),
        Some(name) => {
            let name = String::from_str(alloc, name)?;
            Ok(Some(Hint::Label { address, name }))
        }
    }
}

/// The hint of a word, an address and a count.
fn counted_hint(word: &[u8], address: u16, count: &[u8]) -> Option<Hint<String>>
    ensures { option_map hint_data result ≡ counted_hint word.now address count.now }
{
    words_hint(word, address, hexadecimal_of(1, count)?)
}

/// The hint of a word, an address, and a name or a count.
#[tactic(auto, unfolding(crate::specs::Hints::two_hint))]
fn two_hint(
    alloc: Global,
    word: &[u8],
    address: u16,
    second: &[u8],
) -> Result<Option<Hint<String>>, NoMemory>
    ensures { IfOk result (λ found. option_map hint_data found ≡ two_hint word.now address second.now) }
{
    if is_word(word, "label") {
        label_hint(alloc, address, second)
    } else {
        Ok(counted_hint(word, address, second))
    }
}

/// The hint of a word, an address and two more numbers.
fn three_hint(word: &[u8], address: u16, count: &[u8], last: &[u8]) -> Option<Hint<String>>
    ensures { option_map hint_data result ≡ three_hint word.now address count.now last.now }
{
    long_hint(
        word,
        address,
        hexadecimal_of(1, count)?,
        hexadecimal_of(1, last)?,
    )
}

/// The hint of a word, an address and the fields after them.
fn hint_at(
    alloc: Global,
    word: &[u8],
    address: u16,
    rest: &[&[u8]],
) -> Result<Option<Hint<String>>, NoMemory>
    ensures { IfOk result (λ found. option_map hint_data found ≡ hint_at word.now address (map (λ w. w.now) rest.now)) }
{
    match rest {
        [] => Ok(address_hint(word, address)),
        [second] => two_hint(alloc, word, address, second),
        [count, last] => Ok(three_hint(word, address, count, last)),
        _ => Ok(None),
    }
}

/// The hint of the fields of a line, if they are one by themselves.
pub(crate) fn hint_said(alloc: Global, fields: &[&[u8]]) -> Result<Option<Hint<String>>, NoMemory>
    ensures { IfOk result (λ found. option_map hint_data found ≡ hint_said (map (λ w. w.now) fields.now)) }
{
    let [word, address, rest @ ..] = fields else {
        return Ok(None);
    };
    match hexadecimal_of(1, address) {
        None => Ok(None),
        Some(address) => hint_at(alloc, word, address, rest),
    }
}
