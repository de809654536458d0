//! A command file with another address of `.bss`.

ghost use Rattle.std.specs.Prelude.{◌≡◌, ◌++◌, IfOk, IfSome, string_bytes, true};
ghost use Rattle.c25_moving.specs.BssPlace as meaning;

use crate::bss_given::{Given, given_by};
use c25_meaning_common::no_memory::NoMemory;
use c25_texts::digits::four;
use std::alloc::Global;

/// The name of the section.
const NAME: &str = ".bss";

/// The value of a number of a command file, if the word is one.
fn value_of(word: &str) -> Option<u32> {
    let hexadecimal = word
        .strip_prefix("0x")
        .or_else(|| word.strip_prefix("0X"))
        .or_else(|| word.strip_suffix('h'))
        .or_else(|| word.strip_suffix('H'));
    match hexadecimal {
        Some(digits) => u32::from_str_radix(digits, 16).ok(),
        None => word.parse::<u32>().ok(),
    }
}

/// Whether a character stands between the words of a command file.
fn is_between(character: char) -> bool {
    character.is_whitespace() || "{}():,=>*/\"".contains(character)
}

/// The first word of a text that is a number of this value.
fn word_of(text: &str, value: u32) -> Option<&str> {
    for word in text.split(is_between) {
        if value_of(word) == Some(value) {
            return Some(word);
        }
    }
    None
}

/// A text after another one, with a word in place of the first number of this value.
fn with_word(
    alloc: Global,
    front: &str,
    text: &str,
    value: u32,
    word: &str,
) -> Result<Option<String>, NoMemory>
    ensures { IfOk result (λ o. IfSome o (λ new. meaning.IsReplaced (front.now ++ text.now) (string_bytes new) word.now)) }
{
    let Some(was) = word_of(text, value) else {
        return Ok(None);
    };
    match text.split_once(was) {
        Some((before, after)) => Ok(Some(format!(in alloc; "{front}{before}{word}{after}")?)),
        None => Ok(None),
    }
}

/// What stands in a text before the first place of another one, and what follows that.
fn cut<'a>(text: &'a str, other: &str) -> Option<(&'a str, &'a str)>
    ensures { IfSome result (λ p. text.entry.now ≡ p.0.now ++ (other.now ++ p.1.now)) }
{
    text.split_once(other)
}

/// A command file with a word in place of the address of `.bss`: of the first number of this value after the first `.bss`
/// directly before a colon; none where there is none.
#[tactic(auto, using(crate::proofs::BssTexts::passed))]
fn replaced(alloc: Global, text: &str, value: u32, word: &str) -> Result<Option<String>, NoMemory>
    ensures { IfOk result (λ o. IfSome o (λ new. meaning.IsReplaced text.now (string_bytes new) word.now)) }
{
    let mut front = String::new(alloc);
    let mut rest = text;
    for _ in 0..text.len() {
        let Some((before, after)) = cut(rest, NAME) else {
            return Ok(None);
        };
        front.push_str(before)?;
        front.push_str(NAME)?;
        rest = after;
        if rest.trim_start().starts_with(':') {
            return with_word(alloc, front.as_str(), rest, value, word);
        }
    }
    Ok(None)
}

/// An address in hexadecimal, as a command file has it.
fn address_text(alloc: Global, address: u16) -> Result<String, NoMemory>
    ensures { IfOk result (λ text. string_bytes text ≡ meaning.address_text address) }
{
    let digits = four(address);
    Ok(format!(in alloc; "{}{}", "0x", digits.as_str())?)
}

/// Whether two addresses, with their pages, are one.
#[tactic(auto, using(crate::proofs::BssGiven::given_same))]
fn is_same(one: Given, other: Given) -> bool
    ensures { result ≡ true → one ≡ other }
{
    one.address == other.address && one.page == other.page
}

/// Whether the command of a text gives `.bss` an address.
#[tactic(auto, using(crate::proofs::BssGiven::gives_same))]
fn gives(alloc: Global, text: &str, given: Given) -> Result<bool, NoMemory>
    ensures { IfOk result (λ b. b ≡ true → meaning.Gives text.now given) }
{
    match given_by(alloc, text) {
        Ok(Some(found)) => Ok(is_same(found, given)),
        Ok(None) => Ok(false),
        Err(error) => Err(error),
    }
}

/// A command file with another address of `.bss` in place of the one that it gives; none where that cannot be made by
/// replacing one word, as where a comment has the number first.
pub(crate) fn with_address(
    alloc: Global,
    text: &str,
    given: Given,
    address: u16,
) -> Result<Option<String>, NoMemory>
    ensures { IfOk result (λ o. IfSome o (λ new. meaning.IsMoved text.now (string_bytes new) given address)) }
{
    let word = address_text(alloc, address)?;
    let Some(new) = replaced(alloc, text, given.address, word.as_str())? else {
        return Ok(None);
    };
    let moved = Given {
        address: u32::from(address),
        page: given.page,
    };
    if gives(alloc, new.as_str(), moved)? {
        Ok(Some(new))
    } else {
        Ok(None)
    }
}
