//! Constants of floating point.

use crate::around::LongOrder;
use crate::constants::hexadecimal;
use c25_meaning_common::no_memory::NoMemory;
use std::alloc::Global;

/// The bits of a number of single precision, unless it is infinite or none.
fn finite_bits(number: f32) -> Option<u32> {
    if number.is_nan() || number.is_infinite() {
        return None;
    }
    Some(number.to_bits())
}

/// The bits of a decimal number as an IEEE number of single precision, if a text is one.
fn bits_of(text: &str) -> Option<u32> {
    let first = *text.as_bytes().first()?;
    if !(first.is_ascii_digit() || first == b'-' || first == b'+' || first == b'.') {
        return None;
    }
    match text.parse::<f32>() {
        Ok(number) => finite_bits(number),
        Err(_) => None,
    }
}

/// A word as a constant.
fn constant(alloc: Global, word: u32) -> Result<String, NoMemory> {
    let digits = format!(in alloc; "{word:04X}")?;
    hexadecimal(alloc, digits.as_str())
}

/// The two words of a number of 32 bits.
fn words_of(alloc: Global, order: Option<LongOrder>, bits: u32) -> Result<String, NoMemory> {
    let high = constant(alloc, bits >> 16)?;
    let low = constant(alloc, bits & 0xFFFF)?;
    if order == Some(LongOrder::High) {
        Ok(format!(in alloc; "{high},{low}")?)
    } else {
        Ok(format!(in alloc; "{low},{high}")?)
    }
}

/// The words of decimal numbers, as IEEE numbers of single precision; none where one is no decimal number.
pub(crate) fn float_words(
    alloc: Global,
    order: Option<LongOrder>,
    values: &str,
) -> Result<Option<String>, NoMemory> {
    let mut words = String::new(alloc);
    for value in values.split(',') {
        let Some(bits) = bits_of(value.trim()) else {
            return Ok(None);
        };
        if !words.is_empty() {
            words.push(',')?;
        }
        words.push_str(words_of(alloc, order, bits)?.as_str())?;
    }
    Ok(Some(words))
}
