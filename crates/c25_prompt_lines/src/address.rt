//! Addresses at the prompt: numbers, names and lines of sources.

ghost use Rattle.std.specs.Prelude.{◌≡◌, ◌==◌, ◌<◌, IfSome, count_by, find, length, option_map, position, Some};
ghost use Rattle.c25_meaning_common.specs.Digits.{decimal_of};
ghost use Rattle.c25_prompt_lines.specs.Addresses.{added, address_of, cut_at, in_file, is_named, is_of, line_address, named, only_named, program_view, run_address, stands_at, sum_of, symbol_address};
ghost use Rattle.c25_symbols.specs.View.{entries_view, entry_view};

use crate::command::Wrong;
use crate::program::Program;
use c25_link::Image;
use c25_symbols::entries::SymbolEntry;
use c25_texts::{decimal_of, hexadecimal_of};

/// Whether a symbol has this name.
fn is_named(symbol: &SymbolEntry<'_>, name: &[u8]) -> bool
    ensures { result ≡ is_named name.now (entry_view symbol.now) }
{
    symbol.name.as_bytes() == name
}

/// Whether a symbol has this name and is of a module with this source.
fn is_of(symbol: &SymbolEntry<'_>, source: &[u8], name: &[u8]) -> bool
    ensures { result ≡ is_of source.now name.now (entry_view symbol.now) }
{
    symbol.source.as_bytes() == source && symbol.name.as_bytes() == name
}

/// The first symbol of this name.
fn find_named<'a, 'b>(symbols: &'b [SymbolEntry<'a>], name: &[u8]) -> Option<&'b SymbolEntry<'a>>
    ensures { option_map (λ y. entry_view y.now) result ≡ find (is_named name.entry.now) (entries_view symbols.entry.now) }
{
    symbols.iter().find(|symbol| is_named(symbol, name))
}

/// The first symbol of this name whose module has this source.
fn find_of<'a, 'b>(
    symbols: &'b [SymbolEntry<'a>],
    source: &[u8],
    name: &[u8],
) -> Option<&'b SymbolEntry<'a>>
    ensures { option_map (λ y. entry_view y.now) result ≡ find (is_of source.entry.now name.entry.now) (entries_view symbols.entry.now) }
{
    symbols.iter().find(|symbol| is_of(symbol, source, name))
}

/// How many symbols have this name.
fn count_named(symbols: &[SymbolEntry<'_>], name: &[u8]) -> usize
    ensures { result ≡ count_by (is_named name.now) (entries_view symbols.now) }
{
    symbols
        .iter()
        .filter(|symbol| is_named(symbol, name))
        .count()
}

/// The address that a symbol's value is. `NoName` without a symbol, and `TooFar` where the value is above
/// FFFFh.
fn symbol_address(symbol: Option<&SymbolEntry<'_>>) -> Result<u16, Wrong>
    ensures { result ≡ symbol_address (option_map (λ y. entry_view y.now) symbol.entry) }
{
    match symbol {
        None => Err(Wrong::NoName),
        Some(symbol) => {
            if symbol.value < 65_536 {
                Ok(symbol.value as u16)
            } else {
                Err(Wrong::TooFar)
            }
        }
    }
}

/// The address of the only symbol of a name. `SeveralNames` where there are more.
fn only_named(symbols: &[SymbolEntry<'_>], name: &[u8]) -> Result<u16, Wrong>
    ensures { result ≡ only_named (entries_view symbols.now) name.now }
{
    if 1 < count_named(symbols, name) {
        return Err(Wrong::SeveralNames);
    }
    symbol_address(find_named(symbols, name))
}

/// The address of a name of a source, or else of the only symbol of the name.
fn named_in(symbols: &[SymbolEntry<'_>], source: &str, name: &[u8]) -> Result<u16, Wrong>
    ensures { result ≡ named (entries_view symbols.now) (Some source.now) name.now }
{
    match find_of(symbols, source.as_bytes(), name) {
        None => only_named(symbols, name),
        Some(symbol) => symbol_address(Some(symbol)),
    }
}

/// The address of a name: of the current source, if there is one and it has this name.
pub(crate) fn named(
    symbols: &[SymbolEntry<'_>],
    here: Option<&str>,
    name: &[u8],
) -> Result<u16, Wrong>
    ensures { result ≡ named (entries_view symbols.entry.now) (option_map (λ s. s.now) here.entry) name.entry.now }
{
    match here {
        None => only_named(symbols, name),
        Some(source) => named_in(symbols, source, name),
    }
}

/// Whether the instruction that is loaded at an address stands at a line of a file.
fn stands_at(image: &Image, file: &[u8], line: u32, address: u16) -> bool
    ensures { result ≡ stands_at image.now file.now line address }
{
    match image.line_of(address) {
        None => false,
        Some((name, number)) => name.as_bytes() == file && number == line,
    }
}

/// The address where the first instruction of a line that is in block B0 runs.
fn copied_address(image: &Image, file: &[u8], line: u32) -> Result<u16, Wrong>
    ensures { result ≡ run_address (find (λ m. stands_at image.now file.now line m.load) image.now.run_marks) }
{
    match image
        .run_marks()
        .iter()
        .find(|mark| stands_at(image, file, line, mark.load))
    {
        None => Err(Wrong::NoLine),
        Some(mark) => Ok(mark.run),
    }
}

/// The address where the first instruction of a line runs. `NoLine` where no instruction stands there.
fn line_address(image: &Image, file: &[u8], line: u32) -> Result<u16, Wrong>
    ensures { result ≡ line_address image.now file.now line }
{
    match image
        .marks()
        .iter()
        .find(|mark| stands_at(image, file, line, mark.address))
    {
        None => copied_address(image, file, line),
        Some(mark) => Ok(mark.address),
    }
}

/// Where a byte first stands in a text.
fn place_of(byte: u8, text: &[u8]) -> Option<usize>
    ensures place { result ≡ position (λ b. b == byte) text.now }
    ensures within { IfSome result (λ place. place < length text.now) }
{
    text.iter().position(|b| *b == byte)
}

/// The text before the first of a byte, and the text after it.
fn cut_at(byte: u8, text: &[u8]) -> Option<(&[u8], &[u8])>
    ensures { option_map (λ parts. (parts.0.now, parts.1.now)) result ≡ cut_at byte text.now }
{
    match place_of(byte, text) {
        None => None,
        Some(place) => Some((&text[..place], &text[place + 1..])),
    }
}

/// The address of a line of a file, or of a name of a source.
fn line_or_name(program: &Program<'_>, file: &[u8], what: &[u8]) -> Result<u16, Wrong>
    ensures { result ≡ in_file (program_view program.now) file.now what.now }
{
    match decimal_of(u32::MAX, what) {
        None => symbol_address(find_of(program.symbols, file, what)),
        Some(line) => line_address(program.image, file, line),
    }
}

/// An address and the number of words that are added to it.
fn added(address: u16, words: &[u8]) -> Result<u16, Wrong>
    ensures { result ≡ added (decimal_of 4294967295 words.now) address }
{
    match decimal_of(u32::MAX, words) {
        None => Err(Wrong::Count),
        Some(words) => {
            let sum = u64::from(address) + u64::from(words);
            if sum < 65_536 {
                Ok(sum as u16)
            } else {
                Err(Wrong::TooFar)
            }
        }
    }
}

/// The address of a line or a name of a file, with so many words added where `+` is written.
fn place_in(program: &Program<'_>, file: &[u8], text: &[u8]) -> Result<u16, Wrong>
    ensures { result ≡ sum_of (in_file (program_view program.now) file.now) text.now (cut_at 43 text.now) }
{
    match cut_at(b'+', text) {
        None => line_or_name(program, file, text),
        Some((base, words)) => added(line_or_name(program, file, base)?, words),
    }
}

/// The address of a name, with so many words added where `+` is written.
fn place_named(program: &Program<'_>, here: Option<&str>, text: &[u8]) -> Result<u16, Wrong>
    ensures { result ≡ sum_of (named (entries_view program.entry.now.symbols.now) (option_map (λ s. s.now) here.entry)) text.entry.now (cut_at 43 text.entry.now) }
{
    match cut_at(b'+', text) {
        None => named(program.symbols, here, text),
        Some((base, words)) => added(named(program.symbols, here, base)?, words),
    }
}

/// The address that a text is: a number as in a script, `NAME`, `SOURCE:NAME` or `FILE:LINE`, the last three
/// with so many words added where `+` is written. A name alone is that of the source `here`, if it has it,
/// otherwise that of the only source that has it.
pub fn address_of(program: &Program<'_>, here: Option<&str>, text: &[u8]) -> Result<u16, Wrong>
    ensures { result ≡ address_of (program_view program.entry.now) (option_map (λ s. s.now) here.entry) text.entry.now }
{
    if let Some(address) = hexadecimal_of(1, text) {
        return Ok(address);
    }
    match cut_at(b':', text) {
        None => place_named(program, here, text),
        Some((file, what)) => place_in(program, file, what),
    }
}
