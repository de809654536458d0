//! The text that the bytes of an old file stand for.

ghost use Rattle.std.specs.Prelude.{◌≡◌, ◌-◌, ◌≤◌, ◌++◌, IfOk, OnOk, encode_utf8, slice_index, string_bytes};
ghost use Rattle.c25_move.specs.Bytes as meaning;

use crate::code_page::CodePage;
use c25_meaning_common::no_memory::NoMemory;
use std::alloc::Global;

/// The characters of the bytes 80h to FFh in code page 437.
static CODE_PAGE_437: [char; 128] = [
    'Ç', 'ü', 'é', 'â', 'ä', 'à', 'å', 'ç', 'ê', 'ë', 'è', 'ï', 'î', 'ì', 'Ä', 'Å', 'É', 'æ', 'Æ',
    'ô', 'ö', 'ò', 'û', 'ù', 'ÿ', 'Ö', 'Ü', '¢', '£', '¥', '₧', 'ƒ', 'á', 'í', 'ó', 'ú', 'ñ', 'Ñ',
    'ª', 'º', '¿', '⌐', '¬', '½', '¼', '¡', '«', '»', '░', '▒', '▓', '│', '┤', '╡', '╢', '╖', '╕',
    '╣', '║', '╗', '╝', '╜', '╛', '┐', '└', '┴', '┬', '├', '─', '┼', '╞', '╟', '╚', '╔', '╩', '╦',
    '╠', '═', '╬', '╧', '╨', '╤', '╥', '╙', '╘', '╒', '╓', '╫', '╪', '┘', '┌', '█', '▄', '▌', '▐',
    '▀', 'α', 'ß', 'Γ', 'π', 'Σ', 'σ', 'µ', 'τ', 'Φ', 'Θ', 'Ω', 'δ', '∞', 'φ', 'ε', '∩', '≡', '±',
    '≥', '≤', '⌠', '⌡', '÷', '≈', '°', '∙', '·', '√', 'ⁿ', '²', '■', '\u{a0}',
];

/// The byte with which a text of DOS or CP/M ends (Ctrl-Z).
const END: u8 = 26;

/// The text of an old file.
#[derive(Drop)]
pub struct Decoded {
    pub text: String,
    /// The code page by which the bytes were read, since they are no UTF-8.
    pub code_page: Option<CodePage>,
}

/// The bytes before the first that ends a text.
#[tactic(auto, unfolding(crate::specs::Bytes::before_end))]
fn before_end(bytes: &[u8]) -> &[u8]
    ensures { result.now ≡ meaning.before_end bytes.now }
{
    for (place, byte) in bytes.iter().enumerate() {
        if *byte == END {
            return &bytes[..place];
        }
    }
    bytes
}

/// The character of a byte from 80h on in code page 437.
fn upper_character(byte: u8) -> char
    requires { 128 ≤ byte }
    ensures { result ≡ slice_index meaning.code_page_437 (byte - 128) }
{
    CODE_PAGE_437[usize::from(byte - 128)]
}

/// The character of a byte in code page 437.
fn character_437(byte: u8) -> char
    ensures { result ≡ meaning.character_437 byte }
{
    if byte < 128 {
        char::from(byte)
    } else {
        upper_character(byte)
    }
}

/// The character of a byte in a code page.
fn character(code_page: CodePage, byte: u8) -> char
    ensures { result ≡ meaning.character code_page byte }
{
    match code_page {
        CodePage::Cp437 => character_437(byte),
        CodePage::Latin1 => char::from(byte),
    }
}

/// Adds the character of a byte in a code page.
fn push_byte(text: &mut String, code_page: CodePage, byte: u8) -> Result<(), NoMemory>
    ensures { OnOk result (string_bytes text.new ≡ string_bytes text.old ++ encode_utf8 (meaning.character code_page byte)) }
{
    text.push(character(code_page, byte))
        .map_err(NoMemory::from)
}

/// The text of bytes of a code page.
fn text_of_code_page(alloc: Global, code_page: CodePage, bytes: &[u8]) -> Result<String, NoMemory>
    ensures { IfOk result (λ text. string_bytes text ≡ meaning.text_of_code_page code_page bytes.now) }
{
    let mut text = String::new(alloc);
    for byte in bytes {
        push_byte(&mut text, code_page, *byte)?;
    }
    Ok(text)
}

/// The text that the bytes of an old file stand for: those before the first 1Ah, as UTF-8, or else by this code page.
/// `NoMemory` (9) where memory runs out.
pub fn decode(alloc: Global, code_page: CodePage, bytes: &[u8]) -> Result<Decoded, NoMemory>
    ensures { IfOk result (λ d. meaning.IsDecoded code_page bytes.now (string_bytes d.text) d.code_page) }
{
    let bytes = before_end(bytes);
    match str::from_utf8(bytes) {
        Ok(text) => Ok(Decoded {
            text: String::from_str(alloc, text)?,
            code_page: None,
        }),
        Err(_) => Ok(Decoded {
            text: text_of_code_page(alloc, code_page, bytes)?,
            code_page: Some(code_page),
        }),
    }
}
