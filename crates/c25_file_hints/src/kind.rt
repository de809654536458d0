//! What a file may be that is no object.

ghost use Rattle.std.specs.List.{list_all};
ghost use Rattle.std.specs.Prelude.{◌≡◌};
ghost use Rattle.c25_file_hints.specs.Kinds.{begins_coff, begins_s_records, is_coff_byte, is_text_byte, kind_of, kind_text};

use c25_meaning_common::bytes::{byte_at, is_blank, is_digit};

/// What a file may be.
#[derive(Clone, Copy, PartialEq, Debug)]
pub enum FileKind {
    /// A file without bytes.
    Empty,
    /// An Intel hex text.
    IntelHex,
    /// Motorola S-records.
    SRecords,
    /// An object of TI's tools.
    Coff,
    /// A text, as a source.
    Text,
    /// Anything else.
    Binary,
}

/// Whether a file begins as S-records do.
fn begins_s_records(bytes: &[u8]) -> bool
    ensures { result ≡ begins_s_records bytes.now }
{
    byte_at(bytes, 0) == b'S' && is_digit(byte_at(bytes, 1))
}

/// Whether a byte is the low byte of a number with which COFF begins.
fn is_coff_byte(byte: u8) -> bool
    ensures { result ≡ is_coff_byte byte }
{
    byte == 0xC1 || byte == 0xC2 || byte == 0x92
}

/// Whether a file begins as COFF does.
fn begins_coff(bytes: &[u8]) -> bool
    ensures { result ≡ begins_coff bytes.now }
{
    is_coff_byte(byte_at(bytes, 0)) && byte_at(bytes, 1) == 0 && bytes.len() >= 2
}

/// Whether a byte is one of a text.
fn is_text_byte(byte: u8) -> bool
    ensures { result ≡ is_text_byte byte }
{
    byte >= b' ' && byte != 0x7f || is_blank(byte) || byte == b'\n' || byte == b'\r' || byte == 0x1a
}

/// Whether all bytes are bytes of a text.
fn is_text(bytes: &[u8]) -> bool
    ensures { result ≡ list_all is_text_byte bytes.now }
{
    bytes.iter().all(|byte| is_text_byte(*byte))
}

/// What a file may be, by its bytes.
pub fn kind_of(bytes: &[u8]) -> FileKind
    ensures { result ≡ kind_of bytes.now }
{
    if bytes.is_empty() {
        FileKind::Empty
    } else if byte_at(bytes, 0) == b':' {
        FileKind::IntelHex
    } else if begins_s_records(bytes) {
        FileKind::SRecords
    } else if begins_coff(bytes) {
        FileKind::Coff
    } else if is_text(bytes) {
        FileKind::Text
    } else {
        FileKind::Binary
    }
}

impl FileKind {
    /// What the file is, and what to do.
    pub fn text(self) -> &'static str
        ensures { result.now ≡ kind_text self }
    {
        match self {
            FileKind::Empty => "the file is empty",
            FileKind::IntelHex => "it begins as an Intel hex text, which c25 dis reads",
            FileKind::SRecords => {
                "it begins as Motorola S-records: srec_cat X.s19 -Motorola -o X.hex -Intel makes a hex text for c25 dis"
            }
            FileKind::Coff => { "it begins as an object of TI's tools (COFF): assemble its source" }
            FileKind::Text => "it is a text: of a source c25 asm makes an object",
            FileKind::Binary => {
                "it is neither an object nor a text: c25 dis --source --binary X.bin --out X makes a source of its words"
            }
        }
    }
}
