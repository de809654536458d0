//! The forms of names of sections and of symbols.

ghost use Rattle.std.specs.Prelude.{◌≡◌};
ghost use Rattle.std.specs.List.{list_all};
ghost use Rattle.c25_meaning_objects.specs.Module as spec;

use c25_meaning_common::bytes::begins_name;
use c25_meaning_common::runs::all_go_on_name;

fn is_section_byte(byte: u8) -> bool
    ensures { result ≡ spec.is_section_byte byte }
{
    byte >= 33 && byte <= 126 && byte != b'"'
}

fn all_section_bytes(name: &[u8]) -> bool
    ensures { result ≡ list_all spec.is_section_byte name.now }
{
    name.iter().all(|byte| is_section_byte(*byte))
}

/// Whether bytes are a section's name: 1 to 32 characters from 21h to 7Eh, none of them a quote.
pub fn is_section_name(name: &[u8]) -> bool
    ensures { result ≡ spec.is_section_name name.now }
{
    name.len() >= 1 && name.len() <= 32 && all_section_bytes(name)
}

/// Whether bytes are a symbol's name: 1 to 128 characters, the first of which may begin a name and the others
/// go on one.
pub fn is_symbol_name(name: &[u8]) -> bool
    ensures { result ≡ spec.is_symbol_name name.now }
{
    name.len() >= 1 && name.len() <= 128 && begins_name(name[0]) && all_go_on_name(name)
}
