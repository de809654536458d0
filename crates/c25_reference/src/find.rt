//! Entries of the reference, found by name.

ghost use Rattle.std.specs.Prelude.{◌≡◌, map, option_map};
ghost use Rattle.c25_meaning_assembly.specs.AssemblyLine as assembly;
ghost use Rattle.c25_meaning_expansion.specs.Acts as expansion;
ghost use Rattle.c25_reference.specs.Entries.{directive_named, entry_named, instruction_named, name_among};

use crate::directives::{ASSEMBLY, EXPANSION, WITHOUT_EFFECT};
use crate::entry::Entry;
use crate::spellings::of_spelling;
use c25_statements::spelled;

/// The first of these entries that a word names, letters in either case.
fn entry_among(entries: &[Entry], word: &str) -> Option<Entry>
    ensures { option_map (λ e. e.name.now) result ≡ name_among word.now (map (λ e. e.name.now) entries.now) }
{
    for entry in entries {
        if word.eq_ignore_ascii_case(entry.name) {
            return Some(*entry);
        }
    }
    None
}

/// The entry of an instruction by its mnemonic, letters in either case. `None` where the word is no mnemonic.
pub fn instruction_named(word: &str) -> Option<Entry>
    ensures { option_map (λ e. e.name.now) result ≡ instruction_named word.now }
{
    match spelled(word) {
        Ok(spelling) => Some(of_spelling(spelling)),
        Err(_) => None,
    }
}

/// The entry of a directive that the assembler acts on.
fn of_assembly(word: &str) -> Option<Entry>
    ensures { option_map (λ e. e.name.now) result ≡ name_among word.now (map (λ d. d.0) assembly.directives) }
{
    entry_among(&ASSEMBLY, word)
}

/// The entry of a directive without effect.
fn without_effect(word: &str) -> Option<Entry>
    ensures { option_map (λ e. e.name.now) result ≡ name_among word.now assembly.ignored }
{
    entry_among(&WITHOUT_EFFECT, word)
}

/// The entry of a directive of expansion.
fn of_expansion(word: &str) -> Option<Entry>
    ensures { option_map (λ e. e.name.now) result ≡ name_among word.now (map (λ d. d.0) expansion.directives) }
{
    entry_among(&EXPANSION, word)
}

/// The entry of a directive by its name with its dot, letters in either case. `None` where the word is no directive.
pub fn directive_named(word: &str) -> Option<Entry>
    ensures { option_map (λ e. e.name.now) result ≡ directive_named word.now }
{
    of_assembly(word)
        .or_else(|| without_effect(word))
        .or_else(|| of_expansion(word))
}

/// The entry of the instruction or the directive that a word names, letters in either case. `None` where it names neither.
pub fn entry_named(word: &str) -> Option<Entry>
    ensures { option_map (λ e. e.name.now) result ≡ entry_named word.now }
{
    match instruction_named(word) {
        Some(entry) => Some(entry),
        None => directive_named(word),
    }
}
