//! The program that a session is about.

ghost use Rattle.std.specs.Prelude.{◌≡◌, option_map};
ghost use Rattle.c25_meaning_expansion.specs.Files.{text_named};
ghost use Rattle.c25_prompt_lines.specs.SourceTexts.{files_of};

use c25_link::Image;
use c25_symbols::entries::SymbolEntry;

/// The text of a file that the sources are read from.
#[derive(Drop)]
pub struct SourceText {
    pub name: String,
    pub text: String,
}

/// A linked program, the symbols that its modules define, local ones too, and the texts of the files that its
/// sources are read from.
#[derive(Clone, Copy)]
pub struct Program<'a> {
    pub symbols: &'a [SymbolEntry<'a>],
    pub image: &'a Image,
    pub texts: &'a [SourceText],
}

/// Where the processor stands in a program: the address in PC, and the file of the instruction there, if it is known.
#[derive(Clone, Copy)]
pub struct Here<'a> {
    pub pc: u16,
    pub file: Option<&'a str>,
}

/// The text of the file of this name, if there is one.
pub fn text_of<'a>(texts: &'a [SourceText], name: &str) -> Option<&'a str>
    ensures { option_map (λ t. t.now) result ≡ text_named (files_of texts.entry.now) name.entry.now }
{
    match texts.iter().find(|file| name == file.name.as_str()) {
        None => None,
        Some(file) => Some(file.text.as_str()),
    }
}
