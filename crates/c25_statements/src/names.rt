//! The directives of the assembler by their names.

ghost use Rattle.std.specs.Prelude.{◌≡◌, ◌==◌, slice_index};
ghost use Rattle.c25_meaning_assembly.specs.AssemblyLine.{directive_of, directive_in, is_ignored};
ghost use Rattle.c25_meaning_language.specs.Line.{first_word};

use c25_meaning_assembly::assembly::Directive;
use c25_meaning_common::bytes::byte_at;
use c25_text::line::first_word;

/// Whether the word begins with a point, as each directive's name does.
fn is_dotted(word: &str) -> bool
    ensures { result ≡ (slice_index word.now 0 == 46) }
{
    byte_at(word.as_bytes(), 0) == b'.'
}

/// The directives that the assembler takes, without those that have no effect.
static DIRECTIVES: [(&str, Directive); 17] = [
    (".text", Directive::Text),
    (".data", Directive::Data),
    (".sect", Directive::Sect),
    (".bss", Directive::Bss),
    (".usect", Directive::Usect),
    (".word", Directive::Word),
    (".int", Directive::Word),
    (".byte", Directive::Byte),
    (".string", Directive::Characters),
    (".space", Directive::Space),
    (".set", Directive::Set),
    (".equ", Directive::Set),
    (".global", Directive::Global),
    (".ref", Directive::Global),
    (".def", Directive::Def),
    (".label", Directive::Label),
    (".mmregs", Directive::Registers),
];

/// The directives of listings, which have no effect here.
static IGNORED: [&str; 13] = [
    ".title",
    ".list",
    ".nolist",
    ".page",
    ".width",
    ".length",
    ".option",
    ".mlist",
    ".mnolist",
    ".fclist",
    ".fcnolist",
    ".sslist",
    ".ssnolist",
];

/// Whether a word is a directive without effect, whatever the case of its letters.
fn is_ignored(word: &str) -> bool
    ensures { result ≡ is_ignored word.now }
{
    IGNORED.iter().any(|name| word.eq_ignore_ascii_case(name))
}

/// The directive that a word names, if the assembler takes one of this name, whatever the case of its
/// letters.
fn find_directive(word: &str) -> Option<Directive>
    ensures { result ≡ directive_of word.now }
{
    match DIRECTIVES
        .iter()
        .find(|(name, _)| word.eq_ignore_ascii_case(name))
    {
        Some((_, directive)) => Some(*directive),
        None => is_ignored(word).then_some(Directive::Ignored),
    }
}

/// The directive that a word names, if any. A word without a point, as most are, is not looked up.
fn directive_of(word: &str) -> Option<Directive>
    ensures { result ≡ directive_of word.now }
{
    if is_dotted(word) {
        find_directive(word)
    } else {
        None
    }
}

/// The directive that a line's first word names, if any.
pub fn directive_in(text: &str) -> Option<Directive>
    ensures { result ≡ directive_in (first_word text.now) }
{
    match first_word(text) {
        Some(word) => directive_of(word),
        None => None,
    }
}
