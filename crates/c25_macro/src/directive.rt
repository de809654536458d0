//! The directives of expansion by their names.

ghost use Rattle.std.specs.Prelude.{◌≡◌, ◌==◌, slice_index};
ghost use Rattle.std.specs.Str.{str_eq_ignore_ascii_case};
ghost use Rattle.c25_meaning_expansion.specs.Acts.{directive_of};
ghost use Rattle.c25_meaning_expansion.specs.ExpansionRules.{directive_in};
ghost use Rattle.c25_meaning_language.specs.Line.{first_word};

use c25_meaning_common::bytes::byte_at;
use c25_meaning_expansion::expansion::Directive;
use c25_text::line::first_word;

fn is_dotted(word: &str) -> bool
    ensures { result ≡ (slice_index word.now 0 == 46) }
{
    byte_at(word.as_bytes(), 0) == b'.'
}

/// Whether a text is this name, in upper or lower case. Most texts are of another length.
fn is_named(word: &str, name: &str) -> bool
    ensures { result ≡ str_eq_ignore_ascii_case word.now name.now }
{
    word.len() == name.len() && word.eq_ignore_ascii_case(name)
}

/// The directive of expansion with this name, in upper or lower case, if there is one.
#[tactic(auto, unfolding(c25_meaning_expansion::specs::Acts::directive_of))]
pub(crate) fn find_directive(word: &str) -> Option<Directive>
    ensures { result ≡ directive_of word.now }
{
    // Most names are mnemonics, which have no dot.
    if !is_dotted(word) {
        None
    } else if is_named(word, ".if") {
        Some(Directive::If)
    } else if is_named(word, ".elseif") {
        Some(Directive::ElseIf)
    } else if is_named(word, ".else") {
        Some(Directive::Else)
    } else if is_named(word, ".endif") {
        Some(Directive::EndIf)
    } else if is_named(word, ".macro") {
        Some(Directive::Macro)
    } else if is_named(word, ".endm") {
        Some(Directive::EndMacro)
    } else if is_named(word, ".mexit") {
        Some(Directive::ExitMacro)
    } else if is_named(word, ".loop") {
        Some(Directive::Loop)
    } else if is_named(word, ".break") {
        Some(Directive::Break)
    } else if is_named(word, ".endloop") {
        Some(Directive::EndLoop)
    } else if is_named(word, ".asg") {
        Some(Directive::Assign)
    } else if is_named(word, ".eval") {
        Some(Directive::Evaluate)
    } else if is_named(word, ".copy") || is_named(word, ".include") {
        Some(Directive::Copy)
    } else if is_named(word, ".end") {
        Some(Directive::End)
    } else {
        None
    }
}

/// The directive of expansion that a line has, if it has one.
pub(crate) fn directive_in(text: &str) -> Option<Directive>
    ensures { result ≡ directive_in (first_word text.now) }
{
    match first_word(text) {
        Some(word) => find_directive(word),
        None => None,
    }
}
