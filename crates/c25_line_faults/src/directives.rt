//! The directives of expansion by their names.

ghost use Rattle.std.specs.Prelude.{◌≡◌};
ghost use Rattle.c25_meaning_expansion.specs.Acts.{directive_of};
ghost use Rattle.c25_meaning_expansion.specs.ExpansionRules.{directive_in};
ghost use Rattle.c25_meaning_language.specs.Line.{first_word};

use c25_meaning_expansion::expansion::Directive;
use c25_text::first_word;

/// The directives that expansion acts on.
static DIRECTIVES: [(&str, Directive); 15] = [
    (".if", Directive::If),
    (".elseif", Directive::ElseIf),
    (".else", Directive::Else),
    (".endif", Directive::EndIf),
    (".macro", Directive::Macro),
    (".endm", Directive::EndMacro),
    (".mexit", Directive::ExitMacro),
    (".loop", Directive::Loop),
    (".break", Directive::Break),
    (".endloop", Directive::EndLoop),
    (".asg", Directive::Assign),
    (".eval", Directive::Evaluate),
    (".copy", Directive::Copy),
    (".include", Directive::Copy),
    (".end", Directive::End),
];

/// The directive of expansion with this name, letters in either case, if there is one.
fn find_directive(word: &str) -> Option<Directive>
    ensures { result ≡ directive_of word.now }
{
    match DIRECTIVES
        .iter()
        .find(|(name, _)| word.eq_ignore_ascii_case(name))
    {
        Some((_, directive)) => Some(*directive),
        None => None,
    }
}

/// The directive of expansion that a line has, if it has one.
pub(crate) fn directive_in(text: &str) -> Option<Directive>
    ensures { result ≡ directive_in (first_word text.now) }
{
    match first_word(text) {
        Some(word) => find_directive(word),
        None => None,
    }
}
