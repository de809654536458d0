//! Remarks on the name of a macro that is not defined so far (50), by the macros that are known.

ghost use Rattle.std.specs.Prelude.{◌≡◌, map};
ghost use Rattle.std.specs.Option.{option_map};
ghost use Rattle.c25_hints.specs.Macros as meaning;
ghost use Rattle.c25_hints.specs.Remark.{remark_of};

use crate::cause::Cause;
use crate::hint::Hint;
use crate::values::of_case;
use c25_meaning_language::statement::FaultKind;
use c25_text::line::first_word;

/// Whether a name is among names.
#[tactic(auto, unfolding(crate::specs::Macros::has_name))]
fn has_name(names: &[&str], name: &str) -> bool
    ensures { result ≡ meaning.has_name (map (λ n. n.now) names.now) name.now }
{
    for other in names {
        if *other == name {
            return true;
        }
    }
    false
}

/// The remark on a word that is the name of one of these macros, or has the letters of one in other case.
fn of_macro<'a>(macros: &[&'a str], word: &'a str) -> Option<Hint<'a>>
    ensures { option_map remark_of result ≡ meaning.of_macro (map (λ n. n.now) macros.now) word.now }
{
    if has_name(macros, word) {
        Some(Hint::about(Cause::MacroElsewhere, word))
    } else {
        of_case(macros, word)
    }
}

/// The remark on a line with this fault by these macros.
pub(crate) fn of_macros<'a>(text: &'a str, kind: FaultKind, macros: &[&'a str]) -> Option<Hint<'a>>
    ensures { option_map remark_of result ≡ meaning.of_macros text.now kind (map (λ n. n.now) macros.now) }
{
    match (kind, first_word(text)) {
        (FaultKind::UnknownMnemonic, Some(word)) => of_macro(macros, word),
        _ => None,
    }
}
