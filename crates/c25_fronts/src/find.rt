//! The front of a name.

ghost use Rattle.std.specs.Prelude.{◌≡◌, map, option_map};
ghost use Rattle.c25_meaning_expansion.specs.Files.{text_named};
ghost use Rattle.c25_fronts.specs.Fronts.{entry_of};

use crate::front::Front;

/// The text of the first front of a name, if there is one.
pub(crate) fn find<'a>(fronts: &'a [Front], name: &str) -> Option<&'a str>
    ensures { option_map (λ text. text.now) result ≡ text_named (map entry_of fronts.now) name.now }
{
    for front in fronts {
        if name == front.name.as_str() {
            return Some(front.text.as_str());
        }
    }
    None
}
