//! The names that can be replaced at a line.

ghost use Rattle.std.specs.Prelude.{◌≡◌, List, ℕ, None, IsTrue};
ghost use Rattle.std.specs.Option.{option_map};
ghost use Rattle.c25_substitution.specs.View.{names_of};

use crate::parameters::Arguments;
use crate::texts::SubstitutionTexts;

/// The names that can be replaced at a line: the parameters of the innermost expansion, if there is one, and
/// the names of `.asg` and `.eval`; a parameter hides a symbol of its name.
#[derive(Clone, Copy)]
pub struct Visible<'a> {
    pub arguments: Option<&'a Arguments>,
    pub texts: &'a SubstitutionTexts,
}

impl<'a> Visible<'a> {
    /// The text that a name stands for, if it stands for one.
    pub(crate) fn get(&self, name: &str) -> Option<&'a str>
        ensures { option_map (λ s. s.now) result ≡ names_of self.now name.now }
    {
        if let Some(arguments) = self.arguments {
            if let Some(text) = arguments.get(name) {
                return Some(text);
            }
        }
        self.texts.get(name)
    }

    /// Whether no name stands for anything.
    pub(crate) fn are_none(&self) -> bool
        ensures { IsTrue result → (name : List ℕ) → names_of self.now name ≡ None }
    {
        match self.arguments {
            Some(arguments) => arguments.is_empty() && self.texts.is_empty(),
            None => self.texts.is_empty(),
        }
    }
}
