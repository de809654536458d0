//! A law of substitution, the contract of a function that does nothing.

ghost use Rattle.std.specs.Prelude.{◌≡◌, ℕ, List};
ghost use Rattle.c25_meaning_language.specs.Fragments.{Replacements};
ghost use Rattle.c25_meaning_language.specs.Substitution.{substituted, unsubstituted};
ghost use Rattle.c25_substitution.specs.PlainTexts.{StandsForNothing, HasNoMark};

/// In any expansion, a line without `?` is kept as it is where no name that begins in it stands for a text;
/// it is `LongLine` where it has more than 1,024 bytes.
pub fn texts_without_names_are_kept()
    ensures { (names : Replacements) (number : ℕ) (line : List ℕ) → StandsForNothing names line → HasNoMark line
        → substituted names number line ≡ unsubstituted line }
{}
