//! Laws of hex texts.

ghost use Rattle.std.specs.Prelude.{◌≡◌, ◌≢◌, ℕ, List, [], ◌∷◌, ◌++◌};
ghost use Rattle.std.specs.Ordering.{nat_cmp};
ghost use Rattle.std.specs.FinMap as map;
ghost use Rattle.c25_hex.specs.Hex.{SpellsWords};
ghost use Rattle.c25_hex.specs.HexText.{written};
ghost use Rattle.c25_meaning_image.specs.WordMap.{IsWordMap};

/// The text that is written for words is read back as these words.
pub fn written_texts_are_read_back()
    ensures { (words : map.FinMap nat_cmp ℕ) → IsWordMap words → SpellsWords (written words) words }
{}

/// No proper beginning of a written text spells words, but for the text without its last LF.
pub fn no_prefix_spells_words()
    ensures cut { (words other : map.FinMap nat_cmp ℕ) (front rest : List ℕ) → IsWordMap words
        → written words ≡ front ++ rest → rest ≢ [] → rest ≢ 10 ∷ [] → ¬ (SpellsWords front other) }
    ensures without_last { (words : map.FinMap nat_cmp ℕ) (front : List ℕ) → IsWordMap words
        → written words ≡ front ++ 10 ∷ [] → SpellsWords front words }
{}

/// Each text spells one map of words at most.
pub fn one_text_spells_one_map()
    ensures { (text : List ℕ) (words other : map.FinMap nat_cmp ℕ) → SpellsWords text words → SpellsWords text other → words ≡ other }
{}
