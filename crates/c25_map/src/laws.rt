//! Laws of maps' texts.

ghost use Rattle.std.specs.Prelude.{◌≡◌, ℕ, List, [], ◌++◌};
ghost use Rattle.c25_meaning_linking.specs.MapText.{MapData, IsMapOf};

/// Each text is the text of one map at most.
pub fn one_text_has_one_map()
    ensures { (text : List ℕ) (m n : MapData) → IsMapOf text m → IsMapOf text n → m ≡ n }
{}

/// No text of a map begins another: a text that was cut off is not a map's.
pub fn no_text_begins_another()
    ensures { (front rest : List ℕ) (m n : MapData) → IsMapOf front m → IsMapOf (front ++ rest) n → rest ≡ [] }
{}
