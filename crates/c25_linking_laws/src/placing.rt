//! Laws of the places of sections, each the contract of a function with an empty body.

ghost use Rattle.std.specs.Prelude.{◌≡◌, List, ℕ, Some, true};
ghost use Rattle.std.specs.List.{slice_get};
ghost use Rattle.c25_meaning_linking.specs.Command.{CommandData};
ghost use Rattle.c25_meaning_linking.specs.GoodMap.{IsGoodMap};
ghost use Rattle.c25_meaning_objects.specs.Module.{SectionData, Contents, is_module};
ghost use Rattle.c25_meaning_linking.specs.Place.{Place, IsPart, LiesIn};

/// Modules under a command have at most one good map.
pub fn one_good_map()
    ensures { (modules : List Contents) (command : CommandData) (places others : List Place) →
        IsGoodMap modules command places → IsGoodMap modules command others → places ≡ others }
{}

/// In a good map no two parts have a word in common: an address of a page lies in at most one section of one
/// module.
pub fn two_parts_share_no_word()
    ensures { (modules : List Contents) (command : CommandData) (places : List Place) (number other index another page address : ℕ)
        (owner owner_2 : Contents) (section section_2 : SectionData)
        → ((m : Contents) (n : ℕ) → slice_get modules n ≡ Some m → is_module m ≡ true) → IsGoodMap modules command places
        → IsPart modules number index owner section → IsPart modules other another owner_2 section_2
        → LiesIn modules places number section page address → LiesIn modules places other section_2 page address
        → (number ≡ other) × (index ≡ another) }
{}
