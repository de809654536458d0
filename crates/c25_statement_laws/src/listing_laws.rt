//! Laws of listings, each the contract of a function with an empty body.

ghost use Rattle.std.specs.Prelude.{◌≡◌, List, ℕ, filter, map, Ok, Some};
ghost use Rattle.std.specs.FinMap as finite;
ghost use Rattle.c25_meaning_assembly.specs.Listing.{Entry};
ghost use Rattle.c25_meaning_assembly.specs.ModuleOfSource.{Assembled, assembled};
ghost use Rattle.c25_meaning_expansion.specs.Files.{Files};
ghost use Rattle.c25_meaning_linking.specs.Command.{CommandData};
ghost use Rattle.c25_meaning_linking.specs.Linking.{ImageData, IsProgram};
ghost use Rattle.c25_meaning_linking.specs.Words.{section_page};
ghost use Rattle.c25_meaning_objects.specs.Module.{Contents};
ghost use Rattle.c25_laws.specs.ProgramStatements.{AreModulesOf, lines_in};
ghost use Rattle.c25_statement_laws.specs.ListedWords.{Agrees, IsListed, entry_extent, has_words, item_extent, listed_address};

/// The listings of the sources of a program show its words. Each word of a listing stands in the program, on page 0
/// (`program`) or on page 1 (`store`), at the address of its section's part and its offset there: the very word
/// where no `'` stands after it, and else the word but for its relocated field. The entries that show words are, in
/// the order of the lines, the items of the source: each with the line, the section, the offset and the count of its
/// item (`lines`).
pub fn listings_show_the_words()
    ensures program { (files : Files) (names : List (List ℕ)) (modules : List Contents) (command : CommandData) (image : ImageData)
        → AreModulesOf files names modules → (p : IsProgram modules command image)
        → (number : ℕ) (e : Entry) (within : ℕ) (l : IsListed files names number e within) → section_page p.places l.made.contents e.section ≡ 0
        → (word : ℕ) × (finite.get image.program (listed_address modules p.places number l.made.contents e within) ≡ Some word) × Agrees l.made.contents e within word }
    ensures store { (files : Files) (names : List (List ℕ)) (modules : List Contents) (command : CommandData) (image : ImageData)
        → AreModulesOf files names modules → (p : IsProgram modules command image)
        → (number : ℕ) (e : Entry) (within : ℕ) (l : IsListed files names number e within) → section_page p.places l.made.contents e.section ≡ 1
        → (word : ℕ) × (finite.get image.store (listed_address modules p.places number l.made.contents e within) ≡ Some word) × Agrees l.made.contents e within word }
    ensures lines { (files : Files) (name : List ℕ) (a : Assembled) → assembled files name ≡ Ok a
        → filter has_words (map entry_extent a.entries) ≡ filter has_words (map item_extent (lines_in files name).items) }
{}
