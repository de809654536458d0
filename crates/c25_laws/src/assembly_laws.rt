//! Laws of assembling, each the contract of a function with an empty body.

ghost use Rattle.std.specs.Prelude.{◌≡◌, List, ◌∷◌, ◌++◌, length, ℕ, Ok};
ghost use Rattle.c25_meaning_expansion.specs.Files.{Files};
ghost use Rattle.c25_meaning_assembly.specs.InstructionStatements.{Instruction};
ghost use Rattle.c25_meaning_objects.specs.Module.{Contents};
ghost use Rattle.c25_meaning_assembly.specs.ModuleOfSource.{Assembled, assembled};
ghost use Rattle.c25_meaning_linking.specs.Place.{Place};
ghost use Rattle.c25_meaning_assembly.specs.Sections.{Definitions, PendingItem};
ghost use Rattle.c25_meaning_assembly.specs.ItemPlaces.{total, words_in};
ghost use Rattle.c25_laws.specs.ModuleStatements.{instructions_in, AreStatements};
ghost use Rattle.c25_laws.specs.ProgramStatements.{lines_in};
ghost use Rattle.c25_laws.specs.SourceWords.{item_words};

/// A source that assembles to a module has instruction statements, and the module agrees with them: its marks
/// are their places, its words there read as these instructions, and its relocations of these words are those
/// of their address fields. Every other relocation fills a whole word, as those of `.word` do.
pub fn modules_are_their_statements()
    ensures { (files : Files) (name : List ℕ) (a : Assembled) → assembled files name ≡ Ok a
        → (statements : List Instruction) × (instructions_in files name ≡ Ok statements) × AreStatements a.contents statements }
{}

/// Each item of a source that assembles to a module begins where the items before it in its section end, and
/// has as many words under the map as the first phase counted for it.
pub fn items_stand_behind_one_another()
    ensures places { (files : Files) (name : List ℕ) (a : Assembled) → assembled files name ≡ Ok a
        → (before after : List PendingItem) (i : PendingItem) → (lines_in files name).items ≡ before ++ i ∷ after → i.offset ≡ total i.section before }
    ensures sizes { (modules : List Contents) (places : List Place) (number : ℕ) (m : Contents) (names : Definitions) (i : PendingItem)
        → length (item_words modules places number m names i i.content) ≡ words_in i.content }
{}
