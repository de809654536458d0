//! Laws of the words that sources reserve, each the contract of a function with an empty body.

ghost use Rattle.std.specs.Prelude.{◌≡◌, ◌≤◌, ◌+◌, ◌++◌, ◌∷◌, [], List, ℕ, Ok, Some, true};
ghost use Rattle.std.specs.List.{Contains, slice_get};
ghost use Rattle.c25_meaning_expansion.specs.Files.{Files};
ghost use Rattle.c25_meaning_objects.specs.Module.{SectionData, Uninitialised, has_words};
ghost use Rattle.c25_meaning_assembly.specs.ModuleOfSource.{Assembled, assembled};
ghost use Rattle.c25_meaning_assembly.specs.Sections.{PendingItem};
ghost use Rattle.c25_meaning_language.specs.declared.value.Value.{Value};
ghost use Rattle.c25_laws.specs.ProgramStatements.{lines_in};
ghost use Rattle.c25_source_laws.specs.Reservations.{IsReserved, Reservation, reservations_in, reserved_words};

/// The words that `.bss` and `.usect` reserve are apart. In a source that assembles to a module, the name of
/// each reservation stands for the first of its words, which come after those of the reservations of its
/// section on the lines before, and end within the section; where they must lie in one data page, they are a
/// block of the module (`places`). A section without words of its own is as long as its reservations together
/// (`sizes`). Of two reservations of a section, the words of the first end where those of the second begin, or
/// before (`apart`). No name stands for two addresses (`names`). The words of instructions and of data stand in
/// other sections (`items`).
pub fn reserved_words_are_apart()
    ensures places { (files : Files) (name : List ℕ) (a : Assembled) → assembled files name ≡ Ok a
        → (before after : List Reservation) (r : Reservation) → reservations_in files name ≡ before ++ r ∷ after → IsReserved a.contents (lines_in files name).names before r }
    ensures sizes { (files : Files) (name : List ℕ) (a : Assembled) → assembled files name ≡ Ok a
        → (k : ℕ) (section : SectionData) (size : ℕ) → slice_get a.contents.sections k ≡ Some section → section.body ≡ Uninitialised size
        → size ≡ reserved_words section.name (reservations_in files name) }
    ensures apart { (before between after : List Reservation) (r s : Reservation) → r.section ≡ s.section
        → reserved_words r.section before + r.count ≤ reserved_words s.section (before ++ r ∷ between) }
    ensures names { (files : Files) (name : List ℕ) (a : Assembled) → assembled files name ≡ Ok a
        → (n : List ℕ) (v w : Value) → Contains (lines_in files name).names (n, v) → Contains (lines_in files name).names (n, w) → v ≡ w }
    ensures items { (files : Files) (name : List ℕ) (a : Assembled) → assembled files name ≡ Ok a
        → (i : PendingItem) → Contains (lines_in files name).items i
        → (section : SectionData) × (slice_get a.contents.sections i.section ≡ Some section) × (has_words section.body ≡ true) }
{}
