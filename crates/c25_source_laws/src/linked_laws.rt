//! Laws of the words that a program's sources reserve, each the contract of a function with an empty body.

ghost use Rattle.std.specs.Prelude.{◌≡◌, ◌≤◌, ◌+◌, ◌%◌, List, None, Some, false, pos, true, ℕ};
ghost use Rattle.std.specs.FinMap as finite;
ghost use Rattle.std.specs.List.{Contains, slice_get};
ghost use Rattle.c25_meaning_expansion.specs.Files.{Files};
ghost use Rattle.c25_meaning_language.specs.declared.value.Value.{Value};
ghost use Rattle.c25_meaning_linking.specs.Command.{CommandData};
ghost use Rattle.c25_meaning_linking.specs.Linking.{ImageData, IsProgram};
ghost use Rattle.c25_meaning_linking.specs.Place.{IsPart, LiesIn, runs_elsewhere};
ghost use Rattle.c25_meaning_objects.specs.Module.{Contents, SectionData};
ghost use Rattle.c25_laws.specs.ProgramStatements.{AreModulesOf, lines_in};
ghost use Rattle.c25_laws.specs.SourceValues.{placed};
ghost use Rattle.c25_laws.specs.SourceWords.{HasSourceWord};
ghost use Rattle.c25_source_laws.specs.LinkedReservations.{HasReservation, IsReservedAt, first_address};

/// The words that the sources of a program reserve are apart where linking placed them. Each of them lies in
/// the part that its source's module has of its section, on that section's page (`inside`). Two reservations
/// of the program have no word in common, whether they are of one source or of two (`apart`). No word of an
/// instruction or of data is among them (`items`), so the loaded words of both pages have none at their
/// addresses (`program`, `store`). The name of a reservation stands for the address of its first word, where
/// SECTIONS gives its section no run address (`names`). A reservation that must lie in one data page does: from
/// its first word on, the page of 128 words has room for all of it (`blocks`).
pub fn linked_reservations_are_apart()
    ensures inside { (files : Files) (names : List (List ℕ)) (modules : List Contents) (command : CommandData) (image : ImageData)
        → AreModulesOf files names modules → (p : IsProgram modules command image)
        → (source position page address : ℕ) (r : HasReservation files names source position) → IsReservedAt files names modules p.places source position r page address
        → (index : ℕ) × (owner : Contents) × (section : SectionData) × IsPart modules source index owner section × (section.name ≡ r.one.section)
        × LiesIn modules p.places source section page address }
    ensures apart { (files : Files) (names : List (List ℕ)) (modules : List Contents) (command : CommandData) (image : ImageData)
        → AreModulesOf files names modules → (p : IsProgram modules command image)
        → (source other position another page address : ℕ) (r : HasReservation files names source position) (s : HasReservation files names other another)
        → IsReservedAt files names modules p.places source position r page address → IsReservedAt files names modules p.places other another s page address
        → (source ≡ other) × (position ≡ another) }
    ensures items { (files : Files) (names : List (List ℕ)) (modules : List Contents) (command : CommandData) (image : ImageData)
        → AreModulesOf files names modules → (p : IsProgram modules command image)
        → (source position page address word : ℕ) (r : HasReservation files names source position) → IsReservedAt files names modules p.places source position r page address
        → HasSourceWord files names modules p.places page address word → ⊥ }
    ensures program { (files : Files) (names : List (List ℕ)) (modules : List Contents) (command : CommandData) (image : ImageData)
        → AreModulesOf files names modules → (p : IsProgram modules command image)
        → (source position address : ℕ) (r : HasReservation files names source position) → IsReservedAt files names modules p.places source position r 0 address
        → finite.get image.program address ≡ None }
    ensures store { (files : Files) (names : List (List ℕ)) (modules : List Contents) (command : CommandData) (image : ImageData)
        → AreModulesOf files names modules → (p : IsProgram modules command image)
        → (source position address : ℕ) (r : HasReservation files names source position) → IsReservedAt files names modules p.places source position r 1 address
        → finite.get image.store address ≡ None }
    ensures names { (files : Files) (names : List (List ℕ)) (modules : List Contents) (command : CommandData) (image : ImageData)
        → AreModulesOf files names modules → (p : IsProgram modules command image)
        → (source position : ℕ) (r : HasReservation files names source position) (owner : Contents) → slice_get modules source ≡ Some owner → runs_elsewhere r.one.section p.places ≡ false
        → (v : Value) × Contains (lines_in files r.name).names (r.one.name, v)
        × (placed modules p.places source owner v.base v.offset ≡ pos (first_address files names modules p.places source position r)) }
    ensures blocks { (files : Files) (names : List (List ℕ)) (modules : List Contents) (command : CommandData) (image : ImageData)
        → AreModulesOf files names modules → (p : IsProgram modules command image)
        → (source position : ℕ) (r : HasReservation files names source position) → r.one.paged ≡ true
        → first_address files names modules p.places source position r % 128 + r.one.count ≤ 128 }
{}
