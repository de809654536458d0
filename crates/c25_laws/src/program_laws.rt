//! Laws of programs: the program that runs is what the sources say. Each is the contract of a function with
//! an empty body.

ghost use Rattle.std.specs.Prelude.{◌≡◌, ◌↔◌, ◌+◌, ◌++◌, ◌∷◌, [], List, ℕ, Ok, Some, pos, true};
ghost use Rattle.std.specs.List.{All, Contains};
ghost use Rattle.c25_meaning_linking.specs.Command.{CommandData};
ghost use Rattle.c25_meaning_expansion.specs.Files.{Files};
ghost use Rattle.c25_meaning_processor.specs.FirstState.{first_of_pages};
ghost use Rattle.c25_meaning_linking.specs.Linking.{ImageData, IsProgram};
ghost use Rattle.c25_meaning_objects.specs.Module.{Contents};
ghost use Rattle.c25_meaning_assembly.specs.ModuleOfSource.{Assembled, assembled};
ghost use Rattle.c25_meaning_linking.specs.Place.{Place, place_named};
ghost use Rattle.c25_meaning_assembly.specs.Sections.{Progress, equate, label, name_loaded, size_at};
ghost use Rattle.c25_meaning_processor.specs.State.{World};
ghost use Rattle.c25_meaning_processor.specs.Statements.{IsImageOf, KeepsStatements, RunsAsStatements, loaded_statements, standing};
ghost use Rattle.c25_meaning_language.specs.Tree.{Tree};
ghost use Rattle.c25_meaning_linking.specs.Words.{HasWord, section_base, section_run};
ghost use Rattle.c25_meaning_language.specs.declared.value.Value.{Value};
ghost use Rattle.c25_laws.specs.ProgramStatements.{AreMarksOf, AreModulesOf, HoldsSection, PlacedStatement, ReadsAs, all_statements, lines_in, lines_of, page_statements, program_statements};
ghost use Rattle.c25_laws.specs.SourceValues.{name_under, placed, value_under};
ghost use Rattle.c25_laws.specs.SourceWords.{HasSourceWord, HasSourceWords};

/// The marks of a program are exactly the addresses and sizes of the instruction statements of its sources on
/// page 0 that run where they are loaded, over all modules and sections, in ascending order; its run marks
/// are exactly the places of those that run in block B0. The lines of a source that assembles to a module
/// have no fault, so no statement is left out.
pub fn program_marks_are_statements()
    ensures sources { (files : Files) (name : List ℕ) (a : Assembled) → assembled files name ≡ Ok a
        → lines_of files name ≡ Ok (lines_in files name) }
    ensures marks { (files : Files) (names : List (List ℕ)) (modules : List Contents) (command : CommandData) (image : ImageData)
        → AreModulesOf files names modules → (p : IsProgram modules command image)
        → AreMarksOf (program_statements files names modules p.places) image.marks image.run_marks }
{}

/// A name that a line defines has, under every map, the value that the line says: for `.set` and `.equ` the
/// value of the expression, for a label the address where the line's words run, for `.label` the address
/// where they are loaded.
pub fn names_are_their_values()
    ensures equated { (modules : List Contents) (places : List Place) (number : ℕ) (m : Contents) (name : List ℕ) (e : Tree) (p q : Progress) → equate name e p ≡ Ok q
        → (v : Value) × (q.names ≡ p.names ++ (name, v) ∷ []) × (placed modules places number m v.base v.offset
        ≡ value_under (name_under modules places number m p.names) (pos (section_run modules places number m p.current + size_at p.sections p.current)) e) }
    ensures labelled { (modules : List Contents) (places : List Place) (number : ℕ) (m : Contents) (name : List ℕ) (p q : Progress) → label (Some name) p ≡ Ok q
        → (v : Value) × (q.names ≡ p.names ++ (name, v) ∷ [])
        × (placed modules places number m v.base v.offset ≡ pos (section_run modules places number m p.current + size_at p.sections p.current)) }
    ensures loaded { (modules : List Contents) (places : List Place) (number : ℕ) (m : Contents) (name : List ℕ) (p q : Progress) → name_loaded name p ≡ Ok q
        → (v : Value) × (q.names ≡ p.names ++ (name, v) ∷ [])
        × (placed modules places number m v.base v.offset ≡ pos (section_base modules places number m p.current + size_at p.sections p.current)) }
{}

/// The words of a program at each instruction statement of its sources, on page 0 and on page 1, read where
/// they are loaded as the statement's mnemonic with the numbers of its operands: the values of the
/// expressions under the map, cut to their fields.
pub fn program_words_read_as_statements()
    ensures program { (files : Files) (names : List (List ℕ)) (modules : List Contents) (command : CommandData) (image : ImageData)
        → AreModulesOf files names modules → (p : IsProgram modules command image)
        → All (ReadsAs image.program) (loaded_statements (program_statements files names modules p.places)) }
    ensures stored { (files : Files) (names : List (List ℕ)) (modules : List Contents) (command : CommandData) (image : ImageData)
        → AreModulesOf files names modules → (p : IsProgram modules command image)
        → All (ReadsAs image.store) (page_statements 1 files names modules p.places) }
{}

/// The words of a program are those of its sources, item by item over their lines, each at its address: of an
/// instruction by the opcode table with the numbers of its operands, of `.word`, `.int` and `.byte` the
/// values of the operands, of `.string` the packed characters, of `.space` zeros. So the modules' sections
/// with their relocations and the sources give the same words on both pages.
pub fn program_words_are_the_sources()
    ensures each { (files : Files) (names : List (List ℕ)) (modules : List Contents) (places : List Place) (page address word : ℕ)
        → AreModulesOf files names modules
        → HasSourceWord files names modules places page address word ↔ HasWord modules places page address word }
    ensures pages { (files : Files) (names : List (List ℕ)) (modules : List Contents) (command : CommandData) (image : ImageData)
        → AreModulesOf files names modules → (p : IsProgram modules command image)
        → HasSourceWords files names modules p.places 0 image.program × HasSourceWords files names modules p.places 1 image.store }
{}

/// A program runs as its source statements say. Its first state holds the words of the instruction statements
/// of its sources. For all samples, interrupt lines and levels and any number of steps, the run of the
/// program's words ends as the run of the statements does, with the same state, outputs and memories
/// included, or at the same step for the same reason; and in every state of the run the words of the
/// statements are still there.
pub fn linked_images_run_as_statements()
    ensures image { (files : Files) (names : List (List ℕ)) (modules : List Contents) (command : CommandData) (image : ImageData) (samples : ℕ → List ℕ)
        → AreModulesOf files names modules → (p : IsProgram modules command image)
        → IsImageOf (program_statements files names modules p.places) (first_of_pages image.program image.store image.marks image.run_marks samples).world }
    ensures runs { (files : Files) (names : List (List ℕ)) (modules : List Contents) (command : CommandData) (image : ImageData) (samples : ℕ → List ℕ)
        → AreModulesOf files names modules → (p : IsProgram modules command image)
        → RunsAsStatements (program_statements files names modules p.places) (first_of_pages image.program image.store image.marks image.run_marks samples) }
    ensures words { (files : Files) (names : List (List ℕ)) (modules : List Contents) (command : CommandData) (image : ImageData) (samples : ℕ → List ℕ)
        → AreModulesOf files names modules → (p : IsProgram modules command image)
        → KeepsStatements (program_statements files names modules p.places) (first_of_pages image.program image.store image.marks image.run_marks samples) }
{}

/// Where block B0 holds the words of a section that runs there, as program memory holds them where the
/// section is loaded, each instruction statement of that section is executed under CNF 1 at the address where
/// it runs. The premise that the state is an image of the program's statements holds in every state of a run
/// of the program (`linked_images_run_as_statements`).
pub fn sections_held_in_b0_run()
    ensures { (files : Files) (names : List (List ℕ)) (modules : List Contents) (command : CommandData) (image : ImageData) (w : World)
        → AreModulesOf files names modules → (p : IsProgram modules command image) → IsImageOf (program_statements files names modules p.places) w
        → (section : Place) (run : ℕ) → place_named section.name p.places ≡ Some section → section.run ≡ Some run → HoldsSection w section run
        → (s : PlacedStatement) → Contains (all_statements files names modules p.places) s → s.section ≡ section.name
        → standing (program_statements files names modules p.places) true w s.run ≡ Some s.insn }
{}
