//! Laws of names and of lines, each the contract of a function with an empty body.

ghost use Rattle.std.specs.Prelude.{◌≡◌, List, ℕ, filter, map, Some, true};
ghost use Rattle.std.specs.List.Sorted.{IsPermutation};
ghost use Rattle.c25_meaning_assembly.specs.Sections.{Definitions};
ghost use Rattle.c25_meaning_expansion.specs.Files.{Files};
ghost use Rattle.c25_meaning_image.specs.Marks.{fit_from};
ghost use Rattle.c25_meaning_language.specs.Tree.{Tree};
ghost use Rattle.c25_meaning_language.specs.declared.statement.Field.{Field};
ghost use Rattle.c25_meaning_linking.specs.Command.{CommandData};
ghost use Rattle.c25_meaning_linking.specs.Linking.{ImageData, IsProgram, line_at};
ghost use Rattle.c25_meaning_linking.specs.Place.{Place};
ghost use Rattle.c25_meaning_linking.specs.Words.{name_value};
ghost use Rattle.c25_meaning_objects.specs.Module.{Contents};
ghost use Rattle.std.specs.List.{Contains};
ghost use Rattle.c25_laws.specs.ProgramStatements.{AreModulesOf, all_statements, stands_on};
ghost use Rattle.c25_laws.specs.SourceValues.{name_under, operand_number, placed};
ghost use Rattle.c25_statement_laws.specs.ExportedNames.{IsExported, IsImported, name_from, number_from};
ghost use Rattle.c25_statement_laws.specs.StatementLines.{TracedStatement, is_on_page_0, line_of, traced_statements};

/// A name of another source has the value that the source's own lines give it: in a program the value of each
/// name that a source exports is that of its entry there, at the addresses of that source's parts (`exported`), and
/// no two sources export one name (`once`). Each name that an operand needs and that its own source does not define
/// is exported by a source (`imported`). So no symbol of a module is needed for the values of names (`names`) and
/// the numbers of operands (`numbers`): they follow from the entries of the source itself, or else of the one that
/// exports the name.
pub fn exported_names_are_their_values()
    ensures exported { (files : Files) (names : List (List ℕ)) (modules : List Contents) (command : CommandData) (image : ImageData)
        → AreModulesOf files names modules → (p : IsProgram modules command image)
        → (text : List ℕ) (e : IsExported files names modules text)
        → name_value modules p.places text ≡ placed modules p.places e.number e.owner e.value.base e.value.offset }
    ensures once { (files : Files) (names : List (List ℕ)) (modules : List Contents) (command : CommandData) (image : ImageData)
        → AreModulesOf files names modules → IsProgram modules command image
        → (text : List ℕ) (d e : IsExported files names modules text) → (d.number ≡ e.number) × (d.value ≡ e.value) }
    ensures imported { (files : Files) (names : List (List ℕ)) (modules : List Contents) (command : CommandData) (image : ImageData)
        → AreModulesOf files names modules → IsProgram modules command image
        → (text : List ℕ) → IsImported files names text → IsExported files names modules text }
    ensures names { (files : Files) (names : List (List ℕ)) (modules : List Contents) (places : List Place)
        → AreModulesOf files names modules
        → (number : ℕ) (m : Contents) (own : Definitions) (text : List ℕ)
        → name_under modules places number m own text ≡ name_from files names modules places number m own text }
    ensures numbers { (files : Files) (names : List (List ℕ)) (modules : List Contents) (places : List Place)
        → AreModulesOf files names modules
        → (number : ℕ) (m : Contents) (own : Definitions) (section offset : ℕ) (f : Field) (e : Tree)
        → operand_number modules places number m own section offset f e ≡ number_from files names modules places number m own section offset f e }
{}

/// The lines of a program are those of its instruction statements. The statements with their lines are those of
/// the program, one for one and in one order (`statements`). The lines of the image are exactly the load addresses,
/// sizes, files and lines of the statements on page 0, in ascending order (`lines`), so the line that is found at
/// the address where a statement is loaded is the statement's (`found`).
pub fn lines_are_statements()
    ensures statements { (files : Files) (names : List (List ℕ)) (modules : List Contents) (places : List Place)
        → map (λ t. t.statement) (traced_statements files names modules places) ≡ all_statements files names modules places }
    ensures lines { (files : Files) (names : List (List ℕ)) (modules : List Contents) (command : CommandData) (image : ImageData)
        → AreModulesOf files names modules → (p : IsProgram modules command image)
        → IsPermutation (map line_of (filter is_on_page_0 (traced_statements files names modules p.places))) image.lines
        × (fit_from 0 (map (λ l. l.mark) image.lines) ≡ true) }
    ensures found { (files : Files) (names : List (List ℕ)) (modules : List Contents) (command : CommandData) (image : ImageData)
        → AreModulesOf files names modules → (p : IsProgram modules command image)
        → (t : TracedStatement) → Contains (traced_statements files names modules p.places) t → is_on_page_0 t ≡ true
        → line_at t.statement.load image.lines ≡ Some (t.origin.file, t.origin.line) }
{}
