//! Laws of programs of layouts, each the contract of a function that calls the laws that it rests on.

ghost use Rattle.std.specs.Prelude.{◌≡◌, ◌∷◌, [], List, ℕ, Ok, Some};
ghost use Rattle.c25_layout.specs.SourceText.{command_text, source_text};
ghost use Rattle.c25_layout.specs.declared.layout.Part.{Part};
ghost use Rattle.c25_layout.specs.Layouts.{IsLayout};
ghost use Rattle.c25_layout_laws.specs.Layouts.{HasMarksOf, HasWordsOf, IsEmpty};
ghost use Rattle.c25_laws.specs.ProgramStatements.{AreModulesOf};
ghost use Rattle.c25_meaning_expansion.specs.Files.{Files, text_named};
ghost use Rattle.c25_meaning_linking.specs.Command.{CommandData};
ghost use Rattle.c25_meaning_linking.specs.CommandText.{command_of};
ghost use Rattle.c25_meaning_linking.specs.Linking.{ImageData, IsProgram};
ghost use Rattle.c25_meaning_objects.specs.Module.{Contents};

use c25_laws::program_laws::{program_marks_are_statements, program_words_are_the_sources};

/// A program that comes of the texts of a layout has its words and its instructions, whatever was taken for
/// instructions and wherever names stand: each word of the parts is at its address, and the program has no other
/// words in program memory (`words`) and none in data memory (`store`); its marks are the places of the instructions of the parts that run where
/// they are loaded, and its run marks those of the instructions that run in block B0 (`marks`).
pub fn layouts_have_their_words()
    ensures words { (files : Files) (name : List ℕ) (parts : List Part) (modules : List Contents) (command : CommandData) (image : ImageData)
        → text_named files name ≡ Some (source_text parts) → IsLayout parts
        → AreModulesOf files (name ∷ []) modules → command_of (command_text parts) ≡ Ok command → IsProgram modules command image
        → HasWordsOf parts image.program }
    ensures store { (files : Files) (name : List ℕ) (parts : List Part) (modules : List Contents) (command : CommandData) (image : ImageData)
        → text_named files name ≡ Some (source_text parts) → IsLayout parts
        → AreModulesOf files (name ∷ []) modules → command_of (command_text parts) ≡ Ok command → IsProgram modules command image
        → IsEmpty image.store }
    ensures marks { (files : Files) (name : List ℕ) (parts : List Part) (modules : List Contents) (command : CommandData) (image : ImageData)
        → text_named files name ≡ Some (source_text parts) → IsLayout parts
        → AreModulesOf files (name ∷ []) modules → command_of (command_text parts) ≡ Ok command → IsProgram modules command image
        → HasMarksOf parts image.marks image.run_marks }
{
    program_marks_are_statements();
    program_words_are_the_sources();
}
