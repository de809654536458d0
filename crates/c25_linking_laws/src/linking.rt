//! Laws of linked programs, each the contract of a function with an empty body.

ghost use Rattle.std.specs.Prelude.{◌≡◌, ◌<◌, ◌^◌, All, List, Ok, length, map, ℕ};
ghost use Rattle.std.specs.List.Sorted.{IsNonDecreasingBy, IsPermutation};
ghost use Rattle.c25_meaning_linking.specs.Command.{CommandData, IsCommand};
ghost use Rattle.c25_meaning_image.specs.WordMap.{IsWordMap};
ghost use Rattle.c25_meaning_image.specs.declared.mark.Mark.{Mark};
ghost use Rattle.c25_meaning_image.specs.declared.mark.RunMark.{RunMark};
ghost use Rattle.c25_meaning_linking.specs.GoodMap.{IsGoodMap};
ghost use Rattle.c25_meaning_linking.specs.Linking.{HasMarks, HasRunMarks, ImageData, IsProgram, map_of, names_checked};
ghost use Rattle.c25_meaning_linking.specs.MapText.{IsPrinted};
ghost use Rattle.c25_meaning_linking.specs.Place.{Place};
ghost use Rattle.c25_meaning_linking.specs.Words.{HasWord, program_run_marks};
ghost use Rattle.c25_meaning_objects.specs.Module.{Contents, IsModule};

/// Modules under a command are linked to at most one program: the words, marks, run marks, lines and map are
/// determined.
pub fn modules_have_one_program()
    ensures { (modules : List Contents) (command : CommandData) (image other : ImageData)
        → IsProgram modules command image → IsProgram modules command other → image ≡ other }
{}

/// The map of a program has the places at which its modules were linked. All lines of the map of modules at
/// good places are valid, so the map's text is the text of no other map.
pub fn program_maps_have_their_form()
    ensures places { (modules : List Contents) (command : CommandData) (image : ImageData) → (p : IsProgram modules command image)
        → map (λ s. s.place) image.described.sections ≡ p.places }
    ensures printed { (modules : List Contents) (command : CommandData) (places : List Place)
        → All IsModule modules → length modules < 2 ^ 64 → IsCommand command → names_checked modules command.entry ≡ Ok tt → IsGoodMap modules command places
        → IsPrinted (map_of modules command.entry places) }
{}

/// The instructions of modules at good places that run elsewhere than they are loaded, in the order
/// in which they run, run apart from one another in block B0, and their loaded words are words of no
/// other instruction.
pub fn instructions_run_apart()
    ensures { (modules : List Contents) (command : CommandData) (places : List Place)
        → All IsModule modules → IsCommand command → IsGoodMap modules command places
        → (marks : List Mark) (run_marks : List RunMark) → HasMarks modules places marks → IsPermutation (program_run_marks modules places) run_marks
        → IsNonDecreasingBy (λ m. m.run) run_marks → HasRunMarks modules places marks run_marks }
{}

/// Each word of modules that are linked under a command lies within its page and has 16 bits, and so does
/// each word of both pages of a program.
pub fn program_words_have_16_bits()
    ensures each { (modules : List Contents) (command : CommandData) (places : List Place) (page address word : ℕ)
        → All IsModule modules → IsCommand command → IsGoodMap modules command places → HasWord modules places page address word
        → (address < 2 ^ 16) × (word < 2 ^ 16) }
    ensures pages { (modules : List Contents) (command : CommandData) (image : ImageData)
        → All IsModule modules → IsCommand command → IsProgram modules command image → IsWordMap image.program × IsWordMap image.store }
{}
