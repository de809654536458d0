//! That modules have a program, where nothing is wrong with them.

ghost use Rattle.std.specs.Prelude.{◌≡◌, All, List, None, Ok};
ghost use Rattle.c25_meaning_linking.specs.Command.{CommandData, IsCommand};
ghost use Rattle.c25_meaning_linking.specs.GoodMap.{IsGoodMap};
ghost use Rattle.c25_meaning_linking.specs.Linking.{ImageData, IsProgram, first_spilled, names_checked};
ghost use Rattle.c25_meaning_linking.specs.Place.{Place};
ghost use Rattle.c25_meaning_objects.specs.Module.{Contents, IsModule};

/// Modules under a command have a program, where their names are in order, their sections have places, and each field
/// takes its value: there are the words of both pages, the marks, the lines and the map.
pub fn placed_modules_have_a_program()
    ensures { (modules : List Contents) (command : CommandData) (places : List Place)
        → All IsModule modules → IsCommand command → names_checked modules command.entry ≡ Ok tt → IsGoodMap modules command places → first_spilled modules places ≡ None
        → (image : ImageData) × IsProgram modules command image }
{}
