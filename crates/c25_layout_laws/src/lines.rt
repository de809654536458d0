//! Laws of the texts of layouts, each the contract of a function that does nothing.

ghost use Rattle.std.specs.Prelude.{◌≡◌, List, Ok};
ghost use Rattle.c25_layout.specs.SourceText.{command_text};
ghost use Rattle.c25_layout.specs.declared.layout.Part.{Part};
ghost use Rattle.c25_layout.specs.Layouts.{IsLayout};
ghost use Rattle.c25_layout_laws.specs.Listed.{command_for};
ghost use Rattle.c25_meaning_linking.specs.CommandText.{command_of};

/// The command file of a layout is read as what it is to say: a section for each part, loaded at the part's
/// address on page 0.
pub fn command_files_are_read()
    ensures { (parts : List Part) → IsLayout parts → command_of (command_text parts) ≡ Ok (command_for parts) }
{}
