//! Laws of the lines from which absolute operands are taken, each the contract of a function that does nothing.

ghost use Rattle.std.specs.Prelude.{◌≡◌, ℕ, List, Ok};
ghost use Rattle.c25_absolute_operands.specs.Assembled.{HasLines};
ghost use Rattle.c25_meaning_assembly.specs.ModuleOfSource.{Assembled, assembled};
ghost use Rattle.c25_meaning_expansion.specs.Files.{Files};

/// The lines of a source that is assembled are all there, and their names and places are those of its module: so no
/// absolute operand of a program is left out because a line has a fault.
pub fn assembled_sources_have_lines()
    ensures { (files : Files) (name : List ℕ) (a : Assembled) → assembled files name ≡ Ok a → HasLines files name a.contents }
{}
