//! Laws of the sources of layouts, each the contract of a function that calls the laws that it rests on.

ghost use Rattle.std.specs.Prelude.{◌≡◌, ◌∷◌, [], List, Ok, Some, true, ℕ};
ghost use Rattle.c25_layout.specs.SourceText.{command_text, source_text};
ghost use Rattle.c25_layout.specs.declared.layout.Part.{Part};
ghost use Rattle.c25_laws.specs.ProgramStatements.{AreModulesOf};
ghost use Rattle.c25_layout.specs.Buildable.{IsAssemblable, IsBuildable};
ghost use Rattle.c25_layout_laws.specs.Listed.{command_for};
ghost use Rattle.c25_meaning_assembly.specs.ModuleOfSource.{Assembled, assembled};
ghost use Rattle.c25_meaning_assembly.specs.Sections.{is_file_name};
ghost use Rattle.c25_meaning_common.specs.declared.placed.Placed.{Placed};
ghost use Rattle.c25_meaning_expansion.specs.Files.{Files, text_named};
ghost use Rattle.c25_meaning_linking.specs.Command.{CommandData};
ghost use Rattle.c25_meaning_linking.specs.CommandText.{command_of};
ghost use Rattle.c25_meaning_linking.specs.Linking.{ImageData, IsProgram, IsRefusal};
ghost use Rattle.c25_meaning_linking.specs.declared.link_fault.LinkFault.{LinkFault};
ghost use Rattle.c25_meaning_objects.specs.Module.{Contents};

use c25_cmd::laws::spelled_commands_keep_the_rules;
use c25_module_laws::assembly_laws::sources_make_modules;
use c25_program_laws::programs::placed_modules_have_a_program;

/// The source of a layout is assembled, whatever was taken for instructions and wherever names stand, if it has no
/// more parts and names than a module may have, no name stands twice, and none is a register's or a port's.
pub fn layouts_are_assembled()
    ensures { (files : Files) (name : List ℕ) (parts : List Part)
        → text_named files name ≡ Some (source_text parts) → is_file_name name ≡ true → IsAssemblable parts
        → (a : Assembled) × (assembled files name ≡ Ok a) }
{}

/// Linking has no fault with the module of the source of such a layout under the layout's command file, if parts
/// that run elsewhere than they are loaded have room for that in block B0: each section has its place, and each field
/// takes its value.
pub fn layouts_are_linked()
    ensures { (files : Files) (name : List ℕ) (parts : List Part) (modules : List Contents) (command : CommandData) (refusal : Placed (List ℕ) LinkFault)
        → text_named files name ≡ Some (source_text parts) → is_file_name name ≡ true → IsBuildable parts
        → AreModulesOf files (name ∷ []) modules → command_of (command_text parts) ≡ Ok command → IsRefusal modules command refusal
        → ⊥ }
{}

/// Such a layout has a program: where its source has a module, this is linked under the layout's command file. There are
/// the words of both pages, the marks, the lines and the map.
pub fn layouts_have_a_program()
    ensures { (files : Files) (name : List ℕ) (parts : List Part) (modules : List Contents)
        → text_named files name ≡ Some (source_text parts) → is_file_name name ≡ true → IsBuildable parts
        → AreModulesOf files (name ∷ []) modules → (image : ImageData) × IsProgram modules (command_for parts) image }
{
    sources_make_modules();
    spelled_commands_keep_the_rules();
    placed_modules_have_a_program();
}
