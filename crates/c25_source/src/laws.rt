//! That the source of an image is right, without a build of it.

ghost use Rattle.std.specs.Prelude.{◌≡◌, List, true, ℕ};
ghost use Rattle.std.specs.FinMap as finite;
ghost use Rattle.std.specs.Ordering.{nat_cmp};
ghost use Rattle.c25_layout.specs.Buildable.{IsBuildable};
ghost use Rattle.c25_layout.specs.Layout.{ArePartsOf};
ghost use Rattle.c25_layout.specs.declared.layout.Part.{Part};
ghost use Rattle.c25_meaning_assembly.specs.Sections.{is_file_name};
ghost use Rattle.c25_source.specs.Answer.{files_of_parts};
ghost use Rattle.c25_source.specs.Rebuilt.{IsRebuilt};

use c25_cmd::laws::spelled_commands_keep_the_rules;
use c25_layout_laws::assembling::{layouts_are_assembled, layouts_have_a_program};
use c25_layout_laws::layouts::layouts_have_their_words;
use c25_layout_laws::lines::command_files_are_read;
use c25_linking_laws::linking::program_maps_have_their_form;
use c25_module_laws::assembly_laws::sources_make_modules;

/// The texts of the parts of an image are built to its words, where nothing hinders that: they have a program, with
/// its hex texts, its map and its listings, and this has the word of the image at each address but for such erased ones
/// as stand `blank` at least one after the other. So a source of an image is right without a build.
pub fn images_are_rebuilt()
    ensures { (name : List ℕ) (words : finite.FinMap nat_cmp ℕ) (blank : ℕ) (parts : List Part) → is_file_name name ≡ true → IsBuildable parts → ArePartsOf words blank parts →
        IsRebuilt (files_of_parts name parts) words blank }
{
    command_files_are_read();
    layouts_are_assembled();
    layouts_have_a_program();
    layouts_have_their_words();
    sources_make_modules();
    spelled_commands_keep_the_rules();
    program_maps_have_their_form();
}
