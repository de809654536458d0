//! The sources of images: that they are built, and the words of their programs.

ghost use Rattle.std.specs.Prelude.{◌≡◌, ◌<◌, ◌∷◌, [], List, true, ℕ};
ghost use Rattle.std.specs.FinMap as finite;
ghost use Rattle.std.specs.Ordering.{nat_cmp};
ghost use Rattle.c25_answer_laws.specs.ImageWords.{IsSameOrLeftOut};
ghost use Rattle.c25_answer_laws.specs.SameWords.{LoadAlike};
ghost use Rattle.c25_chain.specs.Built.{IsUnbuilt};
ghost use Rattle.c25_chain.specs.declared.fault.ChainFault.{ChainFault};
ghost use Rattle.c25_layout.specs.Layout.{ArePartsOf};
ghost use Rattle.c25_layout.specs.SourceText.{command_text, source_text};
ghost use Rattle.c25_layout.specs.declared.layout.Part.{Part};
ghost use Rattle.c25_layout.specs.Buildable.{IsBuildable};
ghost use Rattle.c25_layout.specs.Layouts.{IsLayout};
ghost use Rattle.c25_layout_laws.specs.Layouts.{IsEmpty};
ghost use Rattle.c25_meaning_assembly.specs.Sections.{is_file_name};
ghost use Rattle.c25_meaning_linking.specs.Linking.{ImageData};
ghost use Rattle.c25_source.specs.Answer.{files_of_parts};
ghost use Rattle.c25_source.specs.Rebuilt.{HasProgram};

use c25_layout_laws::assembling::{layouts_are_assembled, layouts_are_linked};
use c25_layout_laws::layouts::layouts_have_their_words;
use c25_layout_laws::lines::command_files_are_read;

/// Where the parts of an image are a layout, and their texts come to a program, this program has the words of the
/// image: the same at each address, or none in place of one of `blank` erased words, one after the other
/// (`words`). So where no words may be left out, the program loads the same words into both memories as each other
/// program with the words of the image and none in data memory, as the one that the image was made from (`alike`):
/// their answers agree (`answers_of_the_same_words_agree`).
pub fn sources_of_images_have_their_words()
    ensures words { (name : List ℕ) (words : finite.FinMap nat_cmp ℕ) (blank : ℕ) (parts : List Part) → IsLayout parts → ArePartsOf words blank parts →
        (p : HasProgram (files_of_parts name parts)) → (address : ℕ) → address < 65536 → IsSameOrLeftOut words blank address (finite.get words address) (finite.get p.image.program address) }
    ensures alike { (name : List ℕ) (words : finite.FinMap nat_cmp ℕ) (parts : List Part) → IsLayout parts → ArePartsOf words 0 parts →
        (p : HasProgram (files_of_parts name parts)) (other : ImageData) → ((address : ℕ) → address < 65536 → finite.get other.program address ≡ finite.get words address) → IsEmpty other.store →
        LoadAlike other p.image }
{
    layouts_have_their_words();
}

/// A build of the texts of a layout has no fault, whatever was taken for instructions: its source is assembled, its
/// command file is read, and linking places each section and fills each field. The layout has no more parts and names
/// than a module may have, no name stands twice or is a register's or a port's, and parts that run elsewhere than they
/// are loaded have room for that in block B0.
pub fn sources_of_layouts_are_built()
    ensures { (name : List ℕ) (parts : List Part) (r : ChainFault (List ℕ)) → is_file_name name ≡ true → IsBuildable parts →
        IsUnbuilt ((name, source_text parts) ∷ []) (name ∷ []) (command_text parts) r → ⊥ }
{
    command_files_are_read();
    layouts_are_assembled();
    layouts_are_linked();
}
