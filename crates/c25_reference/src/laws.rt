//! A law of the reference, the contract of a function that does nothing.

ghost use Rattle.std.specs.Prelude.{◌≡◌, ℕ, List, Some, IsSome};
ghost use Rattle.c25_meaning_assembly.specs.AssemblyLine as assembly;
ghost use Rattle.c25_meaning_assembly.specs.declared.assembly.Directive.{Directive};
ghost use Rattle.c25_meaning_expansion.specs.Acts as expansion;
ghost use Rattle.c25_meaning_expansion.specs.declared.expansion.Directive as acts;
ghost use Rattle.c25_meaning_instructions.specs.Spellings.{spelling_of};
ghost use Rattle.c25_meaning_instructions.specs.Table.{spelling_text};
ghost use Rattle.c25_meaning_instructions.specs.declared.mnemonic.Spelling.{Spelling};
ghost use Rattle.c25_reference.specs.Entries.{directive_named, instruction_named};

/// Each word that is read as an instruction has the entry of that instruction, and each that is read as a directive, by the
/// assembler or by expansion, has one.
pub fn words_have_entries()
    ensures instructions { (word : List ℕ) (s : Spelling) → spelling_of word ≡ Some s → instruction_named word ≡ Some (spelling_text s) }
    ensures directives { (word : List ℕ) (d : Directive) → assembly.directive_of word ≡ Some d → IsSome (directive_named word) }
    ensures expansion { (word : List ℕ) (d : acts.Directive) → expansion.directive_of word ≡ Some d → IsSome (directive_named word) }
{}
