//! Laws of printed instructions and words, each the contract of a function with an empty body.

ghost use Rattle.std.specs.Prelude.{◌≡◌, ℕ, ◌<◌, ◌≤◌, ◌^◌, true, List, [], ◌∷◌, ◌++◌, length, codes, Some, Ok};
ghost use Rattle.std.specs.List.{All, flat_map};
ghost use Rattle.c25_meaning_instructions.specs.Show.{show, long_text};
ghost use Rattle.c25_meaning_instructions.specs.Table.{InRange, words};
ghost use Rattle.c25_meaning_instructions.specs.declared.insn.Insn.{Insn};
ghost use Rattle.c25_meaning_assembly.specs.Sections.{is_file_name};
ghost use Rattle.c25_meaning_expansion.specs.Files.{Files, text_named};
ghost use Rattle.c25_meaning_assembly.specs.ModuleOfSource.{Assembled, assembled};
ghost use Rattle.c25_print_laws.specs.Saying.{Says, Makes};
ghost use Rattle.c25_print_laws.specs.Source.{Printed, words_in, IsInRange, source_of, IsTextOf};

/// The printed text of an instruction, after a blank, is a source line that says this instruction, whatever
/// symbols there are; and a line that says an instruction makes its words.
pub fn printed_instructions_read_back()
    ensures line { (i : Insn) → InRange i → Says (codes " " ++ show i) i }
    ensures words { (text : List ℕ) (i : Insn) → Says text i → Makes text (words i) }
{}

/// The printed text of one or two words as data, after a blank, is a source line that makes these words,
/// whatever symbols there are.
pub fn printed_words_read_back()
    ensures one { (n : ℕ) → n < 2 ^ 16 → Makes (codes " .word " ++ long_text n) (n ∷ []) }
    ensures two { (m n : ℕ) → m < 2 ^ 16 → n < 2 ^ 16 → Makes (codes " .word " ++ long_text m ++ codes "," ++ long_text n) (m ∷ n ∷ []) }
{}

/// A source of printed lines, each after a blank, assembles to a module of one section with the words of all
/// lines one after the other, if there are at most 65,536.
pub fn printed_sources_have_their_words()
    ensures { (files : Files) (name : List ℕ) (ps : List Printed) → text_named files name ≡ Some (source_of ps) → is_file_name name ≡ true
        → All IsInRange ps → length (flat_map words_in ps) ≤ 65536
        → (a : Assembled) × (assembled files name ≡ Ok a) × IsTextOf (flat_map words_in ps) a.contents }
{}
