//! A law of disassembled texts: the contract of a function with an empty body.

ghost use Rattle.std.specs.Prelude.{◌≡◌, ℕ, ◌<◌, ◌^◌, true, List, Some, Ok};
ghost use Rattle.std.specs.List.{All, slice_get};
ghost use Rattle.std.specs.FinMap.{FinMap};
ghost use Rattle.std.specs.Ordering.{nat_cmp};
ghost use Rattle.c25_dis.specs.Words.{IsWordsText, word_at};
ghost use Rattle.c25_print_laws.specs.Column.{source_of_text};
ghost use Rattle.c25_meaning_assembly.specs.Sections.{is_file_name};
ghost use Rattle.c25_meaning_expansion.specs.Files.{Files, text_named};
ghost use Rattle.c25_meaning_assembly.specs.ModuleOfSource.{Assembled, assembled};
ghost use Rattle.c25_print_laws.specs.Source.{IsTextOf};

/// The disassembly of words is a source of these words. Where words of 16 bits are at the addresses from 0
/// on, without a gap, the lines printed of them, each without its columns and put after a blank, assemble to
/// a module of one section with these words.
pub fn words_texts_are_sources_of_their_words()
    ensures { (words : FinMap nat_cmp ℕ) (ws text : List ℕ) (files : Files) (name : List ℕ) → ((k : ℕ) → word_at words k ≡ slice_get ws k)
        → All (λ w. w < 2 ^ 16) ws → IsWordsText words 0 text → text_named files name ≡ Some (source_of_text text) → is_file_name name ≡ true
        → (a : Assembled) × (assembled files name ≡ Ok a) × IsTextOf ws a.contents }
{}
