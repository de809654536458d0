//! Laws of disassembled texts, each the contract of a function that does nothing.

ghost use Rattle.std.specs.Prelude.{◌≡◌, ℕ, List, Option, Some};
ghost use Rattle.std.specs.FinMap.{FinMap};
ghost use Rattle.std.specs.Ordering.{nat_cmp};
ghost use Rattle.c25_dis.specs.Lines.{IsCode};
ghost use Rattle.c25_dis.specs.Sections.{second_at, IsLineAt, IsModuleText};
ghost use Rattle.c25_dis.specs.Words.{IsWordLine, IsWordsText};
ghost use Rattle.c25_meaning_instructions.specs.declared.insn.Insn.{Insn};
ghost use Rattle.c25_meaning_objects.specs.Module.{Contents};

/// The lists of a module have one text at most.
pub fn one_module_has_one_text()
    ensures { (m : Contents) (one other : List ℕ) → IsModuleText m one → IsModuleText m other → one ≡ other }
{}

/// The words from an address on have one text at most.
pub fn words_have_one_text()
    ensures { (words : FinMap nat_cmp ℕ) (from : ℕ) (one other : List ℕ) → IsWordsText words from one → IsWordsText words from other → one ≡ other }
{}

/// Where a line shows an instruction, in the text of a module or of words, its words are those of the
/// line and its operands are in range: so [`encode`](c25_isa::encode) gives the line's words again.
pub fn instructions_have_the_words_of_their_lines()
    ensures marked { (m : Contents) (section place first : ℕ) (text : List ℕ) (line : IsLineAt m section place first text) (i : Insn)
        → line.insn ≡ Some i → IsCode first (second_at m section place) i }
    ensures unmarked { (next : Option ℕ) (address word : ℕ) (was end : Option ℕ) (text : List ℕ) (line : IsWordLine next address word was end text) (i : Insn)
        → line.insn ≡ Some i → IsCode word line.second i }
{}
