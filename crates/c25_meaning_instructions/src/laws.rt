//! Laws of the instruction set, each the contract of a function that does nothing.

ghost use Rattle.std.specs.Prelude.{◌≡◌, ℕ, ◌+◌, ◌<◌, ◌/◌, ℤ};
ghost use Rattle.c25_meaning_instructions.specs.Table.{Reads};
ghost use Rattle.c25_meaning_instructions.specs.declared.insn.Insn.{Insn};
ghost use Rattle.c25_meaning_common.specs.Fields.{field_number, read_field, filled};
ghost use Rattle.c25_meaning_common.specs.Fields.{field_values};
ghost use Rattle.c25_meaning_instructions.specs.RelocatedInsn.{HasField, with_field};
ghost use Rattle.c25_meaning_common.specs.declared.relocation.RelocationKind.{RelocationKind};
ghost use Rattle.c25_meaning_common.specs.declared.relocation.RelocationKind.TheVariants as kind;

/// Two words in a row read as one instruction at most, whatever numbers they are.
pub fn words_have_one_reading()
    ensures { (first second : ℕ) (i j : Insn) → Reads first second i → Reads first second j → i ≡ j }
{}

/// The number that linking makes of any value for a field fits the field. Once it has been put there it is
/// read back, and all other bits are as they were; where the field was 0, putting the number is adding it to
/// the word.
pub fn fields_keep_their_number()
    ensures fits { (kind : RelocationKind) (value : ℤ) → field_number kind value < field_values kind }
    ensures read { (kind : RelocationKind) (number word : ℕ) → number < field_values kind → read_field kind (filled kind number word) ≡ number }
    ensures others { (kind : RelocationKind) (number word : ℕ) → number < field_values kind → filled kind number word / field_values kind ≡ word / field_values kind }
    ensures zero { (kind : RelocationKind) (number word : ℕ) → read_field kind word ≡ 0 → filled kind number word ≡ word + number }
{}

/// Where the field of an instruction holds 0, the words that linking leaves read as the instruction
/// with the number of the field's value.
pub fn filled_words_read_back()
    ensures low { (first second : ℕ) (value : ℤ) (insn : Insn) → Reads first second insn → HasField kind.Low7 insn → read_field kind.Low7 first ≡ 0
        → Reads (filled kind.Low7 (field_number kind.Low7 value) first) second (with_field kind.Low7 (field_number kind.Low7 value) insn) }
    ensures page { (first second : ℕ) (value : ℤ) (insn : Insn) → Reads first second insn → HasField kind.Page9 insn → read_field kind.Page9 first ≡ 0
        → Reads (filled kind.Page9 (field_number kind.Page9 value) first) second (with_field kind.Page9 (field_number kind.Page9 value) insn) }
    ensures word { (first second : ℕ) (value : ℤ) (insn : Insn) → Reads first second insn → HasField kind.Word16 insn → read_field kind.Word16 second ≡ 0
        → Reads first (filled kind.Word16 (field_number kind.Word16 value) second) (with_field kind.Word16 (field_number kind.Word16 value) insn) }
{}
