//! Laws of the second formulation, each the contract of a function that does nothing.

ghost use Rattle.std.specs.Prelude.{◌≡◌, ℕ, ◌+◌, ◌^◌, ◌<◌, ◌↔◌, ℤ, pos, int_lt, int_le, Bool, true, false, IfOk, bit_and, bit_or, bit_xor};
ghost use Rattle.c25_bits.specs.Cut.{signed};
ghost use Rattle.c25_guide.specs.Affects.{Changes, Flag, affects, among, number_of, row_affects};
ghost use Rattle.c25_guide.specs.Patterns.{IsPrinted, first_word, row_text, value};
ghost use Rattle.c25_guide.specs.StatusWords.{loaded_st0, loaded_st1, st0_fields, st0_signs, st1_fields, st1_signs};
ghost use Rattle.c25_guide.specs.Sums.{added, divided, high_half, low_half, subtracted, through_shifter, with_sign_16, with_sign_32};
ghost use Rattle.c25_meaning_instructions.specs.Table.{Reads, row_of};
ghost use Rattle.c25_meaning_instructions.specs.declared.insn.Insn.{Insn};
ghost use Rattle.c25_meaning_instructions.specs.declared.mnemonic.Mnemonic.{Mnemonic};
ghost use Rattle.c25_meaning_instructions.specs.declared.mnemonic.JumpName.TheVariants as jump;
ghost use Rattle.c25_meaning_processor.specs.Arithmetic.{conditional_difference, difference, shifted_product, sum};
ghost use Rattle.c25_meaning_processor.specs.Effect.{branch, effect, jump_effect};
ghost use Rattle.c25_meaning_processor.specs.State.{World};
ghost use Rattle.c25_meaning_processor.specs.Status.{st0, st1, with_st0, with_st1};
ghost use Rattle.c25_meaning_processor.specs.declared.accumulator.Acc.{Acc};
ghost use Rattle.c25_meaning_processor.specs.declared.accumulator.ProductShift.{ProductShift};
ghost use Rattle.c25_meaning_processor.specs.declared.registers.Registers.{Registers};

/// Each row of bits and letters begins with the name of its row of the opcode table.
pub fn rows_have_their_names()
    ensures { (row : Mnemonic) → first_word (row_text row) ≡ (row_of row).name }
{}

/// Two words read as an instruction exactly where they are the bits of its row, with numbers that have room in
/// their letters: the rows of bits and letters say the same as the opcode table, ranges of operands included.
pub fn patterns_are_the_table()
    ensures { (first second : ℕ) (i : Insn) → Reads first second i ↔ IsPrinted first second i }
{}

/// A field of ST0 or ST1 stays as it is where neither the instruction's row nor the next auxiliary register
/// of its operand affects the field, if the instruction does not stop.
pub fn rows_affect_what_is_printed()
    ensures { (i : Insn) (f : Flag) (k : ℕ) (bio : Bool) (r : Registers) (w : World) → affects i f ≡ false
        → IfOk (effect i k bio r w) (λ s. number_of f s.registers ≡ number_of f r) }
{}

/// Each field that a row affects is changed by an instruction of the row in some state.
pub fn rows_change_what_they_affect()
    ensures { (row : Mnemonic) (f : Flag) → among f (row_affects row) ≡ true → Changes row f }
{}

/// Words and accumulators have the sign that a subtraction of 2 ^ 16 or 2 ^ 32 gives them.
pub fn signs_are_subtractions()
    ensures word { (n : ℕ) → with_sign_16 n ≡ signed n 16 }
    ensures acc { (n : ℕ) → with_sign_32 n ≡ signed n 32 }
{}

/// ACC, OV and C after a sum, a difference and a step of SUBC, with C as the bit that is carried out or borrowed and
/// the limits of the accumulator by comparison. SUBC has the premise that ACC has 32 bits.
pub fn sums_are_carried()
    ensures sums { (acc : Acc) (v : ℤ) (ovm : Bool) → added acc v ovm ≡ sum acc v ovm }
    ensures differences { (acc : Acc) (v : ℤ) (ovm : Bool) → subtracted acc v ovm ≡ difference acc v ovm }
    ensures divisions { (acc : Acc) (v : ℤ) → acc.value < 2 ^ 32 → divided acc v ≡ conditional_difference acc v }
{}

/// The product after the shifter that PM sets.
pub fn products_pass_the_shifter()
    ensures { (p : ℕ) (pm : ProductShift) → through_shifter p pm ≡ shifted_product p pm }
{}

/// AND, OR and XOR with a word act on bits 15-0 of ACC; AND clears bits 31-16, the others leave them alone.
pub fn logic_acts_on_the_low_half()
    ensures ands { (acc m : ℕ) → m < 2 ^ 16 → bit_and (low_half acc) m ≡ bit_and acc m }
    ensures ors { (acc m : ℕ) → m < 2 ^ 16 → high_half acc + bit_or (low_half acc) m ≡ bit_or acc m }
    ensures xors { (acc m : ℕ) → m < 2 ^ 16 → high_half acc + bit_xor (low_half acc) m ≡ bit_xor acc m }
{}

/// BLZ, BLEZ, BGZ and BGEZ compare the accumulator, as a number with its sign, with 0. The premise is that
/// ACC has 32 bits.
pub fn jumps_compare_with_zero()
    ensures less { (target : ℕ) (bio : Bool) (r : Registers) → r.acc.value < 2 ^ 32
        → jump_effect jump.Blz target bio r ≡ branch (int_lt (with_sign_32 r.acc.value) (pos 0)) target r }
    ensures less_or_equal { (target : ℕ) (bio : Bool) (r : Registers) → r.acc.value < 2 ^ 32
        → jump_effect jump.Blez target bio r ≡ branch (int_le (with_sign_32 r.acc.value) (pos 0)) target r }
    ensures greater { (target : ℕ) (bio : Bool) (r : Registers) → r.acc.value < 2 ^ 32
        → jump_effect jump.Bgz target bio r ≡ branch (int_lt (pos 0) (with_sign_32 r.acc.value)) target r }
    ensures greater_or_equal { (target : ℕ) (bio : Bool) (r : Registers) → r.acc.value < 2 ^ 32
        → jump_effect jump.Bgez target bio r ≡ branch (int_le (pos 0) (with_sign_32 r.acc.value)) target r }
{}

/// SST and SST1 store, and LST and LST1 load, each field at the signs of its letter. The premises are the widths of
/// ARP, ARB, DP and of a word.
pub fn status_words_are_printed()
    ensures st0 { (r : Registers) → r.arp < 8 → r.dp < 512 → value (st0_fields r) st0_signs ≡ st0 r }
    ensures st1 { (r : Registers) → r.arb < 8 → value (st1_fields r) st1_signs ≡ st1 r }
    ensures load_st0 { (word : ℕ) (r : Registers) → word < 2 ^ 16 → loaded_st0 word r ≡ with_st0 word r }
    ensures load_st1 { (word : ℕ) (r : Registers) → word < 2 ^ 16 → loaded_st1 word r ≡ with_st1 word r }
{}
