//! A law of the definitions.

ghost use Rattle.std.specs.Prelude.{◌≡◌};
ghost use Rattle.c25_meaning_instructions.specs.Table.{mnemonic_of};
ghost use Rattle.c25_meaning_instructions.specs.declared.insn.Insn.{Insn};
ghost use Rattle.c25_meaning_instructions.specs.declared.mnemonic.Spelling.TheVariants.{Row};
ghost use Rattle.c25_meaning_processor.specs.Step as processor;
ghost use Rattle.c25_line_warnings.specs.Instructions.{is_unrepeatable};

/// The instructions that are warned of after `RPT` and `RPTK` are those at which the processor stops in a
/// repeat.
pub fn warned_repeats_are_those_that_stop()
    ensures { (i : Insn) → is_unrepeatable (Row (mnemonic_of i)) ≡ processor.is_unrepeatable i }
{}
