//! The fields that a line's operands fill, and the number of words that the line makes.

ghost use Rattle.std.specs.Prelude.{◌≡◌};
ghost use Rattle.c25_meaning_assembly.specs.Addresses.{ends_first};
ghost use Rattle.c25_meaning_assembly.specs.OperandFields.{field_of, word_of, target_size};
ghost use Rattle.c25_phases.specs.Sizes.{IsSize};

use c25_isa::size_of;
use c25_meaning_assembly::assembly::{DataWidth, Target};
use c25_meaning_language::statement::{Field, Form};
use c25_statements::fields::form_field;
use c25_statements::forms::form_row;

/// The field that the operand at an index fills.
pub(crate) fn field_of(target: Target, index: usize) -> Field
    ensures { result ≡ field_of target index }
{
    match target {
        Target::Instruction(form) => form_field(form, index),
        Target::Data(DataWidth::Word) => Field::Word,
        Target::Data(DataWidth::Byte) => Field::Byte,
    }
}

/// The index, in its line's words, of the word that the field of the operand at an index is in, for a field
/// that may hold an address.
pub(crate) fn word_of(field: Field, index: usize) -> usize
    ensures { result ≡ word_of field index }
{
    match field {
        Field::Low7 | Field::Page9 => 0,
        Field::Word16 => 1,
        _ => index,
    }
}

/// How many words a line makes, by its number of operands.
pub(crate) fn target_size(target: Target, operands: usize) -> usize
    ensures value { result ≡ target_size target operands }
    ensures some { IsSize target result }
{
    match target {
        Target::Instruction(form) => size_of(form_row(form)) as usize,
        Target::Data(_) => operands,
    }
}

/// Whether the second word of an instruction is written first.
pub(crate) fn ends_first(target: Target) -> bool
    ensures { result ≡ ends_first target }
{
    match target {
        Target::Instruction(Form::LongMem(_, _)) => true,
        _ => false,
    }
}
