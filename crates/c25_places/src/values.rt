//! What the values of a line's operands are for.

ghost use Rattle.std.specs.Prelude.{◌≡◌, IfOk};
ghost use Rattle.c25_meaning_assembly.specs.OperandFields.{field_of};
ghost use Rattle.c25_expr.specs.Pieces.{operands_view};
ghost use Rattle.c25_places.specs.Values.{role_of, directive_purpose, purpose_of};

use crate::wanted::Operation;
use c25_meaning_assembly::assembly::{DataWidth, Directive, Target};
use c25_meaning_common::failure::Failure;
use c25_meaning_common::no_memory::NoMemory;
use c25_meaning_language::statement::Field;
use c25_statements::fields::form_field;
use c25_statements::operation_of;
use c25_text::tokens::Token;
use std::alloc::Global;

/// What the value of an operand is for.
#[derive(Clone, Copy)]
pub enum Role {
    /// It fills a field or a word.
    Fills(Field),
    /// It is a count of words or bits.
    Counts,
    /// It is a flag.
    Decides,
    /// It is the value of a name.
    Names,
}

/// What the values of a line are for.
#[derive(Clone, Copy)]
pub enum Purpose {
    /// They fill the fields or the words of the line.
    Fields(Target),
    /// The first is a count, the second a flag.
    Room,
    /// The only one is the value of a name.
    Named,
}

/// What a line does, and what its values are for.
#[derive(Clone, Copy)]
pub struct LineValues {
    pub operation: Operation,
    pub purpose: Purpose,
}

/// The field that the value at an index fills.
fn field_of(target: Target, index: usize) -> Field
    ensures { result ≡ field_of target index }
{
    match target {
        Target::Instruction(form) => form_field(form, index),
        Target::Data(DataWidth::Word) => Field::Word,
        Target::Data(DataWidth::Byte) => Field::Byte,
    }
}

/// What the value at an index, counted from 0, is for.
pub(crate) fn role_of(purpose: Purpose, index: usize) -> Role
    ensures { result ≡ role_of purpose index }
{
    match purpose {
        Purpose::Fields(target) => Role::Fills(field_of(target, index)),
        Purpose::Room if index == 0 => Role::Counts,
        Purpose::Room => Role::Decides,
        Purpose::Named => Role::Names,
    }
}

fn directive_purpose(directive: Directive) -> Option<Purpose>
    ensures { result ≡ directive_purpose directive }
{
    match directive {
        Directive::Word => Some(Purpose::Fields(Target::Data(DataWidth::Word))),
        Directive::Byte => Some(Purpose::Fields(Target::Data(DataWidth::Byte))),
        Directive::Bss | Directive::Usect | Directive::Space => Some(Purpose::Room),
        Directive::Set => Some(Purpose::Named),
        _ => None,
    }
}

/// What the values of a line are for; None where it has none.
pub(crate) fn purpose_of(
    alloc: Global,
    operation: Operation,
    operands: &[&[Token<'_>]],
) -> Result<Option<Purpose>, NoMemory>
    ensures { IfOk result (λ purpose. purpose ≡ purpose_of operation (operands_view operands.now)) }
{
    match operation {
        Operation::Does(directive) => Ok(directive_purpose(directive)),
        Operation::Runs(spelling) => match operation_of(alloc, spelling, operands) {
            Ok(made) => Ok(Some(Purpose::Fields(Target::Instruction(made.form)))),
            Err(Failure::Fault(_)) => Ok(None),
            Err(Failure::NoMemory(error)) => Err(error),
        },
    }
}
