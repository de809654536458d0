//! The field that each operand of an instruction fills, and the number that a value gives a field.

ghost use Rattle.std.specs.Prelude.{◌≡◌, pos, negsuc};
ghost use Rattle.c25_bits.specs.Cut.{cut};
ghost use Rattle.c25_meaning_instructions.specs.Table.{shift_limit};
ghost use Rattle.c25_meaning_language.specs.Statement.{form_field, with_number, field_of_short, short_field, field_of_long, plain_field, addr_field, number_in, within, below, relocation_of};

use c25_meaning_common::relocation::RelocationKind;
use c25_meaning_instructions::mnemonic::{LongName, PlainName, ShiftedName, ShortName};
use c25_meaning_language::statement::{AddrForm, FaultKind, Field, Form};

/// The field of the memory operand: seven bits of a direct address, or the number of the next auxiliary
/// register.
fn addr_field(addr: AddrForm) -> Field
    ensures { result ≡ addr_field addr }
{
    match addr {
        AddrForm::Direct => Field::Low7,
        AddrForm::Indirect(_) => Field::Number(8),
    }
}

/// The field at an index of an instruction with a memory operand and one number below a limit: the number
/// comes after a direct address, but before a next auxiliary register.
fn with_number(addr: AddrForm, limit: u16, index: usize) -> Field
    ensures { result ≡ with_number addr limit index }
{
    match (addr, index) {
        (AddrForm::Direct, 0) => Field::Low7,
        (AddrForm::Direct, _) => Field::Number(limit),
        (AddrForm::Indirect(_), 0) => Field::Number(limit),
        (AddrForm::Indirect(_), _) => Field::Number(8),
    }
}

/// The limit of an instruction's shift: each shift is below it.
fn shift_limit(name: ShiftedName) -> u16
    ensures { result ≡ shift_limit name }
{
    match name {
        ShiftedName::Sacl | ShiftedName::Sach => 8,
        _ => 16,
    }
}

/// The field of a short constant.
fn short_field(name: ShortName) -> Field
    ensures { result ≡ short_field name }
{
    match name {
        ShortName::Ldpk => Field::Page9,
        ShortName::Mpyk => Field::Signed13,
        _ => Field::Number(256),
    }
}

/// The field at an index of an instruction with a short constant: `LARK` has a register first.
fn field_of_short(name: ShortName, index: usize) -> Field
    ensures { result ≡ field_of_short name index }
{
    match (name, index) {
        (ShortName::Lark, 0) => Field::Number(8),
        _ => short_field(name),
    }
}

/// The field at an index of an instruction with a constant of 16 bits: `LRLK` has a register before the
/// constant, the others have a shift after it.
fn field_of_long(name: LongName, index: usize) -> Field
    ensures { result ≡ field_of_long name index }
{
    match (name, index) {
        (LongName::Lrlk, 0) => Field::Number(8),
        (LongName::Lrlk, _) => Field::Word16,
        (_, 0) => Field::Word16,
        _ => Field::Number(16),
    }
}

/// The field of the number of `SPM`, `FORT` or `CMPR`; the other instructions of this family have no number.
fn plain_field(name: PlainName) -> Field
    ensures { result ≡ plain_field name }
{
    match name {
        PlainName::Fort => Field::Number(2),
        _ => Field::Number(4),
    }
}

/// The field that an operand of an instruction fills, by its index among the operands that are expressions,
/// from 0.
pub fn form_field(form: Form, index: usize) -> Field
    ensures { result ≡ form_field form index }
{
    match (form, index) {
        (Form::Mem(_, addr), _) => addr_field(addr),
        (Form::Shifted(name, addr), _) => with_number(addr, shift_limit(name), index),
        (Form::ArMem(_, _), 0) => Field::Number(8),
        (Form::ArMem(_, addr), _) => addr_field(addr),
        (Form::Port(_, addr), _) => with_number(addr, 16, index),
        (Form::Bit(_, addr), _) => with_number(addr, 16, index),
        (Form::Short(name), _) => field_of_short(name, index),
        (Form::Long(name), _) => field_of_long(name, index),
        (Form::LongMem(_, _), 0) => Field::Word16,
        (Form::LongMem(_, addr), _) => addr_field(addr),
        (Form::Jump(_, _), 0) => Field::Word16,
        (Form::Jump(_, _), _) => Field::Number(8),
        (Form::Plain(name, _), _) => plain_field(name),
    }
}

/// The low 16 bits of a value.
fn low16(value: i32) -> u16
    ensures { result ≡ cut value 16 }
{
    value.rem_euclid(65536) as u16
}

/// The low eight bits of a value.
fn low8(value: i32) -> u16
    ensures { result ≡ cut value 8 }
{
    value.rem_euclid(256) as u16
}

/// The low seven bits of a value: the value modulo 128.
fn low7(value: i32) -> u16
    ensures { result ≡ cut value 7 }
{
    value.rem_euclid(128) as u16
}

/// The given number, where the value is from `low` to `high`, both included; else `FieldRange` (53).
fn within(low: i32, high: i32, value: i32, number: u16) -> Result<u16, FaultKind>
    ensures { result ≡ within low high value number }
{
    if value < low || high < value {
        Err(FaultKind::FieldRange)
    } else {
        Ok(number)
    }
}

/// The given number, where the value is at least 0 and below the limit; else `FieldRange` (53).
fn below(limit: u16, value: i32, number: u16) -> Result<u16, FaultKind>
    ensures { result ≡ below limit value number }
{
    if value < 0 || value >= i32::from(limit) {
        Err(FaultKind::FieldRange)
    } else {
        Ok(number)
    }
}

/// The number that an absolute value gives a field, or `FieldRange` (53) where the value is out of the
/// field's range.
#[tactic(auto, unfolding(c25_meaning_language::specs::Statement::number_in))]
pub fn number_in(field: Field, value: i32) -> Result<u16, FaultKind>
    ensures { result ≡ number_in field value }
{
    match field {
        Field::Low7 => within(0, 65535, value, low7(value)),
        Field::Page9 => within(0, 511, value, low16(value)),
        Field::Word16 => within(-32768, 65535, value, low16(value)),
        Field::Number(limit) => below(limit, value, low16(value)),
        Field::Signed13 => within(-4096, 4095, value, low16(value)),
        Field::Word => Ok(low16(value)),
        Field::Byte => within(-128, 255, value, low8(value)),
    }
}

/// The kind of relocation by which a field takes an address, or `None` where it takes no address.
pub fn relocation_of(field: Field) -> Option<RelocationKind>
    ensures { result ≡ relocation_of field }
{
    match field {
        Field::Low7 => Some(RelocationKind::Low7),
        Field::Page9 => Some(RelocationKind::Page9),
        Field::Word16 | Field::Word => Some(RelocationKind::Word16),
        _ => None,
    }
}
