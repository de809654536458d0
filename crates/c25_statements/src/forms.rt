//! The instruction that a form makes of its operands' numbers.

ghost use Rattle.std.specs.Prelude.{◌≡◌, slice_get, slice_index};
ghost use Rattle.c25_meaning_language.specs.Statement.{insn_of, addr_of, addr_beside, number_beside, short_of, long_of, plain_of, form_row};

use c25_meaning_instructions::insn::{Addr, Change, Insn, PlainOperand};
use c25_meaning_instructions::mnemonic::{LongName, Mnemonic, PlainName, ShortName};
use c25_meaning_language::statement::{AddrForm, Form};

/// The number at an index, or 0 where there is none.
fn number_at(numbers: &[u16], index: usize) -> u16
    ensures { result ≡ slice_index numbers.now index }
{
    numbers.get(index).copied().unwrap_or(0)
}

/// The number at an index, if there is one.
fn given_at(numbers: &[u16], index: usize) -> Option<u16>
    ensures { result ≡ slice_get numbers.now index }
{
    numbers.get(index).copied()
}

/// The memory operand that a form makes of the number given for it: a direct address, or an indirect form
/// whose next auxiliary register is the number.
fn addr_of(addr: AddrForm, number: Option<u16>) -> Addr
    ensures { result ≡ addr_of addr number }
{
    match addr {
        AddrForm::Direct => Addr::Direct(number.unwrap_or(0)),
        AddrForm::Indirect(change) => Addr::Indirect(change, number),
    }
}

/// The memory operand, where the instruction has one number in addition to it.
fn addr_beside(addr: AddrForm, numbers: &[u16]) -> Addr
    ensures { result ≡ addr_beside addr numbers.now }
{
    match addr {
        AddrForm::Direct => Addr::Direct(number_at(numbers, 0)),
        AddrForm::Indirect(change) => Addr::Indirect(change, given_at(numbers, 1)),
    }
}

/// The number in addition to the memory operand: it comes after a direct address, but before a next auxiliary
/// register.
fn number_beside(addr: AddrForm, numbers: &[u16]) -> u16
    ensures { result ≡ number_beside addr numbers.now }
{
    match addr {
        AddrForm::Direct => number_at(numbers, 1),
        AddrForm::Indirect(_) => number_at(numbers, 0),
    }
}

/// The memory operand, and the number in addition to it.
fn beside(addr: AddrForm, numbers: &[u16]) -> (Addr, u16)
    ensures { result ≡ (addr_beside addr numbers.now, number_beside addr numbers.now) }
{
    (addr_beside(addr, numbers), number_beside(addr, numbers))
}

/// An instruction with a short constant.
fn short_of(name: ShortName, numbers: &[u16]) -> Insn
    ensures { result ≡ short_of name numbers.now }
{
    match name {
        ShortName::Lark => {
            let number = number_at(numbers, 1).cast_signed();
            Insn::Short(name, number_at(numbers, 0), number)
        }
        _ => {
            let number = number_at(numbers, 0).cast_signed();
            Insn::Short(name, 0, number)
        }
    }
}

/// An instruction with a constant of 16 bits.
fn long_of(name: LongName, numbers: &[u16]) -> Insn
    ensures { result ≡ long_of name numbers.now }
{
    match name {
        LongName::Lrlk => Insn::Long(name, number_at(numbers, 1), number_at(numbers, 0)),
        _ => Insn::Long(name, number_at(numbers, 0), number_at(numbers, 1)),
    }
}

/// The operand of an instruction of the family `Plain`: the change of `NORM`, the number of `SPM`, `FORT` or
/// `CMPR`, nothing for the others.
fn plain_of(name: PlainName, change: Change, numbers: &[u16]) -> PlainOperand
    ensures { result ≡ plain_of name change numbers.now }
{
    match name {
        PlainName::Norm => PlainOperand::Change(change),
        PlainName::Spm | PlainName::Fort | PlainName::Cmpr => {
            PlainOperand::Number(number_at(numbers, 0))
        }
        _ => PlainOperand::Nothing,
    }
}

/// The instruction that a form makes of its operands' numbers.
pub fn insn_of(form: Form, numbers: &[u16]) -> Insn
    ensures { result ≡ insn_of form numbers.now }
{
    match form {
        Form::Mem(name, addr) => Insn::Mem(name, addr_of(addr, given_at(numbers, 0))),
        Form::Shifted(name, addr) => {
            let (address, number) = beside(addr, numbers);
            Insn::Shifted(name, address, number)
        }
        Form::ArMem(name, addr) => {
            let address = addr_of(addr, given_at(numbers, 1));
            Insn::ArMem(name, number_at(numbers, 0), address)
        }
        Form::Port(name, addr) => {
            let (address, number) = beside(addr, numbers);
            Insn::Port(name, address, number)
        }
        Form::Bit(name, addr) => {
            let (address, number) = beside(addr, numbers);
            Insn::Bit(name, address, number)
        }
        Form::Short(name) => short_of(name, numbers),
        Form::Long(name) => long_of(name, numbers),
        Form::LongMem(name, addr) => {
            Insn::LongMem(
                name,
                number_at(numbers, 0),
                addr_of(addr, given_at(numbers, 1)),
            )
        }
        Form::Jump(name, change) => {
            Insn::Jump(name, number_at(numbers, 0), change, given_at(numbers, 1))
        }
        Form::Plain(name, change) => Insn::Plain(name, plain_of(name, change, numbers)),
    }
}

/// The row of the opcode table that a form belongs to.
pub fn form_row(form: Form) -> Mnemonic
    ensures { result ≡ form_row form }
{
    match form {
        Form::Mem(name, _) => Mnemonic::Mem(name),
        Form::Shifted(name, _) => Mnemonic::Shifted(name),
        Form::ArMem(name, _) => Mnemonic::ArMem(name),
        Form::Port(name, _) => Mnemonic::Port(name),
        Form::Bit(name, _) => Mnemonic::Bit(name),
        Form::Short(name) => Mnemonic::Short(name),
        Form::Long(name) => Mnemonic::Long(name),
        Form::LongMem(name, _) => Mnemonic::LongMem(name),
        Form::Jump(name, _) => Mnemonic::Jump(name),
        Form::Plain(name, _) => Mnemonic::Plain(name),
    }
}
