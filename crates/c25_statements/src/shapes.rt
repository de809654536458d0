//! The form of an instruction by the kinds of its operands.

ghost use Rattle.std.specs.Prelude.{◌≡◌, ◌+◌, ◌≤◌, ◌<◌, ◌^◌, Ok, Err, slice_get, length};
ghost use Rattle.std.specs.List.{list_all};
ghost use Rattle.c25_meaning_language.specs.Forms as forms;

use c25_meaning_instructions::insn::Change;
use c25_meaning_instructions::mnemonic::{
    JumpName, LongName, MemName, Mnemonic, PlainName, ShortName, Spelling,
};
use c25_meaning_language::statement::{AddrForm, FaultKind, Form, Written};

/// Whether the operand is an expression.
fn is_expression(operand: Written) -> bool
    ensures { result ≡ forms.is_expression operand }
{
    match operand {
        Written::Expression => true,
        _ => false,
    }
}

/// Whether each operand is an expression.
fn all_expressions(operands: &[Written]) -> bool
    ensures { result ≡ list_all forms.is_expression operands.now }
{
    operands.iter().all(|operand| is_expression(*operand))
}

/// Whether each operand but the one at an index, counted from 0, is an expression.
fn others(index: usize, operands: &[Written]) -> bool
    ensures { result ≡ forms.others index operands.now }
{
    match operands {
        [] => true,
        [first, rest @ ..] => {
            if index == 0 {
                all_expressions(rest)
            } else {
                is_expression(*first) && others(index - 1, rest)
            }
        }
    }
}

/// Checks that the number of operands is from `low` to `high`, both included; else `OperandCount` (51).
fn counted(low: usize, high: usize, operands: &[Written]) -> Result<(), FaultKind>
    ensures { result ≡ forms.counted low high operands.now }
{
    if operands.len() < low || high < operands.len() {
        Err(FaultKind::OperandCount)
    } else {
        Ok(())
    }
}

/// How many operands may follow the memory operand: one, the next auxiliary register, after an indirect form;
/// none after a direct address.
fn more_behind(operand: Option<Written>) -> usize
    ensures value { result ≡ forms.more_behind operand }
    ensures bound { result ≤ 1 }
{
    match operand {
        Some(Written::Indirect(_)) => 1,
        _ => 0,
    }
}

/// How the memory word is addressed; `OperandForm` (52) where the operand is a string or is missing.
fn addr_written(operand: Option<Written>) -> Result<AddrForm, FaultKind>
    ensures { result ≡ forms.addr_written operand }
{
    match operand {
        Some(Written::Expression) => Ok(AddrForm::Direct),
        Some(Written::Indirect(change)) => Ok(AddrForm::Indirect(change)),
        _ => Err(FaultKind::OperandForm),
    }
}

/// How the memory word is addressed by the operand at an index. The number of operands has to be in range,
/// else 51; the others have to be expressions, else 52.
fn memory(
    index: usize,
    low: usize,
    high: usize,
    operands: &[Written],
) -> Result<AddrForm, FaultKind>
    requires { high < 256 }
    ensures { result ≡ forms.memory index low high operands.now }
{
    let operand = operands.get(index).copied();
    counted(low, high + more_behind(operand), operands)?;
    let addr = addr_written(operand)?;
    if others(index, operands) {
        Ok(addr)
    } else {
        Err(FaultKind::OperandForm)
    }
}

/// Checks that the number of operands is from `low` to `high`, else 51, and that each is an expression, else
/// 52.
#[tactic(auto, unfolding(c25_meaning_language::specs::Forms::expressions))]
fn expressions(low: usize, high: usize, operands: &[Written]) -> Result<(), FaultKind>
    ensures { result ≡ forms.expressions low high operands.now }
{
    counted(low, high, operands)?;
    if all_expressions(operands) {
        Ok(())
    } else {
        Err(FaultKind::OperandForm)
    }
}

/// How an indirect operand changes the auxiliary register, or the default where the operand is missing;
/// `OperandForm` (52) for another operand.
fn change_written(default: Change, operand: Option<Written>) -> Result<Change, FaultKind>
    ensures { result ≡ forms.change_written default operand }
{
    match operand {
        None => Ok(default),
        Some(Written::Indirect(change)) => Ok(change),
        _ => Err(FaultKind::OperandForm),
    }
}

/// How a jump without an indirect operand changes the auxiliary register: `BANZ` counts it down, the others keep it.
fn jump_change(name: JumpName) -> Change
    ensures { result ≡ forms.jump_change name }
{
    match name {
        JumpName::Banz => Change::Decrement,
        _ => Change::Keep,
    }
}

/// How the operands of a jump change the auxiliary register: an address, and perhaps an indirect form with
/// the next auxiliary register; else 51, then 52.
fn jumping(name: JumpName, operands: &[Written]) -> Result<Change, FaultKind>
    ensures { result ≡ forms.jumping name operands.now }
{
    let operand = operands.get(1).copied();
    counted(1, 2 + more_behind(operand), operands)?;
    let change = change_written(jump_change(name), operand)?;
    if others(1, operands) {
        Ok(change)
    } else {
        Err(FaultKind::OperandForm)
    }
}

/// How the operand of `NORM` changes the auxiliary register: an indirect form, or `*+` where there is none;
/// else 51, then 52.
#[tactic(auto, unfolding(c25_meaning_language::specs::Forms::norm))]
fn norm(operands: &[Written]) -> Result<Change, FaultKind>
    ensures { result ≡ forms.norm operands.now }
{
    counted(0, 1, operands)?;
    change_written(Change::Increment, operands.first().copied())
}

/// How an instruction of the family `Plain` changes the auxiliary register: `NORM` by its operand, the others
/// not at all. `SPM`, `FORT` and `CMPR` must have one expression, the others no operand; else 51, then 52.
fn plain_change(name: PlainName, operands: &[Written]) -> Result<Change, FaultKind>
    ensures { result ≡ forms.plain_change name operands.now }
{
    match name {
        PlainName::Norm => norm(operands),
        PlainName::Spm | PlainName::Fort | PlainName::Cmpr => {
            expressions(1, 1, operands).and(Ok(Change::Keep))
        }
        _ => expressions(0, 0, operands).and(Ok(Change::Keep)),
    }
}

/// The form of an instruction with a short constant: `LARK` has a register before the constant.
fn short_form(name: ShortName, operands: &[Written]) -> Result<Form, FaultKind>
    ensures { result ≡ forms.row_form (Mnemonic.Short name) operands.now }
{
    let count = match name {
        ShortName::Lark => 2,
        _ => 1,
    };
    expressions(count, count, operands).and(Ok(Form::Short(name)))
}

/// The form of an instruction with a constant of 16 bits: `LRLK` has a register before the constant, the
/// others perhaps a shift after it.
fn long_form(name: LongName, operands: &[Written]) -> Result<Form, FaultKind>
    ensures { result ≡ forms.row_form (Mnemonic.Long name) operands.now }
{
    let least = match name {
        LongName::Lrlk => 2,
        _ => 1,
    };
    expressions(least, 2, operands).and(Ok(Form::Long(name)))
}

/// The form of an instruction, by its row of the opcode table.
fn row_form(mnemonic: Mnemonic, operands: &[Written]) -> Result<Form, FaultKind>
    ensures { result ≡ forms.row_form mnemonic operands.now }
{
    match mnemonic {
        Mnemonic::Mem(name) => Ok(Form::Mem(name, memory(0, 1, 1, operands)?)),
        Mnemonic::Shifted(name) => Ok(Form::Shifted(name, memory(0, 1, 2, operands)?)),
        Mnemonic::ArMem(name) => Ok(Form::ArMem(name, memory(1, 2, 2, operands)?)),
        Mnemonic::Port(name) => Ok(Form::Port(name, memory(0, 2, 2, operands)?)),
        Mnemonic::Bit(name) => Ok(Form::Bit(name, memory(0, 2, 2, operands)?)),
        Mnemonic::Short(name) => short_form(name, operands),
        Mnemonic::Long(name) => long_form(name, operands),
        Mnemonic::LongMem(name) => Ok(Form::LongMem(name, memory(1, 2, 2, operands)?)),
        Mnemonic::Jump(name) => Ok(Form::Jump(name, jumping(name, operands)?)),
        Mnemonic::Plain(name) => Ok(Form::Plain(name, plain_change(name, operands)?)),
    }
}

/// The form of an instruction, by its spelling and what its operands are written as: `OperandCount` (51)
/// where there are too few or too many operands, then `OperandForm` (52) where one has another form than the
/// instruction takes.
pub fn form_of(spelling: Spelling, operands: &[Written]) -> Result<Form, FaultKind>
    ensures { result ≡ forms.form_of spelling operands.now }
{
    match spelling {
        Spelling::Row(mnemonic) => row_form(mnemonic, operands),
        Spelling::Zac => expressions(0, 0, operands).and(Ok(Form::Short(ShortName::Lack))),
        Spelling::Nop => expressions(0, 0, operands).and(Ok(Form::Mem(
            MemName::Mar,
            AddrForm::Direct,
        ))),
        Spelling::Larp => expressions(1, 1, operands).and(Ok(Form::Mem(
            MemName::Mar,
            AddrForm::Indirect(Change::Keep),
        ))),
    }
}
