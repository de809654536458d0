//! Instructions of one word without a memory operand or a short number, some with a number of one or two bits
//! or a change of the auxiliary register.

ghost use Rattle.std.specs.Prelude.{◌≡◌, ℕ, ◌+◌, ◌++◌, ◌≤◌, ◌<◌, ◌^◌, IfSome, IfNone, OnOk, string_bytes};
ghost use Rattle.c25_isa.specs.Extent.{plain_extent};
ghost use Rattle.c25_meaning_instructions.specs.Table.{plain_row, size, plain_number, PlainInRange, opcode_word, Reads};
ghost use Rattle.c25_meaning_instructions.specs.Show.{show};
ghost use Rattle.c25_meaning_instructions.specs.declared.mnemonic.PlainName.{PlainName};
ghost use Rattle.c25_meaning_instructions.specs.declared.insn.PlainOperand.{PlainOperand};
ghost use Rattle.c25_meaning_instructions.specs.declared.insn.Insn.TheVariants as insn;
ghost use Rattle.c25_meaning_instructions.specs.declared.mnemonic.Mnemonic.TheVariants as family;

use crate::{addr, rows, text};
use c25_meaning_instructions::insn::{Insn, PlainOperand};
use c25_meaning_instructions::mnemonic::PlainName;
use std::alloc::AllocError;

macro_rules! plain_rows {
    ($what:ident $value:expr) => {
        rows::$what! { PlainName 1 $value;
            Eint "EINT" 0xce00,
            Dint "DINT" 0xce01,
            Rovm "ROVM" 0xce02,
            Sovm "SOVM" 0xce03,
            Cnfd "CNFD" 0xce04,
            Cnfp "CNFP" 0xce05,
            Rsxm "RSXM" 0xce06,
            Ssxm "SSXM" 0xce07,
            Rxf "RXF" 0xce0c,
            Sxf "SXF" 0xce0d,
            Pac "PAC" 0xce14,
            Apac "APAC" 0xce15,
            Spac "SPAC" 0xce16,
            Sfl "SFL" 0xce18,
            Sfr "SFR" 0xce19,
            Abs "ABS" 0xce1b,
            Push "PUSH" 0xce1c,
            Pop "POP" 0xce1d,
            Trap "TRAP" 0xce1e,
            Idle "IDLE" 0xce1f,
            Rtxm "RTXM" 0xce20,
            Stxm "STXM" 0xce21,
            Neg "NEG" 0xce23,
            Cala "CALA" 0xce24,
            Bacc "BACC" 0xce25,
            Ret "RET" 0xce26,
            Cmpl "CMPL" 0xce27,
            Rc "RC" 0xce30,
            Sc "SC" 0xce31,
            Rtc "RTC" 0xce32,
            Stc "STC" 0xce33,
            Rol "ROL" 0xce34,
            Ror "ROR" 0xce35,
            Rfsm "RFSM" 0xce36,
            Sfsm "SFSM" 0xce37,
            Rhm "RHM" 0xce38,
            Shm "SHM" 0xce39,
            Spm "SPM" 0xce08 0xce0b,
            Fort "FORT" 0xce0e 0xce0f,
            Cmpr "CMPR" 0xce50 0xce53,
            Norm "NORM" 0xce82 0xcef2,
        }
    };
}

/// A row's first word where every operand is 0.
fn base_of(name: PlainName) -> u16
    ensures value { result ≡ (plain_row name).base }
    ensures room { result + 256 ≤ 2 ^ 16 }
{
    plain_rows!(word_of name)
}

/// A row's mnemonic.
pub(crate) fn text_of(name: PlainName) -> &'static str
    ensures { result.now ≡ (plain_row name).name }
{
    plain_rows!(text_of name)
}

/// How many words an instruction of a row has.
pub(crate) fn size_of(name: PlainName) -> u16
    ensures { result ≡ size (family.Plain name) }
{
    plain_rows!(words_of name)
}

/// The row that has a first word.
fn name_at(first: u16) -> Option<PlainName>
    ensures found { IfSome result (λ name. ((plain_row name).base ≤ first)
        × (first < (plain_row name).base + plain_extent name)) }
    ensures none { IfNone result ((name : PlainName) → (plain_row name).base ≤ first
        → first < (plain_row name).base + plain_extent name → ⊥) }
{
    plain_rows!(name_at first)
}

/// The operand of an instruction whose first word is `number` above its row's base; `None` where no
/// instruction has that word, as for a `NORM` with other low bits or the reserved change.
fn operand_of(name: PlainName, number: u16) -> Option<PlainOperand>
    requires { number < plain_extent name }
    ensures found { IfSome result
        (λ operand. PlainInRange name operand × (plain_number name operand ≡ number)) }
    ensures none { IfNone result ((operand : PlainOperand) → PlainInRange name operand
        → plain_number name operand ≡ number → ⊥) }
{
    match name {
        PlainName::Spm | PlainName::Fort | PlainName::Cmpr => Some(PlainOperand::Number(number)),
        PlainName::Norm if number % 16 != 0 => None,
        PlainName::Norm => Some(PlainOperand::Change(addr::change_of_number(number >> 4)?)),
        _ => Some(PlainOperand::Nothing),
    }
}

fn number_of(name: PlainName, operand: PlainOperand) -> u16
    requires { PlainInRange name operand }
    ensures value { result ≡ plain_number name operand }
    ensures small { result < 128 }
{
    match operand {
        PlainOperand::Nothing => 0,
        PlainOperand::Number(number) => number,
        PlainOperand::Change(change) => addr::number_of_change(change) << 4,
    }
}

/// The first word of an instruction.
pub(crate) fn encode(name: PlainName, operand: PlainOperand) -> u16
    requires { PlainInRange name operand }
    ensures { result ≡ opcode_word (insn.Plain name operand) }
{
    base_of(name) + number_of(name, operand)
}

/// The instruction of this family that has a first word.
pub(crate) fn decode(first: u16) -> Option<Insn>
    ensures found { (second : ℕ) → IfSome result (Reads first second) }
    ensures none { IfNone result ((second : ℕ) (name : PlainName) (operand : PlainOperand)
        → Reads first second (insn.Plain name operand) → ⊥) }
{
    let name = name_at(first)?;
    let operand = operand_of(name, first - base_of(name))?;
    Some(Insn::Plain(name, operand))
}

/// Appends an instruction's text.
pub(crate) fn show(
    out: &mut String,
    name: PlainName,
    operand: PlainOperand,
) -> Result<(), AllocError>
    ensures { OnOk result
        (string_bytes out.new ≡ string_bytes out.old ++ show (insn.Plain name operand)) }
{
    out.push_str(text_of(name))?;
    match operand {
        PlainOperand::Nothing => Ok(()),
        PlainOperand::Number(number) => write!(out, " {number}"),
        PlainOperand::Change(change) => {
            out.push_str(" ")?;
            out.push_str(text::text_of_change(change))
        }
    }
}
