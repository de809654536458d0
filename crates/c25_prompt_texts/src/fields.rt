//! The fields of the status words.

ghost use Rattle.std.specs.Prelude.{◌≡◌, ◌++◌, decimal, map, OnOk, string_bytes};
ghost use Rattle.c25_prompt_texts.specs.Fields.{fields_text, other_fields, st0_fields, st1_fields, status_text};

use c25_meaning_common::no_memory::NoMemory;
use c25_meaning_processor::registers::Regs;
use c25_texts::appending::{push_text, push_texts};
use itoa::Buffer;

/// Appends a name and a number in decimal.
fn push_field(text: &mut String, name: &str, number: u16) -> Result<(), NoMemory>
    ensures { OnOk result (string_bytes text.new ≡ string_bytes text.old ++ (name.now ++ decimal number)) }
{
    let mut digits = Buffer::new();
    push_texts(text, &[name, digits.format(number)])
}

/// Appends fields, each after its name.
fn push_fields(text: &mut String, fields: &[(&str, u16)]) -> Result<(), NoMemory>
    ensures { OnOk result (string_bytes text.new ≡ string_bytes text.old ++ fields_text (map (λ f. (f.0.now, f.1)) fields.now)) }
{
    for (name, number) in fields {
        push_field(text, name, *number)?;
    }
    Ok(())
}

/// Appends the fields of ST0.
fn push_st0(text: &mut String, st0: u16) -> Result<(), NoMemory>
    ensures { OnOk result (string_bytes text.new ≡ string_bytes text.old ++ fields_text (st0_fields st0)) }
{
    let fields = [
        ("DP ", st0 % 512),
        (" ARP ", st0 / 8192),
        (" OV ", st0 / 4096 % 2),
        (" OVM ", st0 / 2048 % 2),
        (" INTM ", st0 / 512 % 2),
    ];
    push_fields(text, &fields)
}

/// Appends the fields of ST1 that computing uses.
fn push_st1(text: &mut String, st1: u16) -> Result<(), NoMemory>
    ensures { OnOk result (string_bytes text.new ≡ string_bytes text.old ++ fields_text (st1_fields st1)) }
{
    let fields = [
        (" C ", st1 / 512 % 2),
        (" TC ", st1 / 2048 % 2),
        (" SXM ", st1 / 1024 % 2),
        (" PM ", st1 % 4),
        (" CNF ", st1 / 4096 % 2),
        (" XF ", st1 / 16 % 2),
    ];
    push_fields(text, &fields)
}

/// Appends the other fields of ST1.
fn push_others(text: &mut String, st1: u16) -> Result<(), NoMemory>
    ensures { OnOk result (string_bytes text.new ≡ string_bytes text.old ++ fields_text (other_fields st1)) }
{
    let fields = [
        (" ARB ", st1 / 8192),
        (" HM ", st1 / 64 % 2),
        (" FSM ", st1 / 32 % 2),
        (" FO ", st1 / 8 % 2),
        (" TXM ", st1 / 4 % 2),
    ];
    push_fields(text, &fields)
}

/// Appends the line of all fields of the status words, each in decimal after its name (SPRU014, "Status
/// Registers").
#[tactic(auto, unfolding(crate::specs::Fields::status_text))]
pub fn push_status(text: &mut String, registers: &Regs) -> Result<(), NoMemory>
    ensures { OnOk result (string_bytes text.new ≡ string_bytes text.old ++ status_text registers.now) }
{
    push_st0(text, registers.st0)?;
    push_st1(text, registers.st1)?;
    push_others(text, registers.st1)?;
    push_text(text, "\n")
}
