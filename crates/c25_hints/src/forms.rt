//! The operands of instructions and directives, in the words of SPRU014 and SPRU018.

ghost use Rattle.std.specs.Prelude.{◌≡◌};
ghost use Rattle.std.specs.Option.{option_map};
ghost use Rattle.c25_hints.specs.Operands as operands;

use crate::tables;
use c25_meaning_instructions::mnemonic::{
    LongMemName, LongName, Mnemonic, PlainName, ShortName, Spelling,
};
use c25_statements::spelled;

/// The operands of an instruction with a short constant.
fn short_form(name: ShortName) -> &'static str
    ensures { result.now ≡ operands.short_form name }
{
    match name {
        ShortName::Lark => "ar,constant",
        _ => "constant",
    }
}

/// The operands of an instruction with a constant of 16 bits.
fn long_form(name: LongName) -> &'static str
    ensures { result.now ≡ operands.long_form name }
{
    match name {
        LongName::Lrlk => "ar,constant",
        _ => "constant[,shift]",
    }
}

/// The operands of an instruction with two addresses.
fn long_mem_form(name: LongMemName) -> &'static str
    ensures { result.now ≡ operands.long_mem_form name }
{
    match name {
        LongMemName::Blkd => "dma,dma | dma,ind[,next]",
        _ => "pma,dma | pma,ind[,next]",
    }
}

/// The operands of an instruction without an address.
fn plain_form(name: PlainName) -> &'static str
    ensures { result.now ≡ operands.plain_form name }
{
    match name {
        PlainName::Norm => "[ind]",
        PlainName::Spm | PlainName::Fort | PlainName::Cmpr => "constant",
        _ => "",
    }
}

/// The operands of a row of the opcode table.
fn row_form(mnemonic: Mnemonic) -> &'static str
    ensures { result.now ≡ operands.row_form mnemonic }
{
    match mnemonic {
        Mnemonic::Mem(_) => "dma | ind[,next]",
        Mnemonic::Shifted(_) => "dma[,shift] | ind[,shift[,next]]",
        Mnemonic::ArMem(_) => "ar,dma | ar,ind[,next]",
        Mnemonic::Port(_) => "dma,port | ind,port[,next]",
        Mnemonic::Bit(_) => "dma,bit | ind,bit[,next]",
        Mnemonic::Short(name) => short_form(name),
        Mnemonic::Long(name) => long_form(name),
        Mnemonic::LongMem(name) => long_mem_form(name),
        Mnemonic::Jump(_) => "pma[,ind[,next]]",
        Mnemonic::Plain(name) => plain_form(name),
    }
}

/// The operands of an instruction.
fn spelling_form(spelling: Spelling) -> &'static str
    ensures { result.now ≡ operands.spelling_form spelling }
{
    match spelling {
        Spelling::Row(mnemonic) => row_form(mnemonic),
        Spelling::Larp => "ar",
        _ => "",
    }
}

/// The operands of a directive or an instruction.
pub(crate) fn form_of(word: &str) -> Option<&'static str>
    ensures { option_map (λ f. f.now) result ≡ operands.form_of word.now }
{
    if let Some(form) = tables::form_of(word) {
        return Some(form);
    }
    match spelled(word) {
        Ok(spelling) => Some(spelling_form(spelling)),
        Err(_) => None,
    }
}
