//! What each operand of a line has to be.

ghost use Rattle.std.specs.Prelude.{◌≡◌};
ghost use Rattle.c25_places.specs.Wanted.{only_at, directive_wants, plain_wants, row_wants, spelling_wants, wants};

use c25_meaning_assembly::assembly::Directive;
use c25_meaning_instructions::mnemonic::{Mnemonic, PlainName, Spelling};

/// What a line does.
#[derive(Clone, Copy)]
pub enum Operation {
    /// What a directive says.
    Does(Directive),
    /// It runs an instruction.
    Runs(Spelling),
}

/// What an operand has to be.
#[derive(Clone, Copy, PartialEq, Debug)]
pub enum Wanted {
    /// An expression.
    Expression,
    /// A word of data memory: an expression or one of the indirect forms.
    Memory,
    /// A change of the current auxiliary register: one of the indirect forms.
    Change,
    /// A name.
    Name,
    /// A string.
    Text,
    /// A section's name, in quotes or not.
    Section,
}

/// Asks for this at one index, and for an expression at all others.
fn only_at(place: usize, what: Wanted, index: usize) -> Wanted
    ensures { result ≡ only_at place what index }
{
    if index == place {
        what
    } else {
        Wanted::Expression
    }
}

fn directive_wants(directive: Directive, index: usize) -> Wanted
    ensures { result ≡ directive_wants directive index }
{
    match directive {
        Directive::Sect => Wanted::Section,
        Directive::Bss => only_at(0, Wanted::Name, index),
        Directive::Usect => only_at(0, Wanted::Section, index),
        Directive::Characters => Wanted::Text,
        Directive::Global | Directive::Def | Directive::Label => Wanted::Name,
        _ => Wanted::Expression,
    }
}

fn plain_wants(name: PlainName, index: usize) -> Wanted
    ensures { result ≡ plain_wants name index }
{
    match name {
        PlainName::Norm => only_at(0, Wanted::Change, index),
        _ => Wanted::Expression,
    }
}

fn row_wants(mnemonic: Mnemonic, index: usize) -> Wanted
    ensures { result ≡ row_wants mnemonic index }
{
    match mnemonic {
        Mnemonic::Mem(_) | Mnemonic::Shifted(_) | Mnemonic::Port(_) | Mnemonic::Bit(_) => {
            only_at(0, Wanted::Memory, index)
        }
        Mnemonic::ArMem(_) | Mnemonic::LongMem(_) => only_at(1, Wanted::Memory, index),
        Mnemonic::Jump(_) => only_at(1, Wanted::Change, index),
        Mnemonic::Plain(name) => plain_wants(name, index),
        Mnemonic::Short(_) | Mnemonic::Long(_) => Wanted::Expression,
    }
}

fn spelling_wants(spelling: Spelling, index: usize) -> Wanted
    ensures { result ≡ spelling_wants spelling index }
{
    match spelling {
        Spelling::Row(mnemonic) => row_wants(mnemonic, index),
        _ => Wanted::Expression,
    }
}

/// What the operand at an index, counted from 0, has to be.
pub fn wants(operation: Operation, index: usize) -> Wanted
    ensures { result ≡ wants operation index }
{
    match operation {
        Operation::Does(directive) => directive_wants(directive, index),
        Operation::Runs(spelling) => spelling_wants(spelling, index),
    }
}
