//! The directives of the assembler, and the operands of a line.

use c25_meaning_common::relocation::RelocationKind;
use c25_meaning_language::statement::Form;
use c25_meaning_objects::object::RelocationBase;

/// The directives that the assembler acts on (SPRU018, assembler directives); expansion acts on the others.
#[derive(Clone, Copy)]
pub enum Directive {
    /// `.text`
    Text,
    /// `.data`
    Data,
    /// `.sect`
    Sect,
    /// `.bss`
    Bss,
    /// `.usect`
    Usect,
    /// `.word`, `.int`
    Word,
    /// `.byte`
    Byte,
    /// `.string`
    Characters,
    /// `.space`
    Space,
    /// `.set`, `.equ`
    Set,
    /// `.global`, `.ref`
    Global,
    /// `.def`
    Def,
    /// `.label`
    Label,
    /// `.mmregs`
    Registers,
    /// A directive that concerns listings alone, as `.title`: it has no effect.
    Ignored,
}

/// How wide the values of a data directive are; each of them makes a word.
#[derive(Clone, Copy)]
pub enum DataWidth {
    /// 16 bits: `.word`, `.int`
    Word,
    /// Eight bits: `.byte`
    Byte,
}

/// What the operands of a line are for.
#[derive(Clone, Copy)]
pub enum Target {
    /// The operands of an instruction of this form.
    Instruction(Form),
    /// A word for each value of this width.
    Data(DataWidth),
}

/// An operand whose value is an address: its index among the expressions of the line, from 0; how the address
/// goes into its field; what it counts from; and the number that is added to that.
#[derive(Clone, Copy)]
pub struct Address {
    pub operand: usize,
    pub kind: RelocationKind,
    pub base: RelocationBase,
    pub addend: i32,
}
