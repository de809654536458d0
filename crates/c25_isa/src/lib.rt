//! The instruction set of the TMS320C25 (SPRU014, "Instruction Set Summary"): which spelling a text is, encoding,
//! decoding, printed instructions.
#![tactic(auto)]

mod addr;
mod ar_mem;
mod bit;
mod in_order;
mod jump;
mod long;
mod long_mem;
mod mem;
mod names;
mod plain;
mod port;
mod rows;
mod shifted;
mod short;
mod text;

ghost use Rattle.std.specs.Prelude.{◌≡◌, Some, IfSome};
ghost use Rattle.c25_meaning_instructions.specs.Table.{opcode_word, second_word, words, size, InRange, Reads};
ghost use Rattle.c25_meaning_instructions.specs.declared.insn.Insn.{Insn};

use arrayvec::ArrayVec;
use c25_meaning_instructions::insn::Insn;
use c25_meaning_instructions::mnemonic::Mnemonic;
pub use names::mnemonic;
pub use text::show;

/// The one or two words of an instruction, in the order of their addresses.
pub type Code = ArrayVec<u16, 2>;

/// The first word of an instruction.
fn first_word(insn: &Insn) -> u16
    requires { InRange insn.now }
    ensures { result ≡ opcode_word insn.now }
{
    match *insn {
        Insn::Mem(name, addr) => mem::encode(name, addr),
        Insn::Shifted(name, addr, shift) => shifted::encode(name, addr, shift),
        Insn::ArMem(name, register, addr) => ar_mem::encode(name, register, addr),
        Insn::Port(name, addr, port) => port::encode(name, addr, port),
        Insn::Bit(name, addr, number) => bit::encode(name, addr, number),
        Insn::Short(name, register, number) => short::encode(name, register, number),
        Insn::Long(name, number, high) => long::encode(name, number, high),
        Insn::LongMem(name, word, addr) => long_mem::encode(name, word, addr),
        Insn::Jump(name, word, change, next) => jump::encode(name, word, change, next),
        Insn::Plain(name, operand) => plain::encode(name, operand),
    }
}

/// The second word of an instruction, where it has one.
fn second_word(insn: &Insn) -> Option<u16>
    requires { InRange insn.now }
    ensures { result ≡ second_word insn.now }
{
    match *insn {
        Insn::Long(_, word, _) | Insn::LongMem(_, word, _) | Insn::Jump(_, word, _, _) => Some(
            word,
        ),
        _ => None,
    }
}

/// The words of an instruction whose operands are in range. No memory is taken.
pub fn encode(insn: &Insn) -> Code
    requires { InRange insn.now }
    ensures { result.items ≡ words insn.now }
{
    let mut code = Code::new();
    code.push(first_word(insn));
    let Some(second) = second_word(insn) else {
        return code;
    };
    code.push(second);
    code
}

/// The instruction at a word, whose next word is `second`; an instruction of one word leaves `second` free.
///
/// `None` where no row of the table has the words: as with the reserved change of an auxiliary register, the
/// number of a next register without the bit that announces it, a direct operand in a jump, a register above
/// 7 in `LRLK`, and a word that is no opcode. No memory is taken.
pub fn decode(first: u16, second: u16) -> Option<Insn>
    ensures found { IfSome result (Reads first second) }
    ensures all { (insn : Insn) → Reads first second insn → result ≡ Some insn }
{
    if let Some(insn) = mem::decode(first) {
        return Some(insn);
    }
    if let Some(insn) = shifted::decode(first) {
        return Some(insn);
    }
    if let Some(insn) = ar_mem::decode(first) {
        return Some(insn);
    }
    if let Some(insn) = port::decode(first) {
        return Some(insn);
    }
    if let Some(insn) = bit::decode(first) {
        return Some(insn);
    }
    if let Some(insn) = short::decode(first) {
        return Some(insn);
    }
    if let Some(insn) = long::decode(first, second) {
        return Some(insn);
    }
    if let Some(insn) = long_mem::decode(first, second) {
        return Some(insn);
    }
    if let Some(insn) = jump::decode(first, second) {
        return Some(insn);
    }
    plain::decode(first)
}

/// How many words the instructions of a row have: 1 or 2.
pub fn size_of(mnemonic: Mnemonic) -> u16
    ensures { result ≡ size mnemonic }
{
    match mnemonic {
        Mnemonic::Mem(name) => mem::size_of(name),
        Mnemonic::Shifted(name) => shifted::size_of(name),
        Mnemonic::ArMem(name) => ar_mem::size_of(name),
        Mnemonic::Port(name) => port::size_of(name),
        Mnemonic::Bit(name) => bit::size_of(name),
        Mnemonic::Short(name) => short::size_of(name),
        Mnemonic::Long(name) => long::size_of(name),
        Mnemonic::LongMem(name) => long_mem::size_of(name),
        Mnemonic::Jump(name) => jump::size_of(name),
        Mnemonic::Plain(name) => plain::size_of(name),
    }
}
