//! The hardware stack (SPRU014, "Hardware Stack").

ghost use Rattle.std.specs.Prelude.{◌≡◌, slice_index};
ghost use Rattle.c25_meaning_processor.specs.Effect.{call, popped, push, pushed};

use c25_meaning_processor::registers::Registers;

/// The stack after a push, which loses its bottom word.
fn pushed(stack: [u16; 8], word: u16) -> [u16; 8]
    ensures { result ≡ pushed stack word }
{
    let [a, b, c, d, e, f, g, _] = stack;
    [word, a, b, c, d, e, f, g]
}

/// The stack after a pop, which leaves its bottom two words equal.
fn popped(stack: [u16; 8]) -> [u16; 8]
    ensures { result ≡ popped stack }
{
    let [_, b, c, d, e, f, g, h] = stack;
    [b, c, d, e, f, g, h, h]
}

/// Pushes a word.
pub fn push(registers: &mut Registers, word: u16)
    ensures { registers.new ≡ push word registers.old }
{
    registers.stack = pushed(registers.stack, word);
}

/// Pushes PC and continues at a target.
pub fn call(registers: &mut Registers, target: u16)
    ensures { registers.new ≡ call target registers.old }
{
    push(registers, registers.pc);
    registers.pc = target;
}

/// Pops a word.
pub fn pop(registers: &mut Registers) -> u16
    ensures top { result ≡ slice_index registers.old.stack 0 }
    ensures rest { registers.new ≡ record registers.old { stack = popped registers.old.stack } }
{
    let top = registers.stack[0];
    registers.stack = popped(registers.stack);
    top
}
